ghost use Rattle.std.specs.Prelude.{◌≡◌, ◌+◌, ◌≤◌, true, length, if◌then◌else◌, Some, None, Ok, nat_eq};
ghost use Rattle.records.specs.declared.line.Line.{Line as OneLine};
ghost use Rattle.records.specs.Format.{record_size, number_at, kind_of, transaction_in, card_in, good_card, decoded};

use super::RECORD_SIZE;
use super::decode::field;
use super::kind::Kind;
use super::line::Line;
use stamps::{CardNo, TxNo};

// The number in the four bytes from `at` on of a record; none at another length than a record's.
fn number_in(bytes: &[u8], at: usize) -> Option<u32>
    requires { at + 4 ≤ record_size }
    ensures { result ≡ (if nat_eq (length bytes.now) record_size then Some (number_at bytes.now at 4) else None) }
{
    if bytes.len() != RECORD_SIZE {
        return None;
    }
    Some(u32::from_be_bytes(field(bytes, at)))
}

impl Line {
    // The kind whose letters a record's bytes begin with, if any, whatever its fields are; none at another length than a record's.
    // It is the kind of the line that the bytes read as. `decode` has these patterns once more, each before its fields: in a trial that told the kind
    // first and read the fields behind it, a record took 11.7 ns in place of 8.6.
    pub fn kind_in(bytes: &[u8]) -> Option<Kind>
        ensures value { result ≡ (if nat_eq (length bytes.now) record_size then kind_of bytes.now else None) }
        ensures same { (l : OneLine) → decoded bytes.now ≡ Ok l → result ≡ Some l.kind }
    {
        if bytes.len() != RECORD_SIZE {
            return None;
        }
        match bytes {
            [b'R', b'E', b'A', b'D', ..] => Some(Kind::Read),
            [b'W', b'R', b'I', b'T', ..] => Some(Kind::Writ),
            [b'D', b'O', b'N', b'E', ..] => Some(Kind::Done),
            [b'G', b'O', b'N', b'E', ..] => Some(Kind::Gone),
            _ => None,
        }
    }

    // The transaction that stands in a record's bytes, whatever its other fields are; none at another length than a record's.
    // It is the transaction of the line that the bytes read as.
    pub fn transaction_in(bytes: &[u8]) -> Option<TxNo>
        ensures value { result ≡ (if nat_eq (length bytes.now) record_size then Some (transaction_in bytes.now) else None) }
        ensures same { (l : OneLine) → decoded bytes.now ≡ Ok l → result ≡ Some l.transaction }
    {
        number_in(bytes, 4).map(TxNo)
    }

    // The same of the card, which is 0 at an end.
    pub fn card_in(bytes: &[u8]) -> Option<CardNo>
        ensures value { result ≡ (if nat_eq (length bytes.now) record_size then Some (card_in bytes.now) else None) }
        ensures same { (l : OneLine) → decoded bytes.now ≡ Ok l → result ≡ Some l.card }
        ensures fit { (l : OneLine) → decoded bytes.now ≡ Ok l → good_card l.kind l.card.0 ≡ true }
    {
        number_in(bytes, 8).map(CardNo)
    }
}
