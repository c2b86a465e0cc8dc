ghost use Rattle.std.specs.Prelude.{◌≡◌, ◌+◌, ◌≤◌, length, IfOk};
ghost use Rattle.std.specs.List.{between};
ghost use Rattle.records.specs.Format.{line_behind, fields_of, decoded, placed_at, encoded};

use super::RECORD_SIZE;
use super::fault::{PlacedFault, RecordFault};
use super::kind::Kind;
use super::line::Line;
use stamps::{CardNo, TxNo, Value};

// The bytes of a field, which begins at `at`.
pub(crate) fn field<const N: usize>(bytes: &[u8], at: usize) -> [u8; N]
    requires { at + N ≤ length bytes.now }
    ensures { result ≡ between at (at + N) bytes.now }
{
    *bytes[at..].first_chunk().unwrap()
}

impl Line {
    // The line that a record's bytes write: `Length` at another length than a record's, else the first bad field.
    // What is read is written back as the same bytes. It is put in place where it is called: as a call it takes twice as long, its answer being
    // copied from hand to hand.
    #[inline(always)]
    pub fn decode(bytes: &[u8]) -> Result<Line, RecordFault>
        ensures value { result ≡ decoded bytes.now }
        ensures back { IfOk result (λ l. encoded l ≡ bytes.now) }
    {
        if bytes.len() != RECORD_SIZE {
            return Err(RecordFault::Length);
        }
        match bytes {
            [b'R', b'E', b'A', b'D', rest @ ..] => Line::of_fields(Kind::Read, rest).checked(),
            [b'W', b'R', b'I', b'T', rest @ ..] => Line::of_fields(Kind::Writ, rest).checked(),
            [b'D', b'O', b'N', b'E', rest @ ..] => Line::of_fields(Kind::Done, rest).checked(),
            [b'G', b'O', b'N', b'E', rest @ ..] => Line::of_fields(Kind::Gone, rest).checked(),
            _ => Err(RecordFault::Kind),
        }
    }

    // The line of the record at this place of a file, or its fault and the place.
    #[inline(always)]
    pub fn decode_at(bytes: &[u8], place: usize) -> Result<Line, PlacedFault>
        ensures { result ≡ placed_at place (decoded bytes.now) }
    {
        Line::decode(bytes).map_err(|fault| PlacedFault { fault, place })
    }

    // The line of this kind whose fields, good or bad, stand in the 28 bytes behind the kind's letters.
    fn of_fields(kind: Kind, rest: &[u8]) -> Line
        requires { length rest.now ≡ 28 }
        ensures value { result ≡ line_behind kind rest.now }
        ensures back { fields_of result ≡ rest.now }
    {
        Line {
            kind,
            transaction: TxNo(u32::from_be_bytes(field(rest, 0))),
            card: CardNo(u32::from_be_bytes(field(rest, 4))),
            writer: TxNo(u32::from_be_bytes(field(rest, 8))),
            value: Value {
                first: u64::from_be_bytes(field(rest, 12)),
                second: u64::from_be_bytes(field(rest, 20)),
            },
        }
    }
}
