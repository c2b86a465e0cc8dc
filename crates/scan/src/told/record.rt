// One record that was taken in, read again.
ghost use Rattle.std.specs.Prelude.{◌≡◌, ◌<◌, true, Ok, is_ok};
ghost use Rattle.records.specs.declared.line.Line.{Line as OneLine};
ghost use Rattle.records.specs.Format.{decoded, good_card};
ghost use Rattle.records.specs.Parts.{part};
ghost use Rattle.scan.specs.Scanning.{deed_told};

use super::Told;
use crate::deed::Deed;
use records::{Kind, Line, RECORD_SIZE};
use stamps::{CardNo, TxNo};

// The bytes of a record that has no bad field.
#[derive(Clone, Copy)]
pub(super) struct GoodRecord<'a> {
    bytes: &'a [u8],
    ghost good: { is_ok (decoded bytes.now) ≡ true },
}

impl<'a> Told<'a> {
    pub(super) fn record(&self, place: usize) -> GoodRecord<'a>
        requires { place < self.now.count }
        ensures { result.bytes.now ≡ part self.now.file.now place }
    {
        let start = place * RECORD_SIZE;
        GoodRecord {
            bytes: &self.file[start..start + RECORD_SIZE],
        }
    }
}

impl GoodRecord<'_> {
    // The kind, without reading the rest of the record.
    fn kind(&self) -> Kind
        ensures { (l : OneLine) → decoded self.now.bytes.now ≡ Ok l → l.kind ≡ result }
    {
        Line::kind_in(self.bytes).unwrap()
    }

    // The transaction, without reading the rest of the record.
    pub(super) fn transaction(&self) -> TxNo
        ensures { (l : OneLine) → decoded self.now.bytes.now ≡ Ok l → l.transaction ≡ result }
    {
        Line::transaction_in(self.bytes).unwrap()
    }

    // The card, without reading the rest of the record: 0 at an end.
    fn card(&self) -> CardNo
        ensures same { (l : OneLine) → decoded self.now.bytes.now ≡ Ok l → l.card ≡ result }
        ensures fit { (l : OneLine) → decoded self.now.bytes.now ≡ Ok l → good_card l.kind l.card.0 ≡ true }
    {
        Line::card_in(self.bytes).unwrap()
    }

    // Whether it tells this of a transaction. No record is read whole again.
    pub(super) fn shows(&self, by: TxNo, deed: Deed) -> bool
        ensures { (l : OneLine) → decoded self.now.bytes.now ≡ Ok l → result ≡ deed_told deed by.0 l }
    {
        self.transaction() == by && self.card() == deed.card() && deed.is_of(self.kind())
    }
}
