// A lent shelf is a shelf.

use crate::refusal::PutRefusal;
use crate::shelf::Shelf;
use stamps::{CardNo, Stamp, TxNo, Value, VersionNo};

// Each call goes to the shelf that was lent.
impl<S: Shelf> Shelf for &mut S {
    ghost meaning = { λ s. S.meaning s.now };

    ghost sound = { λ s. S.sound s.now };

    fn cards(&self) -> u32 {
        S::cards(self)
    }

    fn width(&self) -> u32 {
        S::width(self)
    }

    fn versions(&self, card: CardNo) -> Option<u32> {
        S::versions(self, card)
    }

    fn newest(&self, card: CardNo) -> Option<VersionNo> {
        S::newest(self, card)
    }

    fn shares(&self, one: CardNo, other: CardNo) -> Option<bool> {
        S::shares(self, one, other)
    }

    fn free(&self, card: CardNo) -> Option<u32> {
        S::free(self, card)
    }

    fn value(&self, card: CardNo, version: VersionNo) -> Option<Value> {
        S::value(self, card, version)
    }

    fn writer(&self, card: CardNo, version: VersionNo) -> Option<TxNo> {
        S::writer(self, card, version)
    }

    fn entry(&self, card: CardNo, version: VersionNo, of: CardNo) -> Option<u16> {
        S::entry(self, card, version, of)
    }

    fn stamp(&self, card: CardNo, version: VersionNo) -> Option<Stamp> {
        S::stamp(self, card, version)
    }

    fn put(
        &mut self,
        card: CardNo,
        value: Value,
        writer: TxNo,
        counts: &[u32],
    ) -> Result<(), PutRefusal> {
        S::put(self, card, value, writer, counts)
    }
}
