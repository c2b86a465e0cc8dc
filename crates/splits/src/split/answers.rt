// What a split answers, and how it takes a version: each by the side that keeps the card.
ghost use Rattle.splits.specs.Split.{parts, join, Kept};
ghost use Rattle.splits.specs.SplitLaws.{split_sound, both_sound};

use crate::split::{Side, SplitShelf};
use shelf::{PutRefusal, Shelf};
use stamps::{CardNo, Stamp, TxNo, Value, VersionNo};

impl<L: Shelf, R: Shelf> SplitShelf<L, R> {
    // The side that keeps a card, and the card's number there; none for a card that the split does not show.
    pub fn side(&self, card: CardNo) -> Option<(Side, CardNo)>
        ensures { Kept (parts (L.Shelf.meaning self.now.left) (R.Shelf.meaning self.now.right)) card.0 result }
    {
        if card.0 >= self.cards() {
            return None;
        }
        let on_left = self.on_left;
        if card.0 < on_left {
            return Some((Side::Left, card));
        }
        Some((Side::Right, CardNo(card.0 - on_left)))
    }
}

// Each question is asked of the side that keeps the card. The sides have two types, so a function that asks either would take a
// closure for each, and name the question twice as two arms do.
impl<L: Shelf, R: Shelf> Shelf for SplitShelf<L, R> {
    ghost meaning = { λ s. join (parts (L.Shelf.meaning s.left) (R.Shelf.meaning s.right)) };

    ghost sound = { λ s.
        let l = L.Shelf.meaning s.left in
        let r = R.Shelf.meaning s.right in
        split_sound (parts l r) (both_sound l r (L.Shelf.sound s.left) (R.Shelf.sound s.right)) };

    #[tactic(auto, unfolding(crate::specs::Split::join))]
    fn cards(&self) -> u32 {
        self.cards
    }

    // The smaller width of the two.
    #[tactic(auto, unfolding(crate::specs::Split::join))]
    fn width(&self) -> u32 {
        self.width
    }

    fn versions(&self, card: CardNo) -> Option<u32> {
        match self.side(card)? {
            (Side::Left, card) => self.left.versions(card),
            (Side::Right, card) => self.right.versions(card),
        }
    }

    fn newest(&self, card: CardNo) -> Option<VersionNo> {
        match self.side(card)? {
            (Side::Left, card) => self.left.newest(card),
            (Side::Right, card) => self.right.newest(card),
        }
    }

    fn shares(&self, one: CardNo, other: CardNo) -> Option<bool> {
        match (self.side(one)?, self.side(other)?) {
            ((Side::Left, one), (Side::Left, other)) => self.left.shares(one, other),
            ((Side::Right, one), (Side::Right, other)) => self.right.shares(one, other),
            _ => Some(false),
        }
    }

    fn free(&self, card: CardNo) -> Option<u32> {
        match self.side(card)? {
            (Side::Left, card) => self.left.free(card),
            (Side::Right, card) => self.right.free(card),
        }
    }

    fn value(&self, card: CardNo, version: VersionNo) -> Option<Value> {
        match self.side(card)? {
            (Side::Left, card) => self.left.value(card, version),
            (Side::Right, card) => self.right.value(card, version),
        }
    }

    fn writer(&self, card: CardNo, version: VersionNo) -> Option<TxNo> {
        match self.side(card)? {
            (Side::Left, card) => self.left.writer(card, version),
            (Side::Right, card) => self.right.writer(card, version),
        }
    }

    fn entry(&self, card: CardNo, version: VersionNo, of: CardNo) -> Option<u16> {
        let width = self.width();
        let cut = |count: u16| if of.0 < width { count } else { 0 };
        match self.side(card)? {
            (Side::Left, card) => self.left.entry(card, version, of).map(cut),
            (Side::Right, card) => self.right.entry(card, version, of).map(cut),
        }
    }

    fn stamp(&self, card: CardNo, version: VersionNo) -> Option<Stamp> {
        let width = self.width();
        let cut = |stamp: Stamp| stamp.cut_at(width);
        match self.side(card)? {
            (Side::Left, card) => self.left.stamp(card, version).map(cut),
            (Side::Right, card) => self.right.stamp(card, version).map(cut),
        }
    }

    fn put(
        &mut self,
        card: CardNo,
        value: Value,
        writer: TxNo,
        counts: &[u32],
    ) -> Result<(), PutRefusal> {
        let (side, card) = self.side(card).ok_or(PutRefusal::NoCard)?;
        if counts.len() > Self::width(self) as usize {
            return Err(PutRefusal::BadStamp);
        }
        match side {
            Side::Left => self.left.put(card, value, writer, counts),
            Side::Right => self.right.put(card, value, writer, counts),
        }
    }
}
