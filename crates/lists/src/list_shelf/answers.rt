// What a shelf of lists answers, and how it takes a version.
ghost use Rattle.std.specs.Prelude.{◌≡◌};
ghost use Rattle.std.specs.Option.{option_map};
ghost use Rattle.shelf.specs.Meaning.{version_at};
ghost use Rattle.lists.specs.Lists.{version_of};
ghost use Rattle.lists.specs.ListMeaning.{list_meaning};
ghost use Rattle.lists.specs.ListFacts;

use crate::list_shelf::{Kept, ListShelf};
use shelf::{PutRefusal, Shelf};
use stamps::{CardNo, Stamp, TxNo, Value, VersionNo};

impl ListShelf {
    // What is kept of a version.
    fn kept(&self, card: CardNo, version: VersionNo) -> Option<Kept>
        ensures { option_map version_of result ≡
            version_at (list_meaning self.now) card.0 version.0 }
    {
        self.lists
            .get(card.0 as usize)?
            .get(version.0 as usize)
            .copied()
    }
}

impl Shelf for ListShelf {
    ghost meaning = { list_meaning };

    ghost sound = { ListFacts.sound };

    fn cards(&self) -> u32 {
        self.lists.len() as u32
    }

    fn width(&self) -> u32 {
        self.width
    }

    fn versions(&self, card: CardNo) -> Option<u32> {
        Some(self.lists.get(card.0 as usize)?.len() as u32)
    }

    fn shares(&self, one: CardNo, other: CardNo) -> Option<bool> {
        let both = one.0 < self.cards() && other.0 < self.cards();
        both.then_some(one == other)
    }

    fn free(&self, card: CardNo) -> Option<u32> {
        Some(self.places + 1 - self.versions(card)?)
    }

    fn value(&self, card: CardNo, version: VersionNo) -> Option<Value> {
        Some(self.kept(card, version)?.value)
    }

    fn writer(&self, card: CardNo, version: VersionNo) -> Option<TxNo> {
        Some(self.kept(card, version)?.writer)
    }

    fn entry(&self, card: CardNo, version: VersionNo, of: CardNo) -> Option<u16> {
        Some(self.kept(card, version)?.stamp.entry(of))
    }

    fn put(
        &mut self,
        card: CardNo,
        value: Value,
        writer: TxNo,
        counts: &[u32],
    ) -> Result<(), PutRefusal> {
        let free = Self::free(self, card).ok_or(PutRefusal::NoCard)?;
        if counts.len() > self.width as usize {
            return Err(PutRefusal::BadStamp);
        }
        let stamp = Stamp::from_counts(counts).ok_or(PutRefusal::BadStamp)?;
        if free == 0 {
            return Err(PutRefusal::NoPlace);
        }
        self.lists[card.0 as usize].push_reserved(Kept {
            value,
            writer,
            stamp,
        });
        Ok(())
    }
}
