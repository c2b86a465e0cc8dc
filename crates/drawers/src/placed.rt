// A shelf over drawers.
ghost use Rattle.std.specs.Prelude.{◌≡◌, IfSome, is_some, if◌then◌else◌, Ok, Err, nat_lt};
ghost use Rattle.std.specs.Option.{option_map};
ghost use Rattle.stamps.specs.Counts.{countable, counts_at, cut};
ghost use Rattle.stamps.specs.Entries.{entries};
ghost use Rattle.shelf.specs.declared.refusal.CheckRefusal.TheVariants.{NoFit};
ghost use Rattle.shelf.specs.Meaning.{version_at};
ghost use Rattle.drawers.specs.Fresh.{no_cards};
ghost use Rattle.drawers.specs.Places.{version_kept};

use crate::giving::Drawers;
use crate::making::MakeDrawers;
use crate::places::Written;
use crate::stamping::stamp_from;
use shelf::{CheckRefusal, PutRefusal, Shelf, Size};
use stamps::{CardNo, Stamp, TxNo, Value, VersionNo};
use std::alloc::Global;

// The versions of a card lie in the places that its drawer gives it; version 0 lies in none.
#[derive(Drop)]
pub struct PlacedShelf<D> {
    drawers: D,
}

impl<D: MakeDrawers> PlacedShelf<D> {
    // Whether a shelf of this size fits into the memory.
    pub fn check(memory: &D::Memory, size: Size) -> Result<(), CheckRefusal>
        ensures { result ≡ (if D.fits memory.now size then Ok tt else Err NoFit) }
    {
        if D::fits(memory, size) {
            Ok(())
        } else {
            Err(CheckRefusal::NoFit)
        }
    }

    // A shelf with each card at version 0 alone and all places free; a shelf of no cards where this does not fit.
    pub fn new(memory: D::Memory, size: Size) -> PlacedShelf<D>
        ensures { ⟦<PlacedShelf<D> as Shelf>⟧.meaning result ≡ D.made memory size }
    {
        let drawers = if D::fits(&memory, size) {
            D::empty(memory, size)
        } else {
            D::none(memory)
        };
        PlacedShelf { drawers }
    }

    /// A shelf of no cards; no memory is asked for.
    pub fn without_cards(alloc: Global) -> PlacedShelf<D>
        ensures { ⟦<PlacedShelf<D> as Shelf>⟧.meaning result ≡ no_cards }
    {
        PlacedShelf {
            drawers: D::none(D::no_memory(alloc)),
        }
    }
}

impl<D: Drawers> PlacedShelf<D> {
    fn has(&self, card: CardNo) -> bool
        ensures { result ≡ nat_lt card.0 (D.meaning self.now.drawers).cards }
    {
        card.0 < self.drawers.size().cards
    }

    // What is written of a version. Two options: a shelf may lack the version, and version 0, which each card has, is in no place.
    fn found(&self, card: CardNo, version: VersionNo) -> Option<Option<&Written>>
        ensures { option_map (λ o. version_kept (D.meaning self.now.drawers).width (option_map (λ t. t.now) o)) result ≡ version_at (D.meaning self.now.drawers) card.0 version.0 }
    {
        if version > self.newest(card)? {
            None
        } else if version.0 == 0 {
            Some(None)
        } else {
            Some(Some(self.drawers.written(card, version)))
        }
    }

    // The stamp with these counts, if the shelf can keep it.
    fn stamp_of(&self, counts: &[u32]) -> Option<Stamp>
        ensures told { is_some result ≡ countable (D.meaning self.now.drawers).width counts.now }
        ensures kept { IfSome result (λ x. cut (D.meaning self.now.drawers).width (entries x) ≡ counts_at counts.now) }
    {
        stamp_from(self.width(), counts)
    }
}

impl<D: Drawers> Shelf for PlacedShelf<D> {
    ghost meaning = { λ s. D.meaning s.drawers };

    ghost sound = { λ s. D.sound s.drawers };

    fn cards(&self) -> u32 {
        self.drawers.size().cards
    }

    fn width(&self) -> u32 {
        self.drawers.size().width
    }

    fn versions(&self, card: CardNo) -> Option<u32> {
        Some(self.newest(card)?.0 + 1)
    }

    fn newest(&self, card: CardNo) -> Option<VersionNo> {
        self.has(card).then(|| self.drawers.newest(card))
    }

    fn shares(&self, one: CardNo, other: CardNo) -> Option<bool> {
        (self.has(one) && self.has(other)).then(|| self.drawers.shares(one, other))
    }

    fn free(&self, card: CardNo) -> Option<u32> {
        self.has(card).then(|| self.drawers.free(card))
    }

    fn value(&self, card: CardNo, version: VersionNo) -> Option<Value> {
        let found = self.found(card, version)?;
        Some(found.map_or(Value::BLANK, |written| written.value))
    }

    fn writer(&self, card: CardNo, version: VersionNo) -> Option<TxNo> {
        let found = self.found(card, version)?;
        Some(found.map_or(TxNo(0), |written| written.writer))
    }

    fn entry(&self, card: CardNo, version: VersionNo, of: CardNo) -> Option<u16> {
        let found = self.found(card, version)?;
        Some(match found {
            Some(written) if of.0 < self.width() => written.stamp.entry(of),
            _ => 0,
        })
    }

    fn stamp(&self, card: CardNo, version: VersionNo) -> Option<Stamp> {
        let found = self.found(card, version)?;
        Some(found.map_or_else(Stamp::zero, |written| written.stamp.cut_at(self.width())))
    }

    fn put(
        &mut self,
        card: CardNo,
        value: Value,
        writer: TxNo,
        counts: &[u32],
    ) -> Result<(), PutRefusal> {
        let free = Self::free(self, card).ok_or(PutRefusal::NoCard)?;
        let stamp = self.stamp_of(counts).ok_or(PutRefusal::BadStamp)?;
        if free == 0 {
            return Err(PutRefusal::NoPlace);
        }
        let written = Written {
            value,
            writer,
            stamp,
        };
        self.drawers.add(card, written);
        Ok(())
    }
}
