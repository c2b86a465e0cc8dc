// What the drawers of a row shelf answer, how they take a version, and how they are made.
ghost use Rattle.std.specs.Prelude.{refl};
ghost use Rattle.drawers.specs.Fresh.{each_own};
ghost use Rattle.rows.specs.RowMeaning.{row_meaning, row_fits, row_made};
ghost use Rattle.rows.specs.RowFacts;

use crate::row::{RowDrawers, RowMemory};
use drawers::{Drawers, MakeDrawers, Written};
use shelf::Size;
use stamps::{CardNo, VersionNo};
use std::alloc::{AllocError, Global};

#[tactic(auto, unfolding(crate::specs::RowMeaning::row_meaning))]
impl Drawers for RowDrawers {
    ghost meaning = { row_meaning };

    ghost sound = { RowFacts.sound };

    fn size(&self) -> Size {
        self.size
    }

    // How many places the card has taken is its newest version's number.
    fn newest(&self, card: CardNo) -> VersionNo {
        VersionNo(self.used[card.0 as usize])
    }

    fn written(&self, card: CardNo, version: VersionNo) -> &Written {
        let drawer = card.0 as usize * self.size.places as usize;
        &self.places.written[drawer + (version.0 - 1) as usize]
    }

    fn free(&self, card: CardNo) -> u32 {
        self.size.places - self.used[card.0 as usize]
    }

    fn shares(&self, one: CardNo, other: CardNo) -> bool {
        one == other
    }

    fn add(&mut self, card: CardNo, written: Written) {
        let drawer = card.0 as usize * self.size.places as usize;
        let taken = self.used[card.0 as usize];
        self.places.write(drawer + taken as usize, written);
        self.used[card.0 as usize] = taken + 1;
    }
}

#[tactic(auto, unfolding(crate::specs::RowMeaning::row_meaning))]
impl MakeDrawers for RowDrawers {
    type Memory = RowMemory;

    const MOST_PLACES: u32 = 4095;

    ghost MOST_PLACES = { 4095 };

    ghost fits = { row_fits };

    ghost made = { row_made };

    ghost together = { each_own };

    ghost fits_within = { RowFacts.fits_within };

    ghost made_if_fits = { λ m size. refl };

    // This and the next five are alike in rows and pools: each is one line that names a function or a field of its own type, so one text for both would be a macro or a trait more.
    fn reserve(heap: Global, cards: u32, places: u32) -> Result<RowMemory, AllocError> {
        RowMemory::reserve(heap, cards, places)
    }

    fn no_memory(alloc: Global) -> RowMemory {
        RowMemory::empty(alloc)
    }

    fn fits(memory: &RowMemory, size: Size) -> bool {
        memory.fits(size)
    }

    fn empty(memory: RowMemory, size: Size) -> RowDrawers {
        RowDrawers::opened(memory, size)
    }

    fn none(memory: RowMemory) -> RowDrawers {
        RowDrawers::opened(memory, Size::NOTHING)
    }
}
