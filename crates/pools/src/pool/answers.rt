// What the drawer of a pool shelf answers, how it takes a version, and how it is made.
ghost use Rattle.std.specs.Prelude.{refl};
ghost use Rattle.drawers.specs.Fresh.{all_one};
ghost use Rattle.pools.specs.PoolMeaning.{pool_meaning, pool_fits, pool_made};
ghost use Rattle.pools.specs.PoolFacts;

use crate::pool::{PoolDrawer, PoolMemory};
use drawers::{Drawers, MakeDrawers, Written};
use shelf::Size;
use stamps::{CardNo, VersionNo};
use std::alloc::{AllocError, Global};

#[tactic(auto, unfolding(crate::specs::PoolMeaning::pool_meaning))]
impl Drawers for PoolDrawer {
    ghost meaning = { pool_meaning };

    ghost sound = { PoolFacts.sound };

    fn size(&self) -> Size {
        self.size
    }

    fn newest(&self, card: CardNo) -> VersionNo {
        VersionNo(self.newest[card.0 as usize].number)
    }

    fn written(&self, card: CardNo, version: VersionNo) -> &Written {
        let place = self.link(card, version).place;
        &self.places.written[place as usize]
    }

    fn free(&self, _card: CardNo) -> u32 {
        self.size.places - self.used
    }

    fn shares(&self, _one: CardNo, _other: CardNo) -> bool {
        true
    }

    fn add(&mut self, card: CardNo, written: Written) {
        self.append(card, written);
    }
}

#[tactic(auto, unfolding(crate::specs::PoolMeaning::pool_meaning))]
impl MakeDrawers for PoolDrawer {
    type Memory = PoolMemory;

    const MOST_PLACES: u32 = 65535;

    ghost MOST_PLACES = { 65535 };

    ghost fits = { pool_fits };

    ghost made = { pool_made };

    ghost together = { all_one };

    ghost fits_within = { PoolFacts.fits_within };

    ghost made_if_fits = { λ m size. refl };

    // This and the next five are alike in rows and pools: each is one line that names a function or a field of its own type, so one text for both would be a macro or a trait more.
    fn reserve(heap: Global, cards: u32, places: u32) -> Result<PoolMemory, AllocError> {
        PoolMemory::reserve(heap, cards, places)
    }

    fn no_memory(alloc: Global) -> PoolMemory {
        PoolMemory::empty(alloc)
    }

    fn fits(memory: &PoolMemory, size: Size) -> bool {
        memory.fits(size)
    }

    fn empty(memory: PoolMemory, size: Size) -> PoolDrawer {
        PoolDrawer::opened(memory, size)
    }

    fn none(memory: PoolMemory) -> PoolDrawer {
        PoolDrawer::opened(memory, Size::NOTHING)
    }
}
