// Making the drawer of a pool shelf.
ghost use Rattle.std.specs.Prelude.{◌≡◌, ◌≤◌, IfOk, vec_len};
ghost use Rattle.drawers.specs.Fresh.{no_cards, fresh, all_one};
ghost use Rattle.pools.specs.PoolMeaning.{pool_meaning, pool_fits};

use crate::chain::{Chain, Link};
use crate::pool::{PoolDrawer, PoolMemory};
use drawers::{MakeDrawers, Places, is_within};
use shelf::Size;
use stamps::CardNo;
use std::alloc::{AllocError, Global};

// The link to version 0.
const FIRST: Link = Link {
    number: 0,
    place: 0,
};

impl PoolMemory {
    // Memory for this many cards and this many places, or that it is wanting.
    pub fn reserve(heap: Global, cards: u32, places: u32) -> Result<PoolMemory, AllocError>
        ensures { IfOk result (λ m. (vec_len m.newest ≡ cards) × (vec_len m.chains ≡ places) × (vec_len m.places.written ≡ places)) }
    {
        let newest = vec![in heap; FIRST; cards as usize]?;
        let unused = Chain {
            card: CardNo(0),
            older: FIRST,
            jump: FIRST,
        };
        let chains = vec![in heap; unused; places as usize]?;
        let places = Places::reserve(heap, places as usize)?;
        Ok(PoolMemory {
            newest,
            chains,
            places,
        })
    }

    /// Memory for no card: none is asked for.
    pub(crate) fn empty(alloc: Global) -> PoolMemory
        ensures { vec_len result.newest ≡ 0 }
    {
        PoolMemory {
            newest: Vec::new(alloc),
            chains: Vec::new(alloc),
            places: Places::empty(alloc),
        }
    }

    // Whether a pool of this size fits: 1 to 256 cards, stamps of 1 to 256 counts and 1 to 65,535 places.
    pub(crate) fn fits(&self, size: Size) -> bool
        ensures { result ≡ pool_fits self.now size }
    {
        is_within(size, PoolDrawer::MOST_PLACES)
            && self.newest.len() >= size.cards as usize
            && self.chains.len() >= size.places as usize
            && self.places.written.len() >= size.places as usize
    }
}

impl PoolDrawer {
    // A drawer of this size with all places free.
    pub(crate) fn opened(memory: PoolMemory, size: Size) -> PoolDrawer
        requires small { (size.cards ≤ 256) × (size.width ≤ 256) × (size.places ≤ 65535) }
        requires roomy { (size.cards ≤ vec_len memory.newest) × (size.places ≤ vec_len memory.chains) × (size.places ≤ vec_len memory.places.written) }
        ensures free { pool_meaning result ≡ fresh size all_one }
        ensures none { size.cards ≡ 0 → size.width ≡ 0 → pool_meaning result ≡ no_cards }
    {
        let PoolMemory {
            mut newest,
            chains,
            places,
        } = memory;
        newest.fill(FIRST);
        PoolDrawer {
            size,
            used: 0,
            newest,
            chains,
            places,
        }
    }
}
