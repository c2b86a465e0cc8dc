// Making the drawers of a row shelf.
ghost use Rattle.std.specs.Prelude.{◌≡◌, ◌*◌, ◌≤◌, IfOk, vec_len};
ghost use Rattle.drawers.specs.Fresh.{no_cards, fresh, each_own};
ghost use Rattle.rows.specs.RowMeaning.{row_meaning, row_fits};

use crate::row::{RowDrawers, RowMemory};
use drawers::{MakeDrawers, Places, is_within};
use shelf::Size;
use std::alloc::{AllocError, Global};

impl RowMemory {
    // Memory for this many cards, each with this many places, or that it is wanting.
    pub fn reserve(heap: Global, cards: u32, places: u32) -> Result<RowMemory, AllocError>
        ensures { IfOk result (λ m. (vec_len m.used ≡ cards) × (vec_len m.places.written ≡ cards * places)) }
    {
        let used = vec![in heap; 0; cards as usize]?;
        let places = Places::reserve(heap, cards as usize * places as usize)?;
        Ok(RowMemory { used, places })
    }

    /// Memory for no card: none is asked for.
    pub(crate) fn empty(alloc: Global) -> RowMemory
        ensures { vec_len result.used ≡ 0 }
    {
        RowMemory {
            used: Vec::new(alloc),
            places: Places::empty(alloc),
        }
    }

    // Whether drawers of this size fit: 1 to 256 cards, stamps of 1 to 256 counts and drawers of 1 to 4,095 places.
    pub(crate) fn fits(&self, size: Size) -> bool
        ensures { result ≡ row_fits self.now size }
    {
        is_within(size, RowDrawers::MOST_PLACES)
            && self.used.len() >= size.cards as usize
            && self.places.written.len() >= size.cards as usize * size.places as usize
    }
}

impl RowDrawers {
    // Drawers of this size with all places free.
    pub(crate) fn opened(memory: RowMemory, size: Size) -> RowDrawers
        requires small { (size.cards ≤ 256) × (size.width ≤ 256) × (size.places ≤ 4095) }
        requires roomy { (size.cards ≤ vec_len memory.used) × (size.cards * size.places ≤ vec_len memory.places.written) }
        ensures free { row_meaning result ≡ fresh size each_own }
        ensures none { size.cards ≡ 0 → size.width ≡ 0 → row_meaning result ≡ no_cards }
    {
        let RowMemory { mut used, places } = memory;
        used.fill(0);
        RowDrawers { size, used, places }
    }
}
