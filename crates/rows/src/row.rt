// Drawers of which each card has one of its own.
ghost use Rattle.std.specs.Prelude.{ℕ, ◌*◌, ◌<◌, ◌≤◌, vec_len, slice_index};

use drawers::{PlacedShelf, Places};
use shelf::Size;

mod answers;
mod calls;

// A shelf with a drawer of its own for each card.
pub type RowShelf = PlacedShelf<RowDrawers>;

// The memory of a row shelf: an entry for each card, and the places of all drawers.
#[derive(Drop)]
pub struct RowMemory {
    pub used: Vec<u32>,
    pub places: Places,
}

// Card c's drawer begins at place c * size.places, and has one version after the other.
#[derive(Drop)]
pub struct RowDrawers {
    size: Size,
    // How many places of its drawer each card has taken.
    used: Vec<u32>,
    places: Places,
    ghost few: { size.cards ≤ 256 },
    ghost narrow: { size.width ≤ 256 },
    ghost shallow: { size.places ≤ 4095 },
    ghost listed: { size.cards ≤ vec_len used },
    ghost written: { size.cards * size.places ≤ vec_len places.written },
    ghost kept: { (c : ℕ) → c < size.cards → slice_index used.items c ≤ size.places },
}
