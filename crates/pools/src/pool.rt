// One drawer for all cards of a shelf.
ghost use Rattle.std.specs.Prelude.{◌≡◌, ℕ, ◌<◌, ◌≤◌, true, vec_len};
ghost use Rattle.pools.specs.Chains.{known, newest_known};

use crate::chain::{Chain, Link};
use drawers::{PlacedShelf, Places};
use shelf::Size;

mod answers;
mod calls;
mod links;

// A shelf with one drawer for all its cards.
pub type PoolShelf = PlacedShelf<PoolDrawer>;

// The memory of a pool shelf: an entry for each card, and the places of its one drawer.
#[derive(Drop)]
pub struct PoolMemory {
    pub newest: Vec<Link>,
    pub chains: Vec<Chain>,
    pub places: Places,
}

// A version is put into the next place, whatever its card. Links lead from each to the older ones of its card.
#[derive(Drop)]
pub struct PoolDrawer {
    size: Size,
    // How many places are taken.
    used: u32,
    newest: Vec<Link>,
    // Beside the places and not in them: with a stamp between two links, following them takes three times as long.
    chains: Vec<Chain>,
    places: Places,
    ghost few: { size.cards ≤ 256 },
    ghost narrow: { size.width ≤ 256 },
    ghost sized: { size.places ≤ 65535 },
    ghost filled: { used ≤ size.places },
    ghost listed: { size.cards ≤ vec_len newest },
    ghost chained: { size.places ≤ vec_len chains },
    ghost written: { size.places ≤ vec_len places.written },
    ghost linked: { (q : ℕ) → q < used → known chains.items q ≡ true },
    ghost current: { (c : ℕ) → c < size.cards → newest_known chains.items used newest.items c ≡ true },
}
