// How drawers are made.
ghost use Rattle.std.specs.Prelude.{◌≡◌, ℕ, Bool, true, false, IfOk, cond};
ghost use Rattle.shelf.specs.declared.size.Size.{Size};
ghost use Rattle.shelf.specs.Meaning.{Meaning};
ghost use Rattle.drawers.specs.Fresh.{no_cards, fresh, size_fits};

use crate::giving::Drawers;
use shelf::Size;
use std::alloc::{AllocError, Global};

// How many cards a shelf has at most, and how many counts its stamps.
const ROOM: u32 = 256;

/// Drawers that are made from memory.
///
/// What a shelf asks of its drawers (`Drawers`) names no memory, so that a function may have a shelf
/// of some make in its signature without having to know what that make is made from.
pub trait MakeDrawers: Drawers {
    // What the drawers are made from.
    type Memory;

    // How many places a drawer has at most.
    const MOST_PLACES: u32;

    ghost MOST_PLACES: { ℕ };

    // Which sizes fit into a memory, and what is then made of it.
    ghost fits: { Self.Memory → Size → Bool };

    ghost made: { Self.Memory → Size → Meaning };

    // Which cards share a drawer.
    ghost together: { ℕ → ℕ → Bool };

    // Memory for this many cards and, in each drawer, this many places, or that it is wanting.
    fn reserve(heap: Global, cards: u32, places: u32) -> Result<Self::Memory, AllocError>
        ensures { IfOk result (λ m. (size : Size) → size.cards ≡ cards → size.places ≡ places → fits m size ≡ size_fits MOST_PLACES size) };

    /// Memory that no size fits into: none is asked for.
    fn no_memory(alloc: Global) -> Self::Memory
        ensures { (size : Size) → fits result size ≡ false };

    // Whether drawers of this size fit into the memory.
    fn fits(memory: &Self::Memory, size: Size) -> bool
        ensures { result ≡ fits memory.now size };

    // Drawers of this size with all places free.
    fn empty(memory: Self::Memory, size: Size) -> Self
        requires { fits memory size ≡ true }
        ensures { Self.meaning result ≡ fresh size together };

    // No drawers, for no cards.
    fn none(memory: Self::Memory) -> Self
        ensures { Self.meaning result ≡ no_cards };

    // What fits is within the limits.
    ghost fits_within: { (m : Self.Memory) (size : Size) → fits m size ≡ true → size_fits MOST_PLACES size ≡ true };

    ghost made_if_fits: { (m : Self.Memory) (size : Size) → made m size ≡ cond (fits m size) (fresh size together) no_cards };
}

// Whether a size has 1 to 256 cards, stamps of 1 to 256 counts, and from 1 place to the most.
pub fn is_within(size: Size, most_places: u32) -> bool
    ensures { result ≡ size_fits most_places size }
{
    let Size {
        cards,
        width,
        places,
    } = size;
    (1..=ROOM).contains(&cards)
        && (1..=ROOM).contains(&width)
        && (1..=most_places).contains(&places)
}
