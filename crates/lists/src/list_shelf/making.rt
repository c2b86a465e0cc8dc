// How a shelf of lists is made.
ghost use Rattle.std.specs.Prelude.{◌≡◌, ℕ, IfOk, min};
ghost use Rattle.lists.specs.Lists.{IsNew, new_lists};
ghost use Rattle.lists.specs.ListMeaning.{list_meaning};

use crate::list_shelf::{Kept, ListShelf};
use shelf::Size;
use stamps::{Stamp, TxNo, Value};
use std::alloc::{AllocError, Global};

// How many cards a shelf has at most, and how many counts its stamps.
const ROOM: u32 = 256;

// How many versions can be put of a card at most.
const MOST_PLACES: u32 = 65_535;

// The list of a card with version 0 alone, with room for as many more as there are places.
fn new_list(heap: Global, places: u32) -> Result<Vec<Kept>, AllocError>
    ensures { IfOk result (λ list. IsNew places list) }
{
    let mut list = Vec::with_capacity(heap, places as usize + 1)?;
    list.push_reserved(Kept {
        value: Value::BLANK,
        writer: TxNo(0),
        stamp: Stamp::zero(),
    });
    Ok(list)
}

impl ListShelf {
    /// A shelf of this size, with version 0 of each card. Where a number of the size is larger than
    /// a shelf may have, it has the largest. The error is that there is not enough memory.
    pub fn reserve(heap: Global, size: Size) -> Result<ListShelf, AllocError>
        ensures { IfOk result (λ s. list_meaning s ≡
            new_lists (min size.cards 256) (min size.width 256) (min size.places 65535)) }
    {
        let cards = size.cards.min(ROOM);
        let places = size.places.min(MOST_PLACES);
        let mut lists = Vec::with_capacity(heap, cards as usize)?;
        for _ in 0..cards {
            lists.push_reserved(new_list(heap, places)?);
        }
        Ok(ListShelf {
            lists,
            width: size.width.min(ROOM),
            places,
        })
    }
}
