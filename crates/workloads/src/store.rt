// Work on shelves: versions are put, then questions are asked, as a small generator says.
ghost use Rattle.std.specs.Prelude.{◌<◌};

use super::dice::Dice;
use super::makes::{Work, on_drawers, on_pile, on_split};
use shelves::{PoolDrawer, RowDrawers, Shelf, Size};
use stamps::{CardNo, TxNo, Value, VersionNo};
use std::alloc::{AllocError, Global};

// How large a shelf is made, and what is done with it.
#[repr(C)]
pub struct ShelfWork {
    pub cards: u32,
    pub width: u32,
    pub places: u32,
    // How many versions are put.
    pub puts: u32,
    // How many rounds of questions are asked then.
    pub asks: u32,
}

// Puts the versions, and answers how many were taken.
fn put_all<S: Shelf>(shelf: &mut S, work: &ShelfWork) -> u64 {
    if work.cards == 0 {
        return 0;
    }
    let mut counts = [0; 256];
    let mut dice = Dice::new(1);
    let mut taken = 0u64;
    for i in 0..work.puts {
        let card = dice.below(work.cards);
        counts[card as usize % 256] = i % 65_536;
        let value = Value {
            first: u64::from(i),
            second: dice.state(),
        };
        let counts = counts.get(..work.width as usize).unwrap_or(&counts);
        if shelf.put(CardNo(card), value, TxNo(i), counts).is_ok() {
            taken = taken.wrapping_add(1);
        }
    }
    taken
}

// One round of questions about one version: the card's newest, the version's words, writer and one count of its stamp.
fn ask<S: Shelf>(shelf: &S, card: CardNo, state: u64) -> Option<u64> {
    let newest = shelf.newest(card)?;
    let version = VersionNo(((state >> 8) % (u64::from(newest.0) + 1)) as u32);
    let value = shelf.value(card, version)?;
    let writer = shelf.writer(card, version)?;
    let count = shelf.entry(card, version, card)?;
    Some(
        value
            .first
            .wrapping_add(value.second)
            .wrapping_add(u64::from(writer.0))
            .wrapping_add(u64::from(count)),
    )
}

// Asks the questions, and answers a checksum of the answers.
fn ask_all<S: Shelf>(shelf: &S, work: &ShelfWork) -> u64 {
    if work.cards == 0 {
        return 0;
    }
    let mut dice = Dice::new(2);
    let mut sum = 0u64;
    for _ in 0..work.asks {
        let card = CardNo(dice.below(work.cards));
        let answer = ask(shelf, card, dice.state()).unwrap_or(7);
        sum = sum.wrapping_mul(31).wrapping_add(answer);
    }
    sum
}

impl Work for ShelfWork {
    fn size(&self) -> Size {
        Size {
            cards: self.cards,
            width: self.width,
            places: self.places,
        }
    }

    fn work_on<S: Shelf>(&self, _heap: Global, shelf: &mut S) -> Result<u64, AllocError> {
        Ok(put_all(shelf, self).wrapping_add(ask_all(shelf, self)))
    }
}

// Work on a row, a pool, a split of two pools and a pile of eight splits: its checksum, 0 where memory is wanting, since C takes no option.
#[unsafe(no_mangle)]
pub extern "C" fn workload_row(heap: Global, work: &ShelfWork) -> u64 {
    on_drawers::<RowDrawers, _>(heap, work).unwrap_or(0)
}

#[unsafe(no_mangle)]
pub extern "C" fn workload_pool(heap: Global, work: &ShelfWork) -> u64 {
    on_drawers::<PoolDrawer, _>(heap, work).unwrap_or(0)
}

#[unsafe(no_mangle)]
pub extern "C" fn workload_split(heap: Global, work: &ShelfWork) -> u64 {
    on_split(heap, work).unwrap_or(0)
}

#[unsafe(no_mangle)]
pub extern "C" fn workload_pile(heap: Global, work: &ShelfWork) -> u64 {
    on_pile(heap, work).unwrap_or(0)
}
