// Work on a catalogue: the shelf is filled by transactions, then one kind of editors' work is done, as a small generator says.

use super::cards::Cards;
use super::desk::Desk;
use super::dice::Dice;
use super::long_reader::LongReader;
use super::makes::{Work, on_drawers, on_pile, on_split};
use books::Slip;
use catalogue::{BooksMemory, Catalogue};
use shelf::Shelf;
use shelves::{PoolDrawer, RowDrawers, Size};
use stamps::{CardNo, Value};
use std::alloc::{AllocError, Global};

// How many transactions can be open.
const PLACES: usize = 16;

// How large the shelf is, and what is done on it.
#[repr(C)]
pub struct EditingWork {
    pub cards: u32,
    pub places: u32,
    // Versions of each card before the work begins.
    pub depth: u32,
    pub transactions: u32,
    // How many transactions are open at a time, where the work has many.
    pub open: u32,
    // The number of a kind, since the program in plain Rust hands it over.
    pub kind: u32,
}

// What the editors do.
#[derive(Clone, Copy)]
enum Kind {
    // Each transaction reads four cards.
    Reads,
    // Each reads two cards and drafts both.
    Drafts,
    // Many are open at a time, each reading two of four hot cards and drafting one of them.
    Hot,
    // One reads a card now and then, while others commit.
    LongReader,
}

impl From<u32> for Kind {
    fn from(number: u32) -> Kind {
        match number {
            0 => Kind::Reads,
            1 => Kind::Drafts,
            2 => Kind::Hot,
            _ => Kind::LongReader,
        }
    }
}

// What is drafted.
fn words(i: u32, mark: u64) -> Value {
    Value {
        first: u64::from(i),
        second: mark,
    }
}

fn fill<S: Shelf>(desk: &mut Desk<'_, S>, depth: u32) {
    let count = desk.cards.count();
    for i in 0..depth.wrapping_mul(count) {
        let card = [i % count];
        desk.transact(&card, &card, words(i, 4));
    }
}

fn reads<S: Shelf>(desk: &mut Desk<'_, S>, transactions: u32) {
    let mut dice = Dice::new(3);
    for _ in 0..transactions {
        let read = [
            desk.cards.one(&mut dice),
            desk.cards.one(&mut dice),
            desk.cards.one(&mut dice),
            desk.cards.one(&mut dice),
        ];
        desk.transact(&read, &[], words(0, 0));
    }
}

fn drafts<S: Shelf>(desk: &mut Desk<'_, S>, transactions: u32) {
    let mut dice = Dice::new(4);
    for i in 0..transactions {
        let pair = desk.cards.pair(&mut dice);
        desk.transact(&pair, &pair, words(i, 1));
    }
}

// Reads two cards and drafts the first of them.
fn begin<S: Shelf>(desk: &mut Desk<'_, S>, slip: &Slip, cards: [u32; 2], value: Value) {
    for card in cards {
        desk.read(slip, card);
    }
    let _ = desk.catalogue.draft(slip, CardNo(cards[0]), value);
}

fn hot<S: Shelf>(heap: Global, desk: &mut Desk<'_, S>, work: &EditingWork) {
    let mut dice = Dice::new(5);
    let hot = desk.cards.hot();
    let mut slips = Vec::new(heap);
    for i in 0..work.transactions {
        if slips.reserve(1).is_err() {
            break;
        }
        if let Ok(slip) = desk.catalogue.open() {
            begin(desk, &slip, hot.pair(&mut dice), words(i, 2));
            slips.push_reserved(slip);
        }
        if !slips.is_empty() && slips.len() >= work.open as usize {
            let place = dice.below(slips.len().min(PLACES) as u32) as usize;
            desk.commit(slips.swap_remove(place));
        }
    }
    desk.catalogue.close();
    while let Some(slip) = slips.pop() {
        let _ = desk.catalogue.abandon(slip);
    }
    slips.destroy_empty();
}

fn long_reader<S: Shelf>(desk: &mut Desk<'_, S>, transactions: u32) {
    let mut dice = Dice::new(6);
    let mut reader = LongReader::begin(desk);
    for i in 0..transactions {
        let pair = desk.cards.pair(&mut dice);
        desk.transact(&pair, &pair, words(i, 3));
        if i % 16 == 0 {
            reader = reader.read_on(desk);
        }
    }
    desk.catalogue.close();
    reader.end(desk);
}

impl Work for EditingWork {
    // A stamp has a count for each card of the work.
    fn size(&self) -> Size {
        Size {
            cards: self.cards,
            width: self.cards,
            places: self.places,
        }
    }

    fn work_on<S: Shelf>(&self, heap: Global, shelf: &mut S) -> Result<u64, AllocError> {
        let lines = u64::from(self.transactions) * 5
            + u64::from(self.depth.wrapping_mul(self.cards)) * 3
            + 100;
        let memory = BooksMemory::reserve(heap, PLACES, self.cards, lines as usize)?;
        let mut catalogue = Catalogue::new(memory);
        let Some(cards) = Cards::of(self.cards) else {
            return Ok(0);
        };
        if catalogue.set_up(&*shelf).is_err() {
            return Ok(0);
        }
        let mut desk = Desk {
            catalogue,
            shelf,
            cards,
            sum: 0,
        };
        fill(&mut desk, self.depth);
        match Kind::from(self.kind) {
            Kind::Reads => reads(&mut desk, self.transactions),
            Kind::Drafts => drafts(&mut desk, self.transactions),
            Kind::Hot => hot(heap, &mut desk, self),
            Kind::LongReader => long_reader(&mut desk, self.transactions),
        }
        Ok(desk.sum)
    }
}

// Work on a row, a pool, a split of two pools and a pile of eight splits: its checksum, 0 where memory is wanting, since C takes no option.
#[unsafe(no_mangle)]
pub extern "C" fn workload_editing_row(heap: Global, work: &EditingWork) -> u64 {
    on_drawers::<RowDrawers, _>(heap, work).unwrap_or(0)
}

#[unsafe(no_mangle)]
pub extern "C" fn workload_editing_pool(heap: Global, work: &EditingWork) -> u64 {
    on_drawers::<PoolDrawer, _>(heap, work).unwrap_or(0)
}

#[unsafe(no_mangle)]
pub extern "C" fn workload_editing_split(heap: Global, work: &EditingWork) -> u64 {
    on_split(heap, work).unwrap_or(0)
}

#[unsafe(no_mangle)]
pub extern "C" fn workload_editing_pile(heap: Global, work: &EditingWork) -> u64 {
    on_pile(heap, work).unwrap_or(0)
}
