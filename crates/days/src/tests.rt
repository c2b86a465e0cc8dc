use crate::script::{EVENING, MORNING, OPENS};
use catalogue::BooksMemory;
use lists::ListShelf;
use sessions::{Answer, Command, SessionMemory, run};
use shelf::Shelf;
use shelves::{
    MakeDrawers, PlacedShelf, PoolDrawer, PoolShelf, RowDrawers, RowShelf, Size, SplitShelf,
    reserved_shelf,
};
use stamps::{CardNo, Stamp};
use std::alloc::{AllocError, Global};
use std::test::Fail;
use transactions::{Event, Refusal};

// What the tests look at in an answer.
#[derive(Clone, Copy, PartialEq, Eq, Debug)]
enum Told {
    Done,
    Number(u32),
    Version(u32, u64),
    Refused(u32),
    Counts(u16, u16, u16),
    Lines(usize),
    Other,
}

fn granted(answer: Result<(), Refusal>) -> Told {
    match answer {
        Ok(()) => Told::Done,
        Err(refusal) => Told::Refused(refusal.number()),
    }
}

fn of_call(event: Event) -> Told {
    match event {
        Event::Open(Ok(number)) => Told::Number(number.0),
        Event::Open(Err(refusal)) => Told::Refused(refusal.number()),
        Event::Read(_, _, Ok(reading)) => Told::Version(reading.version.0, reading.value.first),
        Event::Read(_, _, Err(refusal)) => Told::Refused(refusal.number()),
        Event::Draft(_, _, _, answer) => granted(answer),
        Event::Commit(_, answer) => granted(answer),
        Event::Abandon(_, answer) => granted(answer),
        Event::Close => Told::Done,
    }
}

fn of_stamp(stamp: Option<Stamp>) -> Told {
    match stamp {
        Some(s) => Told::Counts(s.entry(CardNo(0)), s.entry(CardNo(1)), s.entry(CardNo(2))),
        None => Told::Other,
    }
}

fn seen_in(answer: &Answer) -> Told {
    match answer {
        Answer::SetUp(answer) => granted(*answer),
        Answer::Call(event) => of_call(*event),
        Answer::Stamp(_, _, stamp) => of_stamp(*stamp),
        Answer::Journal(lines) => Told::Lines(lines.len()),
        _ => Told::Other,
    }
}

const EXPECTED: [Told; 41] = [
    Told::Done,
    Told::Number(1),
    Told::Number(2),
    Told::Number(3),
    Told::Number(4),
    Told::Number(5),
    Told::Number(6),
    Told::Number(7),
    Told::Version(0, 0),
    Told::Version(0, 0),
    Told::Done,
    Told::Done,
    Told::Version(1, 1),
    Told::Version(0, 0),
    Told::Done,
    Told::Done,
    Told::Version(0, 0),
    Told::Version(1, 2),
    Told::Version(1, 1),
    Told::Done,
    Told::Refused(12),
    Told::Counts(1, 0, 0),
    Told::Counts(1, 1, 0),
    Told::Version(1, 1),
    Told::Version(1, 2),
    Told::Done,
    Told::Done,
    Told::Done,
    Told::Version(2, 2),
    Told::Version(2, 1),
    Told::Version(2, 2),
    Told::Version(2, 1),
    Told::Done,
    Told::Done,
    Told::Done,
    Told::Done,
    Told::Counts(2, 2, 0),
    Told::Counts(2, 2, 0),
    Told::Counts(3, 2, 0),
    Told::Counts(2, 3, 0),
    Told::Lines(20),
];

fn whole_day(heap: Global) -> Result<Vec<Command>, AllocError> {
    let mut script = Vec::new(heap);
    script.extend_from_slice(&OPENS)?;
    script.extend_from_slice(&MORNING)?;
    script.extend_from_slice(&EVENING)?;
    Ok(script)
}

// The day goes as expected, and as many answers come as there are commands.
fn goes<S: Shelf>(heap: Global, shelf: &mut S) -> Result<bool, AllocError> {
    let books = BooksMemory::reserve(heap, 16, 3, 100)?;
    let script = whole_day(heap)?;
    let answers = run(SessionMemory::reserve(heap, books, &script)?, shelf);
    let mut right = answers.len() == EXPECTED.len();
    for (answer, expected) in answers.iter().zip(EXPECTED.iter()) {
        right = right && seen_in(answer) == *expected;
    }
    Ok(right)
}

// A shelf of so many cards, with these places in each drawer and three counts in a stamp.
fn placed<D: MakeDrawers>(
    heap: Global,
    cards: u32,
    places: u32,
) -> Result<PlacedShelf<D>, AllocError> {
    let size = Size {
        cards,
        width: 3,
        places,
    };
    Ok(reserved_shelf(heap, size)?.shelf)
}

fn row(heap: Global, cards: u32) -> Result<RowShelf, AllocError> {
    placed::<RowDrawers>(heap, cards, 4)
}

fn pool(heap: Global, cards: u32) -> Result<PoolShelf, AllocError> {
    placed::<PoolDrawer>(heap, cards, 9)
}

// Lists for so many cards, with these places for each and three counts in a stamp.
fn lists(heap: Global, cards: u32) -> Result<ListShelf, AllocError> {
    let size = Size {
        cards,
        width: 3,
        places: 4,
    };
    ListShelf::reserve(heap, size)
}

#[test]
fn on_every_make(rt: HostRuntime) -> Result<(), Fail> {
    let heap = rt.alloc();
    assert!(rt; goes(heap, &mut row(heap, 3)?)?, "a row");
    assert!(rt; goes(heap, &mut pool(heap, 3)?)?, "a pool");
    let mut split = SplitShelf::new(row(heap, 1)?, pool(heap, 2)?);
    assert!(rt; goes(heap, &mut split)?, "a split");
    let mut nested = SplitShelf::new(
        SplitShelf::new(row(heap, 1)?, pool(heap, 1)?),
        row(heap, 1)?,
    );
    assert!(rt; goes(heap, &mut nested)?, "a split of a split");
    assert!(rt; goes(heap, &mut lists(heap, 3)?)?, "lists");
    let mut lent = row(heap, 1)?;
    let mut on_lent = SplitShelf::new(&mut lent, lists(heap, 2)?);
    assert!(rt;
        goes(heap, &mut on_lent)?,
        "a split on a lent row and lists"
    );
    Ok(())
}
