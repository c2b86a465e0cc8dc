// One table of steps over every make of shelf.
use crate::{
    MakeDrawers, PlacedShelf, PoolShelf, PutRefusal, RowShelf, Shelf, Size, SplitShelf,
    reserved_shelf,
};
use stamps::{CardNo, TxNo, Value, VersionNo};
use std::alloc::{AllocError, Global};
use std::process::Abort;
use std::test::Fail;

// A row or a pool of two cards, with three counts to a stamp.
fn made<D: MakeDrawers>(heap: Global, places: u32) -> Result<PlacedShelf<D>, AllocError> {
    let size = Size {
        cards: 2,
        width: 3,
        places,
    };
    Ok(reserved_shelf(heap, size)?.shelf)
}

fn row(heap: Global) -> Result<RowShelf, AllocError> {
    made(heap, 2)
}

fn pool(heap: Global) -> Result<PoolShelf, AllocError> {
    made(heap, 3)
}

// Puts the steps of the table for two cards of one part of the shelf, and asks for each version that was put.
fn steps<S: Shelf>(rt: &impl Abort, shelf: &mut S, [one, other]: [CardNo; 2]) {
    let table = [
        (one, 10, [1, 0, 0], None),
        (other, 20, [1, 1, 65536], Some(PutRefusal::BadStamp)),
        (other, 30, [1, 1, 65535], None),
        (one, 40, [2, 1, 0], None),
        (one, 50, [3, 1, 0], Some(PutRefusal::NoPlace)),
        (CardNo(9), 60, [0, 0, 0], Some(PutRefusal::NoCard)),
    ];
    for (card, first, counts, refusal) in table {
        let value = Value { first, second: 7 };
        let newest = shelf.newest(card);
        assert_eq!(rt; shelf.put(card, value, TxNo(5), &counts).err(), refusal);
        let Some(VersionNo(newest)) = newest else {
            continue;
        };
        let put = VersionNo(newest.saturating_add(1));
        match shelf.value(card, put) {
            Some(kept) => assert!(rt; refusal.is_none() && kept.first == first && kept.second == 7),
            None => assert!(rt; refusal.is_some()),
        }
        if refusal.is_none() {
            assert_eq!(rt; shelf.entry(card, put, CardNo(2)), Some(counts[2] as u16));
        }
    }
}

// The cards of the left shelf of a split, those of the next one, and those of the one behind both.
const LEFT: [CardNo; 2] = [CardNo(0), CardNo(1)];

const SECOND: [CardNo; 2] = [CardNo(2), CardNo(3)];

const THIRD: [CardNo; 2] = [CardNo(4), CardNo(5)];

#[test]
fn every_make(rt: HostRuntime) -> Result<(), Fail> {
    let heap = rt.alloc();
    steps(&rt, &mut row(heap)?, LEFT);
    steps(&rt, &mut pool(heap)?, LEFT);
    Ok(())
}

// What is put on one side leaves the other as it was.
#[test]
fn split_of_a_row_and_a_pool(rt: HostRuntime) -> Result<(), Fail> {
    let heap = rt.alloc();
    let mut shelf = SplitShelf::new(row(heap)?, pool(heap)?);
    steps(&rt, &mut shelf, LEFT);
    assert_eq!(rt; shelf.versions(CardNo(2)), Some(1));
    assert_eq!(rt; shelf.free(CardNo(2)), Some(3));
    steps(&rt, &mut shelf, SECOND);
    assert_eq!(rt; shelf.versions(CardNo(0)), Some(3));
    assert_eq!(rt; shelf.free(CardNo(2)), Some(0));
    Ok(())
}

// A split of a split: its fifth card is the first of the inner split's right side.
#[test]
fn split_of_a_split(rt: HostRuntime) -> Result<(), Fail> {
    let heap = rt.alloc();
    let inner = SplitShelf::new(row(heap)?, pool(heap)?);
    let mut shelf = SplitShelf::new(row(heap)?, inner);
    steps(&rt, &mut shelf, LEFT);
    steps(&rt, &mut shelf, SECOND);
    assert_eq!(rt; shelf.free(CardNo(5)), Some(3));
    assert_eq!(rt; shelf.shares(CardNo(4), CardNo(5)), Some(true));
    assert_eq!(rt; shelf.shares(CardNo(1), CardNo(5)), Some(false));
    steps(&rt, &mut shelf, THIRD);
    assert_eq!(rt; shelf.free(CardNo(5)), Some(0));
    Ok(())
}
