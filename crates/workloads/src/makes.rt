// Work on every make of shelf.

use shelf::Shelf;
use shelves::{MakeDrawers, PoolDrawer, PoolShelf, Size, SplitShelf, reserved_shelf};
use std::alloc::{AllocError, Global};

// A piece of work, done on a shelf of the size that it asks for.
pub(crate) trait Work {
    fn size(&self) -> Size;

    // Does the work, and answers its checksum.
    fn work_on<S: Shelf>(&self, heap: Global, shelf: &mut S) -> Result<u64, AllocError>;
}

// On a shelf over drawers.
pub(crate) fn on_drawers<D: MakeDrawers + Drop, W: Work>(
    heap: Global,
    work: &W,
) -> Result<u64, AllocError> {
    let mut shelf = reserved_shelf::<D>(heap, work.size())?.shelf;
    work.work_on(heap, &mut shelf)
}

// A split of two pools, each with half of the cards and half of the places.
pub(crate) fn on_split<W: Work>(heap: Global, work: &W) -> Result<u64, AllocError> {
    let size = work.size();
    let half = Size {
        cards: size.cards / 2,
        width: size.width,
        places: size.places / 2,
    };
    let left = reserved_shelf::<PoolDrawer>(heap, half)?.shelf;
    let right = reserved_shelf::<PoolDrawer>(heap, half)?.shelf;
    work.work_on(heap, &mut SplitShelf::new(left, right))
}

// A pile of eight splits on nine pools, each with a ninth of the cards and of the places.
pub(crate) fn on_pile<W: Work>(heap: Global, work: &W) -> Result<u64, AllocError> {
    let size = work.size();
    let ninth = Size {
        cards: size.cards / 9,
        width: size.width,
        places: size.places / 9,
    };
    let one = reserved_shelf::<PoolDrawer>(heap, ninth)?.shelf;
    let two = on_top(heap, ninth, one)?;
    let four = on_top(heap, ninth, on_top(heap, ninth, two)?)?;
    let six = on_top(heap, ninth, on_top(heap, ninth, four)?)?;
    let eight = on_top(heap, ninth, on_top(heap, ninth, six)?)?;
    work.work_on(heap, &mut on_top(heap, ninth, eight)?)
}

// A split of a new pool and a pile.
fn on_top<S: Shelf + Drop>(
    heap: Global,
    size: Size,
    pile: S,
) -> Result<SplitShelf<PoolShelf, S>, AllocError> {
    Ok(SplitShelf::new(reserved_shelf(heap, size)?.shelf, pile))
}
