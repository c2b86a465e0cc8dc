// A shelf that stands on two others.
ghost use Rattle.std.specs.Prelude.{◌≡◌, ◌+◌, min};

use shelf::Shelf;

mod answers;

// How many cards a split shows at most.
const MOST_CARDS: u32 = 256;

// One of the two shelves of a split.
#[derive(Clone, Copy)]
pub enum Side {
    Left,
    Right,
}

/// The left shelf's cards, and then the right one's, up to 256 in all.
///
/// How many cards the left shelf has, how many the split shows and how wide it is are kept from its
/// making on, since no put changes them: in a pile of splits a question goes to one shelf after the
/// other, and at each of them asks no others.
#[derive(Drop)]
pub struct SplitShelf<L: Shelf, R: Shelf> {
    left: L,
    right: R,
    on_left: u32,
    cards: u32,
    width: u32,
    ghost told_on_left: { on_left ≡ (L.meaning left).cards },
    ghost told_cards: { cards ≡ min ((L.meaning left).cards + (R.meaning right).cards) 256 },
    ghost told_width: { width ≡ min (L.meaning left).width (R.meaning right).width },
}

impl<L: Shelf, R: Shelf> SplitShelf<L, R> {
    pub fn new(left: L, right: R) -> SplitShelf<L, R>
        ensures same_left { result.left ≡ left }
        ensures same_right { result.right ≡ right }
    {
        let on_left = left.cards();
        let cards = (on_left + right.cards()).min(MOST_CARDS);
        let width = left.width().min(right.width());
        SplitShelf {
            left,
            right,
            on_left,
            cards,
            width,
        }
    }
}
