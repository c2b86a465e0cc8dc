// Why a call of the catalogue is refused.
ghost use Rattle.std.specs.Prelude.{◌≡◌};
ghost use Rattle.transactions.specs.Refusals.{refusal_number};

#[derive(Clone, Copy, PartialEq, Eq, Debug)]
pub enum Refusal {
    // The shelf has no cards.
    NoCards = 2,
    // The shelf's stamps are narrower than its cards are many.
    Narrow = 3,
    // A card has a version above 0.
    NotFresh = 4,
    // A book is too short.
    ShortBooks = 5,
    // The slip's number is not open in these books.
    NotOpen = 6,
    // There was no such card at set-up.
    NoCard = 7,
    // All open places are taken.
    AllOpen = 8,
    // The last number has been given.
    NumbersOut = 9,
    // The card to draft was not read.
    Unread = 10,
    // The transaction has drafted as many cards as it may.
    DraftsOut = 11,
    // A drafted card has a newer version than the one read.
    Conflict = 12,
    // The drafts in one drawer outnumber its free places.
    NoPlace = 13,
    // The journal lacks lines for the block.
    JournalFull = 14,
    // The shelf is not the one that was set up with these books.
    OtherShelf = 15,
}

impl Refusal {
    // The number under which the refusal is listed.
    pub fn number(self) -> u32
        ensures { result ≡ refusal_number self }
    {
        self as u32
    }
}
