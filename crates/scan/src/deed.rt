// What one record tells.
ghost use Rattle.std.specs.Prelude.{◌≡◌};
ghost use Rattle.scan.specs.Scanning.{deed_card, deed_kind};

use records::Kind;
use stamps::CardNo;

// What is asked of the records before a line, an enum so that each of the six places that ask names its question: whether a transaction
#[derive(Clone, Copy)]
pub(crate) enum Deed {
    // has ended,
    Ended,
    // has read a card,
    Read(CardNo),
    // or has written a card.
    Written(CardNo),
}

impl Deed {
    // The card of a record that tells it.
    pub(crate) fn card(self) -> CardNo
        ensures { result.0 ≡ deed_card self }
    {
        match self {
            Deed::Ended => CardNo(0),
            Deed::Read(card) | Deed::Written(card) => card,
        }
    }

    // Whether a record of this kind tells it, if it is of the right transaction and card.
    pub(crate) fn is_of(self, kind: Kind) -> bool
        ensures { result ≡ deed_kind self kind }
    {
        match self {
            Deed::Ended => matches!(kind, Kind::Done | Kind::Gone),
            Deed::Read(_) => kind == Kind::Read,
            Deed::Written(_) => kind == Kind::Writ,
        }
    }
}
