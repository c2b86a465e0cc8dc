// Why shelves refuse.
ghost use Rattle.std.specs.Prelude.{◌≡◌};
ghost use Rattle.shelf.specs.Refusals.{cause_number, check_number};

// Why a version is not put, in the order in which the causes are tested.
#[derive(Clone, Copy, PartialEq, Eq, Debug)]
pub enum PutRefusal {
    // The shelf has no such card.
    NoCard = 1,
    // The list of counts is longer than the shelf's width, or has a count above 65,535.
    BadStamp = 2,
    // The card's drawer has no free place.
    NoPlace = 3,
}

// Why a shelf is not made.
#[derive(Clone, Copy, PartialEq, Eq, Debug)]
pub enum CheckRefusal {
    // The cards, the width, the places or the memory do not fit.
    NoFit = 1,
}

impl PutRefusal {
    pub fn number(self) -> u32
        ensures { result ≡ cause_number self }
    {
        self as u32
    }
}

impl CheckRefusal {
    pub fn number(self) -> u32
        ensures { result ≡ check_number self }
    {
        self as u32
    }
}
