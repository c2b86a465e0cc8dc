// How large a row or a pool is made.

#[derive(Clone, Copy, PartialEq, Eq, Debug)]
pub struct Size {
    pub cards: u32,
    // How many counts a stamp has.
    pub width: u32,
    // How many places each drawer has.
    pub places: u32,
}

impl Size {
    // The size of a shelf of no cards.
    pub const NOTHING: Size = Size {
        cards: 0,
        width: 0,
        places: 0,
    };
}
