ghost use Rattle.std.specs.Prelude.{◌≡◌};
ghost use Rattle.records.specs.Format.{letters as the-letters};

// What a record tells.
#[derive(Clone, Copy, PartialEq, Eq, Debug)]
pub enum Kind {
    // The transaction read a version of the card.
    Read,
    // The transaction wrote the card's next version.
    Writ,
    // The transaction committed.
    Done,
    // The transaction aborted.
    Gone,
}

impl Kind {
    // The letters that a record of this kind begins with.
    pub fn letters(self) -> [u8; 4]
        ensures { result ≡ the-letters self }
    {
        match self {
            Kind::Read => *b"READ",
            Kind::Writ => *b"WRIT",
            Kind::Done => *b"DONE",
            Kind::Gone => *b"GONE",
        }
    }
}
