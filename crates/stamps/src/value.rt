ghost use Rattle.std.specs.Prelude.{◌≡◌};
ghost use Rattle.stamps.specs.Blank.{blank};

// What a card's version holds.
#[derive(Clone, Copy, PartialEq, Eq, Debug)]
pub struct Value {
    pub first: u64,
    pub second: u64,
}

impl Value {
    /// What version 0 of every card holds: the words of the definition `blank`.
    pub const BLANK: Value = Value {
        first: 0,
        second: 0,
    };
}

// The value of a card that nobody wrote.
impl Default for Value {
    fn default() -> Value
        ensures { result ≡ blank }
    {
        Value::BLANK
    }
}
