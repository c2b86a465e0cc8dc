use records::Line;
use stamps::{CardNo, Stamp, VersionNo};
use transactions::{Event, Refusal};

/// What a session answers to a command.
#[derive(Drop)]
pub enum Answer {
    SetUp(Result<(), Refusal>),
    /// A call, with what it answered.
    Call(Event),
    /// The session holds no slip of the transaction that is named.
    NoSlip,
    Versions(CardNo, Option<u32>),
    Stamp(CardNo, VersionNo, Option<Stamp>),
    Journal(Vec<Line>),
}
