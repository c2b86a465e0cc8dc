use stamps::{CardNo, TxNo, Value, VersionNo};

// What a script can ask for: the editors' calls, each by the number of its transaction, and questions.
#[derive(Clone, Copy)]
pub enum Command {
    SetUp,
    Open,
    Read(TxNo, CardNo),
    Draft(TxNo, CardNo, Value),
    Commit(TxNo),
    Abandon(TxNo),
    Close,
    // How many versions a card has.
    Versions(CardNo),
    // The stamp of a version.
    Stamp(CardNo, VersionNo),
    // The lines of the journal.
    Journal,
}
