// The day: seven transactions, all opened at the start, on three cards.
use sessions::Command;
use stamps::{CardNo, TxNo, Value, VersionNo};

const ONE: Value = Value {
    first: 1,
    second: 7,
};

const TWO: Value = Value {
    first: 2,
    second: 7,
};

pub(crate) const OPENS: [Command; 8] = [
    Command::SetUp,
    Command::Open,
    Command::Open,
    Command::Open,
    Command::Open,
    Command::Open,
    Command::Open,
    Command::Open,
];

// 3 reads card 0 before 1 commits, and so is late with its own draft; 2 reads what 1 wrote.
pub(crate) const MORNING: [Command; 15] = [
    Command::Read(TxNo(3), CardNo(0)),
    Command::Read(TxNo(1), CardNo(0)),
    Command::Draft(TxNo(1), CardNo(0), ONE),
    Command::Commit(TxNo(1)),
    Command::Read(TxNo(2), CardNo(0)),
    Command::Read(TxNo(2), CardNo(1)),
    Command::Draft(TxNo(2), CardNo(1), TWO),
    Command::Commit(TxNo(2)),
    Command::Read(TxNo(3), CardNo(1)),
    Command::Read(TxNo(4), CardNo(1)),
    Command::Read(TxNo(4), CardNo(0)),
    Command::Draft(TxNo(3), CardNo(0), TWO),
    Command::Commit(TxNo(3)),
    Command::Stamp(CardNo(0), VersionNo(1)),
    Command::Stamp(CardNo(1), VersionNo(1)),
];

// 5 drafts both cards; 6 and 7 read both, and each drafts one of them.
pub(crate) const EVENING: [Command; 18] = [
    Command::Read(TxNo(5), CardNo(0)),
    Command::Read(TxNo(5), CardNo(1)),
    Command::Draft(TxNo(5), CardNo(0), TWO),
    Command::Draft(TxNo(5), CardNo(1), ONE),
    Command::Commit(TxNo(5)),
    Command::Read(TxNo(6), CardNo(0)),
    Command::Read(TxNo(6), CardNo(1)),
    Command::Read(TxNo(7), CardNo(0)),
    Command::Read(TxNo(7), CardNo(1)),
    Command::Draft(TxNo(6), CardNo(0), ONE),
    Command::Draft(TxNo(7), CardNo(1), TWO),
    Command::Commit(TxNo(6)),
    Command::Commit(TxNo(7)),
    Command::Stamp(CardNo(0), VersionNo(2)),
    Command::Stamp(CardNo(1), VersionNo(2)),
    Command::Stamp(CardNo(0), VersionNo(3)),
    Command::Stamp(CardNo(1), VersionNo(3)),
    Command::Journal,
];
