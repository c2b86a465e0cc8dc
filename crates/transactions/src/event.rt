use crate::reading::Reading;
use crate::refusal::Refusal;
use stamps::{CardNo, TxNo, Value};

// A call of an editor, with its answer. A commit's slip, where it is handed back, is no part of this.
#[derive(Clone, Copy)]
pub enum Event {
    Open(Result<TxNo, Refusal>),
    Read(TxNo, CardNo, Result<Reading, Refusal>),
    Draft(TxNo, CardNo, Value, Result<(), Refusal>),
    Commit(TxNo, Result<(), Refusal>),
    Abandon(TxNo, Result<(), Refusal>),
    Close,
}
