use stamps::{Value, VersionNo};

// What a read answers: which version, and the words, which are the transaction's own draft where it has one.
#[derive(Clone, Copy)]
pub struct Reading {
    pub version: VersionNo,
    pub value: Value,
}
