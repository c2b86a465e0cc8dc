// What stands in the books.
use stamps::{CardNo, TxNo, Value, VersionNo};

// A card that a transaction has read, with the version read. It and a draft are two types, since they hold different things, by the words of the subject; what they share is one line, `Numbered`.
#[derive(Clone, Copy)]
pub struct ReadEntry {
    pub card: CardNo,
    pub version: VersionNo,
}

// A card that a transaction has drafted, with what it is to hold.
#[derive(Clone, Copy)]
pub struct DraftEntry {
    pub card: CardNo,
    pub value: Value,
}

// An open transaction, and how many cards it has read and drafted.
#[derive(Clone, Copy)]
pub struct Taken {
    pub number: TxNo,
    pub reads: usize,
    pub drafts: usize,
}

// A place for an open transaction, none where it is free.
pub type OpenPlace = Option<Taken>;
