ghost use Rattle.std.specs.Prelude.{◌≡◌};
ghost use Rattle.digest.specs.Entries.{blank};

use records::Kind;
use stamps::{CardNo, TxNo};

// What the judge keeps of a record: where its transaction begins, and which version it reads or writes.
#[derive(Clone, Copy)]
pub struct Entry {
    pub kind: Kind,
    pub transaction: TxNo,
    pub card: CardNo,
    // The place of the first record of its transaction, which stands for the transaction in a search.
    pub owner: u16,
    // Of a READ the version read, of a WRIT the version written; version 0 is the card as nobody has written it yet, and stands at an end too.
    pub version: u16,
}

impl Entry {
    // An entry for no record.
    pub const BLANK: Entry = Entry {
        kind: Kind::Read,
        transaction: TxNo(0),
        card: CardNo(0),
        owner: 0,
        version: 0,
    };
}

// By hand, since no kind of record is the usual one.
impl Default for Entry {
    fn default() -> Entry
        ensures { result ≡ blank }
    {
        Entry::BLANK
    }
}
