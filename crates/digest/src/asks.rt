ghost use Rattle.std.specs.Prelude.{◌≡◌};
ghost use Rattle.rules.specs.Rules.{is_read as read-kind, is_writ as writ-kind};
ghost use Rattle.digest.specs.Entries.{is_done as done-kind, is_step as stepping, newer, rivals as rival, wrote as written};

use super::entry::Entry;
use records::Kind;
use stamps::{CardNo, TxNo};

// One comparison each: the three questions are the subject's words, and a question with the kind in it would only hide the comparison.
impl Entry {
    pub fn is_read(&self) -> bool
        ensures { result ≡ read-kind self.now.kind }
    {
        self.kind == Kind::Read
    }

    pub fn is_writ(&self) -> bool
        ensures { result ≡ writ-kind self.now.kind }
    {
        self.kind == Kind::Writ
    }

    pub fn is_done(&self) -> bool
        ensures { result ≡ done-kind self.now.kind }
    {
        self.kind == Kind::Done
    }

    // Whether it reads a version that a transaction wrote.
    pub fn is_step(&self) -> bool
        ensures { result ≡ stepping self.now }
    {
        self.is_read() && self.version > 0
    }

    // Whether it is the WRIT of the card by the transaction.
    pub(crate) fn wrote(&self, card: CardNo, transaction: TxNo) -> bool
        ensures { result ≡ written self.now card.0 transaction.0 }
    {
        self.is_writ() && self.transaction == transaction && self.card == card
    }

    // Whether it writes a newer version of the card than `read` reads.
    pub fn is_newer(&self, read: &Entry) -> bool
        ensures { result ≡ newer self.now read.now }
    {
        self.is_writ() && self.card == read.card && self.version > read.version
    }

    // Whether they write one card in two transactions.
    pub fn rivals(&self, other: &Entry) -> bool
        ensures { result ≡ rival self.now other.now }
    {
        self.is_writ() && other.is_writ() && self.card == other.card && self.owner != other.owner
    }
}
