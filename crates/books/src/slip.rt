// The slip of an open transaction.
ghost use Rattle.std.specs.Prelude.{◌≡◌};

use entries::Numbered;
use stamps::TxNo;
use transactions::Refusal;

// An editor holds it while the transaction is open, and must hand it in: only commit and abandon take one.
pub struct Slip {
    pub(crate) number: TxNo,
}

impl Slip {
    // The transaction's number.
    pub fn number(&self) -> TxNo
        ensures { result ≡ self.now.number }
    {
        self.number
    }
}

// Slips are found by the transaction's number.
impl Numbered for Slip {
    type Number = TxNo;

    ghost numbering = { λ s. s.number };

    fn number(&self) -> TxNo {
        let Slip { number } = self;
        *number
    }
}

// Why a transaction is not committed.
pub enum NotCommitted {
    // The transaction stays open, if it was, and its slip comes back.
    HandedBack(Slip, Refusal),
    // A drafted card has a newer version than the one read: the transaction has ended.
    Conflict,
}
