ghost use Rattle.std.specs.Prelude.{◌≡◌};
ghost use Rattle.records.specs.Format.{good_transaction, good_card, good_writer, good_words, fault_of, tested};

use super::fault::RecordFault;
use super::kind::Kind;
use stamps::{CardNo, TxNo, Value};

// A line of a journal: the fields of a record. Any values may stand in it; `encode` refuses a bad one.
#[derive(Clone, Copy, PartialEq, Debug)]
pub struct Line {
    pub kind: Kind,
    pub transaction: TxNo,
    pub card: CardNo,
    // Of a READ the writer of the version read, 0 for version 0; of a WRIT the transaction itself.
    pub writer: TxNo,
    pub value: Value,
}

/// The words of a record that carries no value: of a READ, a DONE and a GONE.
pub const NO_WORDS: Value = Value {
    first: 0,
    second: 0,
};

const LAST_TRANSACTION: u32 = 1_000_000;

const LAST_CARD: u32 = 255;

impl Line {
    // The first bad field, if any, of transaction, card, writer and words.
    pub fn fault(&self) -> Option<RecordFault>
        ensures { result ≡ fault_of self.now }
    {
        if !self.has_good_transaction() {
            Some(RecordFault::Transaction)
        } else if !self.has_good_card() {
            Some(RecordFault::Card)
        } else if !self.has_good_writer() {
            Some(RecordFault::Writer)
        } else if !self.has_good_words() {
            Some(RecordFault::Words)
        } else {
            None
        }
    }

    // The line, where no field is bad, or its first bad field.
    #[inline(always)]
    pub(crate) fn checked(self) -> Result<Line, RecordFault>
        ensures { result ≡ tested self (fault_of self) }
    {
        self.fault().map_or(Ok(self), Err)
    }

    fn has_good_transaction(&self) -> bool
        ensures { result ≡ good_transaction self.now.transaction.0 }
    {
        (1..=LAST_TRANSACTION).contains(&self.transaction.0)
    }

    fn has_good_card(&self) -> bool
        ensures { result ≡ good_card self.now.kind self.now.card.0 }
    {
        match self.kind {
            Kind::Read | Kind::Writ => self.card.0 <= LAST_CARD,
            Kind::Done | Kind::Gone => self.card.0 == 0,
        }
    }

    fn has_good_writer(&self) -> bool
        ensures { result ≡ good_writer self.now.kind self.now.transaction.0 self.now.writer.0 }
    {
        match self.kind {
            Kind::Read => self.writer.0 <= LAST_TRANSACTION,
            Kind::Writ => self.writer.0 == self.transaction.0,
            Kind::Done | Kind::Gone => self.writer.0 == 0,
        }
    }

    fn has_good_words(&self) -> bool
        ensures { result ≡ good_words self.now.kind self.now.value }
    {
        match self.kind {
            Kind::Writ => true,
            Kind::Read | Kind::Done | Kind::Gone => self.value == NO_WORDS,
        }
    }
}
