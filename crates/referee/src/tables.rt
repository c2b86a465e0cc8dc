use records::{Kind, Line};
use stamps::{CardNo, TxNo};
use std::alloc::{AllocError, Global};
use std::collections::BTreeMap;

// A transaction and a card that it read or wrote.
#[derive(Clone, Copy, PartialEq, Eq, PartialOrd, Ord)]
pub struct Use {
    pub transaction: TxNo,
    pub card: CardNo,
}

// How a transaction ended.
#[derive(Clone, Copy, PartialEq, Eq)]
pub enum End {
    Done,
    Gone,
}

// What the records of a file tell so far.
#[derive(Drop)]
pub struct Tables {
    // Each READ, with the writer that it names.
    pub reads: BTreeMap<Use, TxNo>,
    // Each WRIT, with its place in the file.
    pub writs: BTreeMap<Use, usize>,
    // Each transaction with an end.
    pub ends: BTreeMap<TxNo, End>,
    // Each transaction, with the place of its first record.
    pub firsts: BTreeMap<TxNo, usize>,
    // Whether each READ so far named 0 or a transaction that was done by then.
    pub committed_reads: bool,
}

impl Tables {
    pub fn new(heap: Global) -> Tables {
        Tables {
            reads: BTreeMap::new(heap),
            writs: BTreeMap::new(heap),
            ends: BTreeMap::new(heap),
            firsts: BTreeMap::new(heap),
            committed_reads: true,
        }
    }

    // Whether the line may stand behind those that were taken.
    pub fn fits(&self, line: &Line) -> bool {
        if self.ends.contains_key(&line.transaction) {
            return false;
        }
        match line.kind {
            Kind::Read => self.read_fits(line),
            Kind::Writ => self.writ_fits(line),
            Kind::Done | Kind::Gone => true,
        }
    }

    // The first READ of its card by its transaction, of a version that is there and that another wrote.
    fn read_fits(&self, line: &Line) -> bool {
        let own = use_of(line);
        let source = Use {
            transaction: line.writer,
            card: line.card,
        };
        !self.reads.contains_key(&own)
            && line.writer != line.transaction
            && (line.writer == TxNo(0) || self.writs.contains_key(&source))
    }

    // The first WRIT of its card by its transaction, which has read the card.
    fn writ_fits(&self, line: &Line) -> bool {
        let own = use_of(line);
        self.reads.contains_key(&own) && !self.writs.contains_key(&own)
    }

    // Takes in the line that stands at this place.
    pub fn take(&mut self, place: usize, line: &Line) -> Result<(), AllocError> {
        self.firsts.entry(line.transaction)?.or_insert(place);
        match line.kind {
            Kind::Read => self.take_read(line),
            Kind::Writ => {
                self.writs.insert(use_of(line), place)?;
                Ok(())
            }
            Kind::Done => self.take_end(line.transaction, End::Done),
            Kind::Gone => self.take_end(line.transaction, End::Gone),
        }
    }

    fn take_read(&mut self, line: &Line) -> Result<(), AllocError> {
        if line.writer != TxNo(0) && !self.is_done(line.writer) {
            self.committed_reads = false;
        }
        self.reads.insert(use_of(line), line.writer)?;
        Ok(())
    }

    fn take_end(&mut self, transaction: TxNo, end: End) -> Result<(), AllocError> {
        self.ends.insert(transaction, end)?;
        Ok(())
    }

    // Whether the transaction has a DONE so far.
    pub fn is_done(&self, transaction: TxNo) -> bool {
        self.ends.get(&transaction).copied() == Some(End::Done)
    }

    // The first place of a record whose transaction has no end.
    pub fn first_without_end(&self) -> Option<usize> {
        self.firsts
            .iter()
            .filter(|(transaction, _)| !self.ends.contains_key(*transaction))
            .map(|(_, place)| *place)
            .min()
    }
}

// The use that a READ or a WRIT tells of.
fn use_of(line: &Line) -> Use {
    Use {
        transaction: line.transaction,
        card: line.card,
    }
}
