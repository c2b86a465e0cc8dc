// What the judge keeps of the first records of a file.
ghost use Rattle.std.specs.Prelude.{◌≡◌, ◌<◌, ◌≤◌, ◌==◌, [], ◌∷◌, ◌++◌, length};
ghost use Rattle.digest.specs.Entries.{owner_in, version_in, version_of as version-told, entry_of as entry-told};
ghost use Rattle.digest.specs.Links.{tx_node, Linked};

use super::entry::Entry;
use super::listing::Listing;
use arrayvec::ArrayVec;
use reach::{PLACES, Places, node_of};
use records::{Kind, Line};
use stamps::{CardNo, TxNo};

// The entries of records, listed by their transactions.
#[derive(Drop)]
pub(crate) struct Register<W: Listing> {
    entries: ArrayVec<Entry, PLACES>,
    transactions: W,
    ghost room: { length entries.items ≤ 2048 },
    ghost linked: { Linked (W.count transactions) (W.comes transactions) tx_node entries.items (length entries.items) },
}

impl<W: Listing> Register<W> {
    // With no entry.
    pub(crate) fn new() -> Register<W>
        ensures { result.entries.items ≡ [] }
    {
        Register {
            entries: ArrayVec::new(),
            transactions: W::empty(),
        }
    }

    // Whether no more entries fit.
    pub(crate) fn is_full(&self) -> bool
        ensures { result ≡ (length self.now.entries.items == 2048) }
    {
        self.entries.is_full()
    }

    // Adds the entry of the next line.
    pub(crate) fn push(&mut self, line: &Line)
        requires { length self.old.entries.items < 2048 }
        ensures { self.new.entries.items ≡ self.old.entries.items ++ entry-told self.old.entries.items line.now ∷ [] }
    {
        let entry = self.entry_of(line);
        self.entries.push(entry);
        self.transactions.list(node_of(line.transaction.0));
    }

    // The entries.
    pub(crate) fn into_entries(self) -> ArrayVec<Entry, PLACES>
        ensures { result ≡ self.entries }
    {
        let Register {
            entries,
            transactions: _,
        } = self;
        entries
    }

    // This walk and the next are alike: each gives what it found, a place or a version, and a common one would take two closures.
    // The place of the transaction's first entry; the next place, where it has none yet.
    fn owner_of(&self, transaction: TxNo) -> u16
        ensures { result ≡ owner_in self.now.entries.items transaction.0 (length self.now.entries.items) }
    {
        for place in Places::from_node(&self.transactions, node_of(transaction.0)) {
            let entry = self.entries[place];
            if entry.transaction == transaction {
                return entry.owner;
            }
        }
        self.entries.len() as u16
    }

    // The version of the card that the transaction wrote; 0, as of version 0, where it wrote none: no file that is judged has such a READ.
    fn version_by(&self, card: CardNo, transaction: TxNo) -> u16
        ensures { result ≡ version_in self.now.entries.items card.0 transaction.0 (length self.now.entries.items) }
    {
        for place in Places::from_node(&self.transactions, node_of(transaction.0)) {
            if self.entries[place].wrote(card, transaction) {
                return (place + 1) as u16;
            }
        }
        0
    }

    // The version that the next line reads or writes.
    fn version_of(&self, line: &Line) -> u16
        ensures { result ≡ version-told line.now.kind self.now.entries.items line.now }
    {
        match line.kind {
            Kind::Read if line.writer.0 == 0 => 0,
            Kind::Read => self.version_by(line.card, line.writer),
            Kind::Writ => (self.entries.len() + 1) as u16,
            Kind::Done | Kind::Gone => 0,
        }
    }

    // The entry of the next line.
    fn entry_of(&self, line: &Line) -> Entry
        ensures { result ≡ entry-told self.now.entries.items line.now }
    {
        Entry {
            kind: line.kind,
            transaction: line.transaction,
            card: line.card,
            owner: self.owner_of(line.transaction),
            version: self.version_of(line),
        }
    }
}
