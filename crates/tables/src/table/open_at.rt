// What is open in a place.
ghost use Rattle.std.specs.Prelude.{◌≡◌, map};
ghost use Rattle.std.specs.Option.{option_map, unwrap_or};
ghost use Rattle.isolation.specs.Account.{draft_of};
ghost use Rattle.transactions.specs.Choosing.{version_read};
ghost use Rattle.entries.specs.Contents.{reading, drafting};
ghost use Rattle.tables.specs.Tables.{list_of, at, seat};

use crate::table::OpenTable;
use entries::{DraftEntry, ReadEntry, last_entry};
use stamps::{CardNo, Value, VersionNo};

// The transaction in a place, none where the place is free.
#[derive(Clone, Copy)]
pub struct OpenAt<'a> {
    table: &'a OpenTable,
    place: usize,
}

impl OpenTable {
    // What is open in a place.
    pub fn at(&self, place: usize) -> OpenAt<'_>
        ensures { seat result ≡ at (list_of self.now) place }
    {
        OpenAt { table: self, place }
    }
}

// Each question comes twice, of the reads and of the drafts: the lists hold entries of two types, and one call for both would take a closure for the list and one for what to tell of an entry.
impl<'a> OpenAt<'a> {
    // The cards that it has read, none where there is no transaction.
    pub fn reads(&self) -> &'a [ReadEntry]
        ensures { map reading result.now ≡ (seat self.now).reads }
    {
        let Some(taken) = self.table.taken(self.place) else {
            return &[];
        };
        self.table.reads.first(self.place, taken.reads)
    }

    // Its drafts.
    pub fn drafts(&self) -> &'a [DraftEntry]
        ensures { map drafting result.now ≡ (seat self.now).drafts }
    {
        let Some(taken) = self.table.taken(self.place) else {
            return &[];
        };
        self.table.drafts.first(self.place, taken.drafts)
    }

    // The version in which it has read a card.
    pub fn version_read(&self, card: CardNo) -> Option<VersionNo>
        ensures { option_map (λ v. v.0) result ≡ version_read (seat self.now).reads card.0 }
    {
        last_entry(self.reads(), card).map(|entry| entry.version)
    }

    // What it has drafted for a card.
    pub fn draft_of(&self, card: CardNo) -> Option<Value>
        ensures { (v : Value) → unwrap_or result v ≡ draft_of (seat self.now).drafts card.0 v }
    {
        last_entry(self.drafts(), card).map(|entry| entry.value)
    }
}
