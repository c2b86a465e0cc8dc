// What the tables answer.
ghost use Rattle.std.specs.Prelude.{◌≡◌, ◌+◌, ◌*◌, ◌<◌, ◌≤◌, true, false, [], map, length, take, Some, None, vec_len, MatchOption};
ghost use Rattle.std.specs.List.{slice_get};
ghost use Rattle.transactions.specs.State.{last_at, numbered};
ghost use Rattle.transactions.specs.Calls.{all_taken};
ghost use Rattle.tables.specs.Tables.{table_of, enough, list_of, entry_at, taken as takes};

use crate::table::rows::Rows;
use crate::table::{DRAFTS, OpenTable, PLACES};
use entries::{DraftEntry, OpenPlace, ReadEntry, Taken, last_with};
use stamps::TxNo;

impl OpenTable {
    // Before set-up no place is in use.
    pub fn new(places: Vec<OpenPlace>, reads: Vec<ReadEntry>, drafts: Vec<DraftEntry>) -> OpenTable
        ensures { table_of result ≡ record { places_size = vec_len places; reads_size = vec_len reads; drafts_size = vec_len drafts; cards = 0; list = [] } }
    {
        OpenTable {
            places,
            reads: Rows {
                items: reads,
                width: 0,
            },
            drafts: Rows {
                items: drafts,
                width: DRAFTS,
            },
            used: 0,
        }
    }

    // Whether the tables are long enough for this many cards.
    pub(super) fn suffices(&self, cards: u32) -> bool
        ensures { result ≡ enough (table_of self.now) cards }
    {
        let places = self.places.len().min(PLACES);
        places > 0
            && places * cards as usize <= self.reads.items.len()
            && places * DRAFTS <= self.drafts.items.len()
    }

    // How many cards there were at set-up.
    pub fn cards(&self) -> usize
        ensures { result ≡ (table_of self.now).cards }
    {
        self.reads.width
    }

    // The places in use.
    fn in_use(&self) -> &[OpenPlace]
        ensures { result.now ≡ take self.now.used self.now.places.items }
    {
        &self.places[0..self.used]
    }

    // The place of an open transaction.
    pub fn find(&self, number: TxNo) -> Option<usize>
        ensures { result ≡ last_at (numbered number.0) (list_of self.now) }
    {
        last_with(self.in_use(), Some(number))
    }

    // The last free place, so that a search from the last place on finds a new transaction soon.
    pub fn free_place(&self) -> Option<usize>
        ensures { MatchOption result (all_taken (list_of self.now) ≡ true) (λ i. slice_get (list_of self.now) i ≡ Some None) }
    {
        last_with(self.in_use(), None)
    }

    // The open transaction in a place, and how many cards it has read and drafted.
    pub(super) fn taken(&self, place: usize) -> Option<Taken>
        ensures { MatchOption result (takes (list_of self.now) place ≡ false) (λ k. (takes (list_of self.now) place ≡ true) × (entry_at self.now place ≡ Some k)) }
    {
        *self.in_use().get(place)?
    }
}
