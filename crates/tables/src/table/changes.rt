// How the tables change.
ghost use Rattle.std.specs.Prelude.{◌≡◌, suc, ◌*◌, ◌<◌, ◌≤◌, true, false, ◌||◌, [], ◌∷◌, ◌++◌, length, replicate, if◌then◌else◌, Some, None, Ok, Err, vec_len, nat_lt, slice_index};
ghost use Rattle.isolation.specs.Account.{has_read, drafted};
ghost use Rattle.transactions.specs.declared.refusal.Refusal.TheVariants as refusals;
ghost use Rattle.entries.specs.Contents.{draft_cards};
ghost use Rattle.tables.specs.Tables.{list_of, table_of, at, taken as takes, with_list, with_place, read_more, draft_set, enough, laid_out};

use crate::table::{OpenTable, PLACES};
use entries::{DraftEntry, ReadEntry, Taken, last_with};
use stamps::TxNo;
use transactions::Refusal;

impl OpenTable {
    // Puts a new transaction into a place.
    pub fn occupy(&mut self, place: usize, number: TxNo)
        ensures { table_of self.new ≡ with_place (table_of self.old) place (Some (record { number = number.0; reads = []; drafts = [] })) }
    {
        if place < self.used {
            self.places[place] = Some(Taken {
                number,
                reads: 0,
                drafts: 0,
            });
        }
    }

    // Makes a place free.
    pub fn release(&mut self, place: usize)
        ensures { table_of self.new ≡ with_place (table_of self.old) place None }
    {
        if place < self.used {
            self.places[place] = None;
        }
    }

    // Enters a card that the transaction in a place reads for the first time. That a place is taken is a fact about the table as it stands, so no type of a place
    // can hold it; it is asked where an entry is written. Apart from `add_draft`, which writes another type into another list and counts it in another field: one call for both would take a closure for each of these.
    pub fn enter_read(&mut self, place: usize, entry: ReadEntry)
        requires taken { takes (list_of self.old) place ≡ true }
        requires listed { entry.card.0 < (table_of self.old).cards }
        requires unread { has_read (at (list_of self.old) place).reads entry.card.0 ≡ false }
        ensures { table_of self.new ≡ with_place (table_of self.old) place (Some (read_more (at (list_of self.old) place) entry.card.0 entry.version.0)) }
    {
        let Some(taken) = self.taken(place) else {
            return;
        };
        self.reads.enter(place, taken.reads, entry);
        self.places[place] = Some(Taken {
            reads: taken.reads + 1,
            ..taken
        });
    }

    // Sets the draft of a card, in place of an earlier one.
    pub fn set_draft(&mut self, place: usize, draft: DraftEntry)
        requires taken { takes (list_of self.old) place ≡ true }
        requires listed { draft.card.0 < (table_of self.old).cards }
        requires few { (drafted (at (list_of self.old) place).drafts draft.card.0 || nat_lt (length (at (list_of self.old) place).drafts) 32) ≡ true }
        ensures { table_of self.new ≡ with_place (table_of self.old) place (Some (draft_set (at (list_of self.old) place) draft.card.0 draft.value)) }
    {
        match last_with(self.at(place).drafts(), draft.card) {
            Some(nth) => self.replace_draft(place, nth, draft),
            None => self.add_draft(place, draft),
        }
    }

    // Replaces a draft by another of the same card.
    fn replace_draft(&mut self, place: usize, nth: usize, draft: DraftEntry)
        requires taken { takes (list_of self.old) place ≡ true }
        requires there { nth < length (at (list_of self.old) place).drafts }
        requires same { slice_index (draft_cards (at (list_of self.old) place).drafts) nth ≡ draft.card.0 }
        ensures { table_of self.new ≡ with_place (table_of self.old) place (Some (draft_set (at (list_of self.old) place) draft.card.0 draft.value)) }
    {
        self.drafts.enter(place, nth, draft);
    }

    // Adds the draft of a card that has none.
    fn add_draft(&mut self, place: usize, draft: DraftEntry)
        requires taken { takes (list_of self.old) place ≡ true }
        requires listed { draft.card.0 < (table_of self.old).cards }
        requires few { length (at (list_of self.old) place).drafts < 32 }
        requires undrafted { drafted (at (list_of self.old) place).drafts draft.card.0 ≡ false }
        ensures { table_of self.new ≡ with_place (table_of self.old) place (Some (draft_set (at (list_of self.old) place) draft.card.0 draft.value)) }
    {
        let Some(taken) = self.taken(place) else {
            return;
        };
        self.drafts.enter(place, taken.drafts, draft);
        self.places[place] = Some(Taken {
            drafts: taken.drafts + 1,
            ..taken
        });
    }

    // Makes every place free.
    pub fn clear(&mut self)
        ensures { table_of self.new ≡ with_list (table_of self.old) (replicate (length (list_of self.old)) None) }
    {
        // Place by place, since no proof knows the list after a `fill` of its part.
        for place in 0..self.used {
            self.release(place);
        }
    }

    // Takes one more place into use, a free one.
    fn add_place(&mut self)
        requires listed { self.old.used < vec_len self.old.places }
        requires read { suc self.old.used * self.old.reads.width ≤ vec_len self.old.reads.items }
        requires drafted { suc self.old.used * 32 ≤ vec_len self.old.drafts.items }
        ensures table { table_of self.new ≡ with_list (table_of self.old) (list_of self.old ++ (None ∷ [])) }
        ensures used { self.new.used ≡ suc self.old.used }
    {
        self.places[self.used] = None;
        self.used += 1;
    }

    // Lays the tables out for this many cards, with every place free; tables that are too short stay as they are.
    pub fn lay_out(&mut self, cards: u32) -> Result<(), Refusal>
        ensures answer { result ≡ (if enough (table_of self.old) cards then Ok tt else Err refusals.ShortBooks) }
        ensures table { table_of self.new ≡ (if enough (table_of self.old) cards then laid_out (table_of self.old) cards else table_of self.old) }
    {
        if !self.suffices(cards) {
            return Err(Refusal::ShortBooks);
        }
        self.used = 0;
        self.reads.width = cards as usize;
        for _place in 0..self.places.len().min(PLACES) {
            self.add_place();
        }
        Ok(())
    }
}
