// Committing a transaction.
ghost use Rattle.std.specs.Prelude.{◌≡◌, true, ◌++◌, if◌then◌else◌, None, Ok, Err, nat_lt, slice_set};
ghost use Rattle.transactions.specs.State.{with_places, room};
ghost use Rattle.transactions.specs.Committing.{outdated, crowded, block_length, decide as decision, commit_of, put_cards, block, ends_by, shelf_with, journal_with, with_journal, commit_answer, commit_shelf, commit_books};
ghost use Rattle.books.specs.States.{state_of, handed};
ghost use Rattle.tables.specs.Tables.{at, taken};

use crate::books::Books;
use crate::slip::{NotCommitted, Slip};
use committing::{is_crowded, is_outdated, put_drafts};
use journals::log_block;
use shelf::Shelf;
use stamps::TxNo;
use transactions::Refusal;

impl Books {
    // Whether a card that the transaction in a place has drafted has a newer version than the one read.
    fn has_conflict<S: Shelf>(&self, shelf: &S, place: usize) -> bool
        ensures { result ≡ outdated (S.meaning shelf.now) (at (state_of self.now).places place).reads (at (state_of self.now).places place).drafts }
    {
        is_outdated(shelf, self.table.at(place))
    }

    // Whether the drafts of the transaction in a place outnumber the free places of a drawer.
    fn lacks_places<S: Shelf>(&self, shelf: &S, place: usize) -> bool
        ensures { result ≡ crowded (S.meaning shelf.now) (at (state_of self.now).places place).drafts }
    {
        is_crowded(shelf, self.table.at(place).drafts())
    }

    // Whether the journal lacks lines for the block of the transaction in a place.
    fn lacks_lines(&self, place: usize) -> bool
        ensures { result ≡ nat_lt (room (state_of self.now)) (block_length (at (state_of self.now).places place)) }
    {
        let here = self.table.at(place);
        self.journal.room() < here.reads().len() + here.drafts().len() + 1
    }

    // Whether the drafts of the transaction in a place are committed: the first refusal of four.
    fn decide_drafts<S: Shelf>(&self, shelf: &S, place: usize) -> Result<(), Refusal>
        ensures { result ≡ decision (state_of self.now) (S.meaning shelf.now) (at (state_of self.now).places place) }
    {
        if self.is_other(shelf, place) {
            return Err(Refusal::OtherShelf);
        }
        if self.has_conflict(shelf, place) {
            return Err(Refusal::Conflict);
        }
        if self.lacks_places(shelf, place) {
            return Err(Refusal::NoPlace);
        }
        if self.lacks_lines(place) {
            return Err(Refusal::JournalFull);
        }
        Ok(())
    }

    // Whether the transaction in a place is committed; without drafts nothing is tested.
    fn decide<S: Shelf>(&self, shelf: &S, place: usize) -> Result<(), Refusal>
        ensures { result ≡ commit_of (state_of self.now) (S.meaning shelf.now) (at (state_of self.now).places place) (at (state_of self.now).places place).drafts }
    {
        if self.table.at(place).drafts().is_empty() {
            return Ok(());
        }
        self.decide_drafts(shelf, place)
    }

    // Writes the block of the transaction in a place into the journal, and puts its drafts. The place and the number come from one search; a value
    // of both would say no more, since what it says ends when the table changes.
    fn write_out<S: Shelf>(&mut self, shelf: &mut S, place: usize, number: TxNo)
        requires taken { taken (state_of self.old).places place ≡ true }
        requires number { (at (state_of self.old).places place).number ≡ number.0 }
        requires granted { decision (state_of self.old) (S.meaning shelf.old) (at (state_of self.old).places place) ≡ Ok tt }
        ensures shelf { S.meaning shelf.new ≡ put_cards (S.meaning shelf.old) (at (state_of self.old).places place) (state_of self.old).cards }
        ensures books { state_of self.new ≡ with_journal (state_of self.old) ((state_of self.old).journal ++ block (S.meaning shelf.old) (at (state_of self.old).places place) (state_of self.old).cards) }
    {
        let here = self.table.at(place);
        let reads = here.reads();
        let drafts = here.drafts();
        log_block(&mut self.journal, shelf, number, reads, drafts);
        put_drafts(shelf, number, reads, drafts);
    }

    // Carries out the commit of the transaction in a place. The place is freed in either case: with drafts, after the journal and the shelf have what it held.
    fn carry_out<S: Shelf>(&mut self, shelf: &mut S, place: usize, number: TxNo)
        requires taken { taken (state_of self.old).places place ≡ true }
        requires number { (at (state_of self.old).places place).number ≡ number.0 }
        requires granted { commit_of (state_of self.old) (S.meaning shelf.old) (at (state_of self.old).places place) (at (state_of self.old).places place).drafts ≡ Ok tt }
        ensures shelf { S.meaning shelf.new ≡ shelf_with (state_of self.old) (S.meaning shelf.old) (at (state_of self.old).places place).drafts (at (state_of self.old).places place) }
        ensures books { state_of self.new ≡ with_journal (with_places (state_of self.old) (slice_set (state_of self.old).places place None)) (journal_with (state_of self.old) (S.meaning shelf.old) (at (state_of self.old).places place).drafts (at (state_of self.old).places place)) }
    {
        if self.table.at(place).drafts().is_empty() {
            self.table.release(place);
            return;
        }
        self.write_out(shelf, place, number);
        self.table.release(place);
    }

    // After a refusal: a conflict ends the transaction in a place.
    fn refuse(&mut self, place: usize, refusal: Refusal)
        ensures { state_of self.new ≡ (if ends_by refusal then with_places (state_of self.old) (slice_set (state_of self.old).places place None) else state_of self.old) }
    {
        if matches!(refusal, Refusal::Conflict) {
            self.table.release(place);
        }
    }

    // Decides on a transaction, by its number, and commits it if nothing speaks against it.
    fn settle<S: Shelf>(&mut self, shelf: &mut S, number: TxNo) -> Result<(), Refusal>
        ensures answer { result ≡ commit_answer (state_of self.old) (S.meaning shelf.old) number.0 }
        ensures shelf { S.meaning shelf.new ≡ commit_shelf (state_of self.old) (S.meaning shelf.old) number.0 }
        ensures books { state_of self.new ≡ commit_books (state_of self.old) (S.meaning shelf.old) number.0 }
    {
        let place = self.place_of(number)?;
        if let Err(refusal) = self.decide(shelf, place) {
            self.refuse(place, refusal);
            return Err(refusal);
        }
        self.carry_out(shelf, place, number);
        Ok(())
    }

    // Commits a transaction, or hands its slip back; at a conflict the transaction ends and the slip is spent.
    pub fn commit<S: Shelf>(&mut self, shelf: &mut S, slip: Slip) -> Result<(), NotCommitted>
        ensures answer { result ≡ handed slip (commit_answer (state_of self.old) (S.meaning shelf.old) slip.number.0) }
        ensures shelf { S.meaning shelf.new ≡ commit_shelf (state_of self.old) (S.meaning shelf.old) slip.number.0 }
        ensures books { state_of self.new ≡ commit_books (state_of self.old) (S.meaning shelf.old) slip.number.0 }
    {
        let settled = self.settle(shelf, slip.number);
        hand_in(slip, settled)
    }
}

// Spends the slip, or hands it back: an arm for each answer, since the slip, which none may drop, goes another way in each.
fn hand_in(slip: Slip, settled: Result<(), Refusal>) -> Result<(), NotCommitted>
    ensures { result ≡ handed slip settled }
{
    match settled {
        Ok(()) => {
            let Slip { number: _ } = slip;
            Ok(())
        }
        Err(Refusal::Conflict) => {
            let Slip { number: _ } = slip;
            Err(NotCommitted::Conflict)
        }
        Err(refusal) => Err(NotCommitted::HandedBack(slip, refusal)),
    }
}
