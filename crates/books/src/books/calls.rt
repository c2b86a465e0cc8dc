// The editors' calls.
ghost use Rattle.std.specs.Prelude.{◌≡◌, Some, Ok, Err, nat_eq};
ghost use Rattle.std.specs.Option.{ok_or};
ghost use Rattle.transactions.specs.Calls.{open_answer, Opens, draft_by, draft_answer, after_draft, abandon_answer, after_end, after_close};
ghost use Rattle.transactions.specs.declared.refusal.Refusal.TheVariants as refusals;
ghost use Rattle.transactions.specs.State.{last_at, numbered};
ghost use Rattle.tables.specs.Tables.{at};
ghost use Rattle.books.specs.States.{state_of, sizes_of, new_state, PlaceToOpen, next_number, number_given};

use crate::books::Books;
use crate::slip::Slip;
use entries::DraftEntry;
use journals::Journal;
use records::Line;
use stamps::{CardNo, TxNo, Value};
use tables::{BooksMemory, DRAFTS, OpenTable};
use transactions::Refusal;

// The last number that is given.
const NUMBERS: u32 = 1_000_000;

impl Books {
    // Books that are not set up yet: no place is in use.
    pub fn new(memory: BooksMemory) -> Books
        ensures { state_of result ≡ new_state (sizes_of memory) }
    {
        let BooksMemory {
            places,
            reads,
            drafts,
            lines,
        } = memory;
        Books {
            table: OpenTable::new(places, reads, drafts),
            width: 0,
            given: 0,
            journal: Journal::new(lines),
        }
    }

    // Ends all open transactions.
    pub fn close(&mut self)
        ensures { state_of self.new ≡ after_close (state_of self.old) }
    {
        self.table.clear();
    }

    // Ends a transaction without a commit.
    pub fn abandon(&mut self, slip: Slip) -> Result<(), Refusal>
        ensures answer { result ≡ abandon_answer (state_of self.old) slip.number.0 }
        ensures books { state_of self.new ≡ after_end (state_of self.old) slip.number.0 }
    {
        let Slip { number } = slip;
        let place = self.place_of(number)?;
        self.table.release(place);
        Ok(())
    }

    // The place of an open transaction.
    pub(super) fn place_of(&self, number: TxNo) -> Result<usize, Refusal>
        ensures { result ≡ ok_or (last_at (numbered number.0) (state_of self.now).places) refusals.NotOpen }
    {
        self.table.find(number).ok_or(Refusal::NotOpen)
    }

    // A free place, for an open to take.
    fn place_to_open(&self) -> Result<usize, Refusal>
        ensures { PlaceToOpen (state_of self.now).places result }
    {
        self.table.free_place().ok_or(Refusal::AllOpen)
    }

    // The number after the last one given.
    fn next_number(&self) -> Result<TxNo, Refusal>
        ensures { result ≡ next_number (state_of self.now) }
    {
        if self.given == NUMBERS {
            return Err(Refusal::NumbersOut);
        }
        Ok(TxNo(self.given + 1))
    }

    // Opens a transaction in a free place, and gives it the next number.
    pub fn open(&mut self) -> Result<Slip, Refusal>
        ensures answer { number_given result ≡ open_answer (state_of self.old) }
        ensures books { Opens (state_of self.old) (open_answer (state_of self.old)) (state_of self.new) }
    {
        let place = self.place_to_open()?;
        let number = self.next_number()?;
        self.table.occupy(place, number);
        self.given = number.0;
        Ok(Slip { number })
    }

    // Whether the transaction in a place may draft a card.
    fn may_draft(&self, place: usize, card: CardNo) -> Result<(), Refusal>
        ensures { result ≡ draft_by (state_of self.now) card.0 (Some (at (state_of self.now).places place)) }
    {
        if card.0 as usize >= self.table.cards() {
            return Err(Refusal::NoCard);
        }
        let here = self.table.at(place);
        if here.version_read(card).is_none() {
            return Err(Refusal::Unread);
        }
        if here.drafts().len() >= DRAFTS && here.draft_of(card).is_none() {
            return Err(Refusal::DraftsOut);
        }
        Ok(())
    }

    // Sets what a card is to hold, in place of an earlier draft.
    pub fn draft(&mut self, slip: &Slip, card: CardNo, value: Value) -> Result<(), Refusal>
        ensures answer { result ≡ draft_answer (state_of self.old) slip.now.number.0 card.0 }
        ensures books { state_of self.new ≡ after_draft (state_of self.old) slip.now.number.0 card.0 value }
    {
        let place = self.place_of(slip.number)?;
        self.may_draft(place, card)?;
        self.table.set_draft(place, DraftEntry { card, value });
        Ok(())
    }

    // The lines of the journal.
    pub fn journal(&self) -> &[Line]
        ensures { result.now ≡ (state_of self.now).journal }
    {
        self.journal.written()
    }

    // The place of a transaction's last line in the journal.
    pub fn last_line(&self, number: TxNo) -> Option<usize>
        ensures { result ≡ last_at (λ l. nat_eq l.transaction.0 number.0) (state_of self.now).journal }
    {
        self.journal.last(number)
    }
}
