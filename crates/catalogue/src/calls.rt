// The editors' calls. Each is given the shelf that was set up together with the books.
ghost use Rattle.std.specs.Prelude.{◌≡◌, nat_eq};
ghost use Rattle.shelf.specs.Meaning.{Meaning};
ghost use Rattle.transactions.specs.State.{last_at};
ghost use Rattle.transactions.specs.Calls.{set_up_answer, after_set_up, open_answer, Opens, read_answer, after_read, draft_answer, after_draft, abandon_answer, after_end, after_close};
ghost use Rattle.transactions.specs.Committing.{commit_answer, commit_shelf, commit_books};
ghost use Rattle.transactions.specs.Promises.{SetUpPromise, OpenPromise, ReadPromise, ReadRefusal, DraftPromise, CommitPromise, CommitRefusal, AbandonPromise, ClosePromise};
ghost use Rattle.books.specs.States.{sizes_of, new_state, handed, number_given};
ghost use Rattle.catalogue.specs.Kept.{kept, decision};

use books::{Books, BooksMemory, NotCommitted, Slip};
use records::Line;
use shelf::Shelf;
use stamps::{CardNo, TxNo, Value};
use transactions::{Reading, Refusal};

// The books of one shelf's transactions.
#[derive(Drop)]
pub struct Catalogue {
    books: Books,
}

impl Catalogue {
    // Books that are not set up yet: no place is in use.
    pub fn new(memory: BooksMemory) -> Catalogue
        ensures { kept result ≡ new_state (sizes_of memory) }
    {
        Catalogue {
            books: Books::new(memory),
        }
    }

    // Makes the books empty, for the transactions on this shelf.
    pub fn set_up<S: Shelf>(&mut self, shelf: &S) -> Result<(), Refusal>
        ensures answer { result ≡ set_up_answer (kept self.old) (S.meaning shelf.now) }
        ensures books { kept self.new ≡ after_set_up (kept self.old) (S.meaning shelf.now) }
        ensures law { SetUpPromise (S.meaning shelf.now) (kept self.old) result (kept self.new) }
    {
        self.books.set_up(shelf)
    }

    // Opens a transaction, and gives its slip.
    pub fn open(&mut self) -> Result<Slip, Refusal>
        ensures answer { number_given result ≡ open_answer (kept self.old) }
        ensures books { Opens (kept self.old) (open_answer (kept self.old)) (kept self.new) }
        ensures law { (m : Meaning) → OpenPromise m (kept self.old) (number_given result) (kept self.new) }
    {
        self.books.open()
    }

    // Reads a card: the version read before, else the newest that fits all cards read so far.
    pub fn read<S: Shelf>(
        &mut self,
        shelf: &S,
        slip: &Slip,
        card: CardNo,
    ) -> Result<Reading, Refusal>
        ensures answer { result ≡ read_answer (kept self.old) (S.meaning shelf.now) slip.now.number.0 card.0 }
        ensures books { kept self.new ≡ after_read (kept self.old) (S.meaning shelf.now) slip.now.number.0 card.0 }
        ensures law { ReadPromise (S.meaning shelf.now) (kept self.old) slip.now.number.0 card.0 result (kept self.new) }
        ensures refusal { ReadRefusal (kept self.old) result (kept self.new) }
    {
        self.books.read(shelf, slip, card)
    }

    // Sets what a card is to hold, in place of an earlier draft.
    pub fn draft(&mut self, slip: &Slip, card: CardNo, value: Value) -> Result<(), Refusal>
        ensures answer { result ≡ draft_answer (kept self.old) slip.now.number.0 card.0 }
        ensures books { kept self.new ≡ after_draft (kept self.old) slip.now.number.0 card.0 value }
        ensures law { (m : Meaning) → DraftPromise m (kept self.old) slip.now.number.0 card.0 value result (kept self.new) }
    {
        self.books.draft(slip, card, value)
    }

    // Commits a transaction, or hands its slip back; at a conflict the transaction ends and the slip is spent.
    pub fn commit<S: Shelf>(&mut self, shelf: &mut S, slip: Slip) -> Result<(), NotCommitted>
        ensures answer { result ≡ handed slip (commit_answer (kept self.old) (S.meaning shelf.old) slip.number.0) }
        ensures shelf { S.meaning shelf.new ≡ commit_shelf (kept self.old) (S.meaning shelf.old) slip.number.0 }
        ensures books { kept self.new ≡ commit_books (kept self.old) (S.meaning shelf.old) slip.number.0 }
        ensures law { CommitPromise (S.meaning shelf.old) (kept self.old) slip.number.0 (decision result) (S.meaning shelf.new) (kept self.new) }
        ensures refusal { CommitRefusal (kept self.old) slip.number.0 (decision result) (kept self.new) }
    {
        self.books.commit(shelf, slip)
    }

    // Ends a transaction without a commit. The slip is spent, also where its transaction is not open.
    pub fn abandon(&mut self, slip: Slip) -> Result<(), Refusal>
        ensures answer { result ≡ abandon_answer (kept self.old) slip.number.0 }
        ensures books { kept self.new ≡ after_end (kept self.old) slip.number.0 }
        ensures law { (m : Meaning) → AbandonPromise m (kept self.old) slip.number.0 result (kept self.new) }
    {
        self.books.abandon(slip)
    }

    // Ends all open transactions without a commit.
    pub fn close(&mut self)
        ensures books { kept self.new ≡ after_close (kept self.old) }
        ensures law { (m : Meaning) → ClosePromise m (kept self.old) (kept self.new) }
    {
        self.books.close();
    }

    // The lines of the journal.
    pub fn journal(&self) -> &[Line]
        ensures { result.now ≡ (kept self.now).journal }
    {
        self.books.journal()
    }

    // The place of a transaction's last line in the journal.
    pub fn last_line(&self, number: TxNo) -> Option<usize>
        ensures { result ≡ last_at (λ l. nat_eq l.transaction.0 number.0) (kept self.now).journal }
    {
        self.books.last_line(number)
    }
}
