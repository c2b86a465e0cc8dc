// Setting books up with a shelf.
ghost use Rattle.std.specs.Prelude.{◌≡◌};
ghost use Rattle.transactions.specs.Calls.{set_up_answer, after_set_up};
ghost use Rattle.books.specs.Reads.{shelf_tests};
ghost use Rattle.books.specs.States.{state_of};

use crate::books::Books;
use shelf::Shelf;
use snapshots::any_written;
use transactions::Refusal;

// Whether books, if they are long enough, may be set up with the shelf.
fn check_shelf<S: Shelf>(shelf: &S) -> Result<(), Refusal>
    ensures { result ≡ shelf_tests (S.meaning shelf.now) }
{
    let cards = shelf.cards();
    if cards == 0 {
        return Err(Refusal::NoCards);
    }
    if shelf.width() < cards {
        return Err(Refusal::Narrow);
    }
    if any_written(shelf) {
        return Err(Refusal::NotFresh);
    }
    Ok(())
}

impl Books {
    // Makes the books empty, for the transactions on this shelf.
    pub fn set_up<S: Shelf>(&mut self, shelf: &S) -> Result<(), Refusal>
        ensures answer { result ≡ set_up_answer (state_of self.old) (S.meaning shelf.now) }
        ensures books { state_of self.new ≡ after_set_up (state_of self.old) (S.meaning shelf.now) }
    {
        check_shelf(shelf)?;
        self.table.lay_out(shelf.cards())?;
        self.width = shelf.width();
        self.given = 0;
        self.journal.clear();
        Ok(())
    }
}
