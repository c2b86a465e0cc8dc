// Reading a card.
ghost use Rattle.std.specs.Prelude.{◌≡◌, ◌<◌, true, false};
ghost use Rattle.isolation.specs.Account.{has_read};
ghost use Rattle.transactions.specs.Choosing.{other_shelf};
ghost use Rattle.transactions.specs.Calls.{read_answer, after_read};
ghost use Rattle.tables.specs.Tables.{at, taken};
ghost use Rattle.books.specs.States.{state_of};
ghost use Rattle.books.specs.Reads.{read_tests, read_first, read_place};

use crate::books::Books;
use crate::slip::Slip;
use entries::ReadEntry;
use shelf::Shelf;
use snapshots::{lacks_any, newest_that_fits, seen};
use stamps::CardNo;
use transactions::{Reading, Refusal};

impl Books {
    // Whether the shelf is another than that of set-up, by its cards, its width or a version that the transaction in a place has read.
    pub(super) fn is_other<S: Shelf>(&self, shelf: &S, place: usize) -> bool
        ensures { result ≡ other_shelf (state_of self.now) (S.meaning shelf.now) (at (state_of self.now).places place).reads }
    {
        shelf.cards() as usize != self.table.cards()
            || shelf.width() != self.width
            || lacks_any(shelf, self.table.at(place).reads())
    }

    // Whether the transaction in a place may read a card.
    fn may_read<S: Shelf>(&self, shelf: &S, place: usize, card: CardNo) -> Result<(), Refusal>
        ensures { result ≡ read_tests (state_of self.now) (S.meaning shelf.now) card.0 (at (state_of self.now).places place) }
    {
        if card.0 as usize >= self.table.cards() {
            return Err(Refusal::NoCard);
        }
        if self.is_other(shelf, place) {
            return Err(Refusal::OtherShelf);
        }
        Ok(())
    }

    // Reads a card for the first time. That the place is taken is a fact about the table as it stands, so no type of a place can hold it; it is asked where an
    // entry is written.
    fn read_first<S: Shelf>(
        &mut self,
        shelf: &S,
        place: usize,
        card: CardNo,
    ) -> Result<Reading, Refusal>
        requires taken { taken (state_of self.old).places place ≡ true }
        requires listed { card.0 < (state_of self.old).cards }
        requires unread { has_read (at (state_of self.old).places place).reads card.0 ≡ false }
        ensures answer { result ≡ read_first (S.meaning shelf.now) (at (state_of self.old).places place) card.0 }
        ensures books { state_of self.new ≡ read_place (state_of self.old) place card.0 (read_first (S.meaning shelf.now) (at (state_of self.old).places place) card.0) }
    {
        let here = self.table.at(place);
        let version = newest_that_fits(shelf, here.reads(), card).ok_or(Refusal::OtherShelf)?;
        let reading = seen(shelf, here, card, version);
        self.table.enter_read(place, ReadEntry { card, version });
        Ok(reading)
    }

    // Reads a card: the version read before, else the newest that fits all cards read so far.
    pub fn read<S: Shelf>(
        &mut self,
        shelf: &S,
        slip: &Slip,
        card: CardNo,
    ) -> Result<Reading, Refusal>
        ensures answer { result ≡ read_answer (state_of self.old) (S.meaning shelf.now) slip.now.number.0 card.0 }
        ensures books { state_of self.new ≡ after_read (state_of self.old) (S.meaning shelf.now) slip.now.number.0 card.0 }
    {
        let place = self.place_of(slip.number)?;
        self.may_read(shelf, place, card)?;
        let here = self.table.at(place);
        // a card read before is told again and changes nothing; a first read is entered
        match here.version_read(card) {
            Some(version) => Ok(seen(shelf, here, card, version)),
            None => self.read_first(shelf, place, card),
        }
    }
}
