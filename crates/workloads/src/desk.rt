// An editors' desk: the catalogue, the shelf that it was set up with and its cards, and a checksum of all that is answered.
use super::cards::Cards;
use books::{NotCommitted, Slip};
use catalogue::Catalogue;
use shelf::Shelf;
use stamps::{CardNo, Value};
use transactions::Refusal;

#[derive(Drop)]
pub struct Desk<'a, S> {
    pub catalogue: Catalogue,
    pub shelf: &'a mut S,
    pub cards: Cards,
    pub sum: u64,
}

impl<S: Shelf> Desk<'_, S> {
    fn add(&mut self, n: u64) {
        self.sum = self.sum.wrapping_mul(31).wrapping_add(n);
    }

    pub fn read(&mut self, slip: &Slip, card: u32) {
        match self.catalogue.read(&*self.shelf, slip, CardNo(card)) {
            Ok(reading) => self.add(
                u64::from(reading.version.0)
                    .wrapping_add(reading.value.first)
                    .wrapping_add(reading.value.second),
            ),
            Err(refusal) => self.add(u64::from(refusal.number())),
        }
    }

    // Commits a transaction, and gives it up where it is refused.
    pub fn commit(&mut self, slip: Slip) {
        match self.catalogue.commit(self.shelf, slip) {
            Ok(()) => self.add(1),
            Err(NotCommitted::Conflict) => self.add(u64::from(Refusal::Conflict.number())),
            Err(NotCommitted::HandedBack(slip, refusal)) => {
                self.add(u64::from(refusal.number()));
                let _ = self.catalogue.abandon(slip);
            }
        }
    }

    // A whole transaction: it reads the cards, drafts some of them, and commits.
    pub fn transact(&mut self, reads: &[u32], drafts: &[u32], value: Value) {
        let Ok(slip) = self.catalogue.open() else {
            return;
        };
        for card in reads {
            self.read(&slip, *card);
        }
        for card in drafts {
            let _ = self.catalogue.draft(&slip, CardNo(*card), value);
        }
        self.commit(slip);
    }
}
