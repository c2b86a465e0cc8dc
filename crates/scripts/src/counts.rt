// The counts of a stamp, as they are printed.
ghost use Rattle.std.specs.Prelude.{Some};
ghost use Rattle.scripts.specs.Text.{counts_text};

use stamps::{CardNo, Stamp};
use std::fmt;

// The first counts of a stamp, one for each of so many cards.
#[derive(Clone, Copy)]
pub struct Counts {
    pub stamp: Stamp,
    pub cards: u32,
}

// In decimal, with a space between two.
impl fmt::Display for Counts {
    ghost output = { λ c. Some (counts_text c) };

    fn fmt<W: fmt::Write>(&self, f: &mut fmt::Formatter<W>) -> fmt::Result {
        if self.cards == 0 {
            return Ok(());
        }
        write!(f, "{}", self.stamp.entry(CardNo(0)))?;
        for card in 1..self.cards {
            write!(f, " {}", self.stamp.entry(CardNo(card)))?;
        }
        Ok(())
    }
}
