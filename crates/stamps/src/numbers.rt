ghost use Rattle.std.specs.Prelude.{Some, decimal};

use std::fmt;

// Three kinds of count, each a type of its own, so that no call takes one for another: made as `CardNo(4)`, taken out by
// `.0`, compared and ordered by the number, and shown as the number in decimal. No derive with a contract says how a number is shown (of what the
// library's derive for errors writes nothing is known), so each of them does.

// A card's number, from 0.
#[derive(Clone, Copy, PartialEq, Eq, PartialOrd, Ord, Debug)]
pub struct CardNo(pub u32);

impl fmt::Display for CardNo {
    ghost output = { λ c. Some (decimal c.0) };

    fn fmt<W: fmt::Write>(&self, f: &mut fmt::Formatter<W>) -> fmt::Result {
        let CardNo(number) = *self;
        number.fmt(f)
    }
}

// A version's number: version 0 of a card is there from the start, and a higher number is newer.
#[derive(Clone, Copy, PartialEq, Eq, PartialOrd, Ord, Debug)]
pub struct VersionNo(pub u32);

impl fmt::Display for VersionNo {
    ghost output = { λ v. Some (decimal v.0) };

    fn fmt<W: fmt::Write>(&self, f: &mut fmt::Formatter<W>) -> fmt::Result {
        let VersionNo(number) = *self;
        number.fmt(f)
    }
}

// A transaction's number, from 1; 0 stands for the writer of version 0, which is no transaction.
#[derive(Clone, Copy, PartialEq, Eq, PartialOrd, Ord, Debug)]
pub struct TxNo(pub u32);

impl fmt::Display for TxNo {
    ghost output = { λ t. Some (decimal t.0) };

    fn fmt<W: fmt::Write>(&self, f: &mut fmt::Formatter<W>) -> fmt::Result {
        let TxNo(number) = *self;
        number.fmt(f)
    }
}
