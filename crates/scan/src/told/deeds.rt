// What the records that were taken in tell of a transaction, looked up by the links between its records.
ghost use Rattle.std.specs.Prelude.{◌≡◌, ◌<◌, Ok, not};
ghost use Rattle.records.specs.declared.line.Line.{Line as OneLine};
ghost use Rattle.records.specs.Format.{decoded};
ghost use Rattle.records.specs.Parts.{part};
ghost use Rattle.rules.specs.Rules.{some, ends, unended};
ghost use Rattle.scan.specs.Scanning.{lines_of, deed_told};

use super::Told;
use crate::deed::Deed;
use reach::node_of;
use stamps::TxNo;

impl Told<'_> {
    // Whether some record tells it of a transaction.
    pub(super) fn tells(&self, by: TxNo, deed: Deed) -> bool
        ensures { result ≡ some (deed_told deed by.0) (lines_of self.now.file.now self.now.count) }
    {
        for place in self.links.edges_from(node_of(by.0)) {
            if self.record(place).shows(by, deed) {
                return true;
            }
        }
        false
    }

    // Whether the transaction of a record has no end.
    fn is_unended(&self, place: usize) -> bool
        requires { place < self.now.count }
        ensures { (l : OneLine) → decoded (part self.now.file.now place) ≡ Ok l → result ≡ not (some (ends l.transaction.0) (lines_of self.now.file.now self.now.count)) }
    {
        !self.tells(self.record(place).transaction(), Deed::Ended)
    }

    // The place of the first record whose transaction has no end.
    pub(crate) fn first_unended(&self) -> Option<usize>
        ensures { result ≡ unended (lines_of self.now.file.now self.now.count) (lines_of self.now.file.now self.now.count) 0 }
    {
        (0..self.count).find(|place| self.is_unended(*place))
    }
}
