ghost use Rattle.std.specs.Prelude.{◌≡◌};
ghost use Rattle.answers.specs.Questions.{outdated as has-outdated, stale as is-stale};

use super::listed::Listed;
use super::marks::is_marked;
use digest::{Entry, Listing};
use reach::{Places, node_of};

impl<W: Listing> Listed<'_, W> {
    // Whether a marked transaction wrote a newer version of the card than the version read. The card's WRITs come from the newest on,
    // so the first that stands before the version read ends it.
    fn outdated(&self, marks: &[u32], read: &Entry) -> bool
        ensures { result ≡ has-outdated self.now.entries.now marks.now read.now }
    {
        for place in Places::from_node(self.writs, node_of(read.card.0)) {
            if place < read.version as usize {
                return false;
            }
            let writ = self.entries[place];
            if writ.is_newer(read) && is_marked(marks, writ.owner) {
                return true;
            }
        }
        false
    }

    // Whether the transaction with this owner read such a version, where the transactions that it depends on are marked.
    pub(crate) fn stale(&self, marks: &[u32], owner: usize) -> bool
        ensures { result ≡ is-stale self.now.entries.now marks.now owner }
    {
        for place in Places::from_node(self.own, owner) {
            let entry = self.entries[place];
            if entry.is_read() && entry.owner as usize == owner && self.outdated(marks, &entry) {
                return true;
            }
        }
        false
    }
}
