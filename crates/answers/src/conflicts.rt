ghost use Rattle.std.specs.Prelude.{◌≡◌, ◌<◌, ◌≤◌, true, length};
ghost use Rattle.reach.specs.Paths.{edges};
ghost use Rattle.rules.specs.Rules.{is_writ as writ-kind};
ghost use Rattle.digest.specs.Entries.{at};
ghost use Rattle.answers.specs.Questions.{Asked, clashes as has-clash, lost as is_lost, apart};

use super::commits::is_committed;
use super::listed::{Listed, card_node};
use super::marks::is_marked;
use digest::Listing;
use reach::{Graph, PLACES, Places};

// What is known about a transaction: who is committed, which transactions it depends on, and which depend on it. Before these are searched for,
// `backward` is `forward` again, which rules out nobody else.
#[derive(Clone, Copy)]
struct Known<'a> {
    dones: &'a [Option<u16>; PLACES],
    forward: &'a [u32],
    backward: &'a [u32],
}

impl Known<'_> {
    // Whether the transaction with this owner is committed, and neither depends on the other.
    fn is_apart(&self, owner: u16) -> bool
        ensures { result ≡ apart self.now.dones.now self.now.forward.now self.now.backward.now owner }
    {
        is_committed(self.dones, owner)
            && !(is_marked(self.forward, owner) || is_marked(self.backward, owner))
    }
}

impl<W: Listing> Listed<'_, W> {
    // Whether an earlier committed rival of the WRIT at this place is independent of its transaction.
    fn clashes(&self, known: &Known, place: usize) -> bool
        requires within { place < length self.now.entries.now }
        requires writ { writ-kind (at self.now.entries.now place).kind ≡ true }
        ensures { result ≡ has-clash self.now.entries.now known.now.dones.now known.now.forward.now known.now.backward.now place }
    {
        let writ = self.entries[place];
        for earlier in Places::older_than(self.writs, card_node(&writ), place) {
            let other = self.entries[earlier];
            if writ.rivals(&other) && known.is_apart(other.owner) {
                return true;
            }
        }
        false
    }

    // Whether the transaction with this owner has such a WRIT. Like `stale`, but for the question: a common walk would take it as a closure.
    fn lost(&self, known: &Known, owner: usize) -> bool
        ensures { result ≡ is_lost self.now.entries.now known.now.dones.now known.now.forward.now known.now.backward.now owner }
    {
        for place in Places::from_node(self.own, owner) {
            let entry = self.entries[place];
            if entry.is_writ() && entry.owner as usize == owner && self.clashes(known, place) {
                return true;
            }
        }
        false
    }

    // Whether the transaction with this owner is committed and in conflict with an earlier writer, where the transactions that it depends on are
    // marked in `forward`. Those that depend on it are searched for only where an earlier writer is not among them. The marks are lent each for itself,
    // one to be read and one to be written, and what is known is put together here, where both are.
    pub(crate) fn conflicting(
        &self,
        dones: &[Option<u16>; PLACES],
        readers: &Graph,
        forward: &[u32],
        backward: &mut [u32],
        owner: usize,
    ) -> bool
        requires own { owner < length self.now.entries.now }
        requires backward { length self.now.entries.now ≤ length backward.old }
        ensures { Asked self.now.entries.now dones.now (edges readers.now) (length self.now.entries.now) forward.now owner result }
    {
        let known = Known {
            dones,
            forward,
            backward: forward,
        };
        if dones[owner].is_none() || !self.lost(&known, owner) {
            return false;
        }
        readers.reach(owner, backward);
        self.lost(&Known { backward, ..known }, owner)
    }
}
