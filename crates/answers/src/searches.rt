ghost use Rattle.std.specs.Prelude.{◌≡◌, ◌<◌, ◌≤◌, true, false, not, ◌&&◌, length};
ghost use Rattle.reach.specs.Paths.{edges};
ghost use Rattle.answers.specs.Questions.{some_below, dirty, stale as is-stale, Snapshots, Asked, Conflicts};

use super::dependences::Dependences;
use super::listed::Listed;
use digest::Listing;
use reach::{Graph, PLACES, Queue};
use verdicts::Verdict;

impl<W: Listing> Listed<'_, W> {
    // The three answers: on dirty reads from the entries, on the others from a search from each transaction for those that it depends on.
    pub(crate) fn verdict(
        &self,
        dones: &[Option<u16>; PLACES],
        dependences: &Dependences,
        marks: &mut [u32],
    ) -> Verdict
        requires { length self.now.entries.now ≤ length marks.old }
        ensures aca { result.aca ≡ not (some_below (dirty self.now.entries.now dones.now) (length self.now.entries.now)) }
        ensures cons { Snapshots self.now.entries.now (edges dependences.now.writers) (length self.now.entries.now) (length self.now.entries.now) result.cons }
        ensures wcf { Conflicts self.now.entries.now dones.now (edges dependences.now.writers) (edges dependences.now.readers) (length self.now.entries.now) (length self.now.entries.now) result.wcf }
    {
        let dirty = self.has_dirty_read(dones);
        let mut verdict = Verdict {
            aca: !dirty,
            cons: true,
            wcf: true,
        };
        let mut back = [0; PLACES];
        let mut queue = Queue::new();
        marks.fill(0);
        for (owner, entry) in self.entries.iter().enumerate() {
            if entry.owner as usize == owner {
                dependences.writers.search(owner, marks, &mut queue);
                verdict.cons = self.stays_consistent(verdict.cons, marks, owner);
                verdict.wcf = self.stays_free(
                    verdict.wcf,
                    dones,
                    &dependences.readers,
                    marks,
                    &mut back,
                    owner,
                );
                queue.clear(marks);
            }
            if !(verdict.cons || verdict.wcf) {
                return verdict;
            }
        }
        verdict
    }

    // Whether the snapshots so far are consistent, and that of this transaction, which is not asked where they are not.
    fn stays_consistent(&self, so_far: bool, marks: &[u32], owner: usize) -> bool
        ensures { result ≡ (so_far && not (is-stale self.now.entries.now marks.now owner)) }
    {
        so_far && !self.stale(marks, owner)
    }

    // Whether no transaction so far is in conflict, nor this one, which is not asked where one is.
    fn stays_free(
        &self,
        so_far: bool,
        dones: &[Option<u16>; PLACES],
        readers: &Graph,
        forward: &[u32],
        backward: &mut [u32],
        owner: usize,
    ) -> bool
        requires own { owner < length self.now.entries.now }
        requires backward { length self.now.entries.now ≤ length backward.old }
        ensures asked { so_far ≡ true → Asked self.now.entries.now dones.now (edges readers.now) (length self.now.entries.now) forward.now owner (not result) }
        ensures kept { so_far ≡ false → result ≡ false }
    {
        so_far && !self.conflicting(dones, readers, forward, backward, owner)
    }
}
