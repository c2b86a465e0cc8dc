ghost use Rattle.std.specs.Prelude.{◌≡◌, ℕ, ◌<◌, None, length, slice_index_or};
ghost use Rattle.answers.specs.Questions.{comes_before, committed, done_in, dirty, some_below};

use super::listed::Listed;
use digest::Listing;
use reach::PLACES;

// Whether the transaction has a DONE.
pub(crate) fn is_committed(dones: &[Option<u16>; PLACES], owner: u16) -> bool
    ensures { result ≡ committed dones.now owner }
{
    dones.get(owner as usize).copied().flatten().is_some()
}

// Whether there is a DONE, before the place.
fn is_earlier(done: Option<u16>, place: usize) -> bool
    ensures { result ≡ comes_before done place }
{
    done.is_some_and(|done| (done as usize) < place)
}

impl<W: Listing> Listed<'_, W> {
    // By owner: the place of the transaction's first DONE, if it has one.
    pub(crate) fn dones(&self) -> [Option<u16>; PLACES]
        ensures { (o : ℕ) → o < 2048 → slice_index_or result o None ≡ done_in self.now.entries.now o (length self.now.entries.now) }
    {
        let mut dones = [None; PLACES];
        for (place, entry) in self.entries.iter().enumerate() {
            let owner = entry.owner as usize;
            if entry.is_done() && dones[owner].is_none() {
                dones[owner] = Some(place as u16);
            }
        }
        dones
    }

    // Whether a READ is from a transaction without an earlier DONE.
    pub(crate) fn has_dirty_read(&self, dones: &[Option<u16>; PLACES]) -> bool
        ensures { result ≡ some_below (dirty self.now.entries.now dones.now) (length self.now.entries.now) }
    {
        for (place, entry) in self.entries.iter().enumerate() {
            if entry.is_step() {
                let writer = self.entries[entry.version as usize - 1].owner as usize;
                if !is_earlier(dones[writer], place) {
                    return true;
                }
            }
        }
        false
    }
}
