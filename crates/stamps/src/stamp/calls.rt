// What a stamp answers, and how stamps are made from others.
ghost use Rattle.std.specs.Prelude.{◌≡◌, ℕ, ◌<◌, true, length, if◌then◌else◌, Some, None, slice_index};
ghost use Rattle.std.specs.Option.{option_map};
ghost use Rattle.stamps.specs.Counts.{room, counts_at, joined, bumped, cut, all_small, countable};
ghost use Rattle.stamps.specs.Entries.{entries};

use crate::numbers::CardNo;
use crate::stamp::Stamp;

// How many counts a stamp has room for.
const ROOM: usize = 256;

// The largest count.
const MOST: u32 = 65_535;

impl Stamp {
    // The stamp of version 0.
    pub fn zero() -> Stamp
        ensures { entries result ≡ (λ _. 0) }
    {
        Stamp { counts: [0; ROOM] }
    }

    // The stamp with these counts and zeros after them; none if it has no room for them, or one is above 65,535.
    pub fn from_counts(list: &[u32]) -> Option<Stamp>
        ensures { option_map entries result ≡ (if countable room list.now then Some (counts_at list.now) else None) }
    {
        if list.len() > ROOM {
            return None;
        }
        let mut counts = [0; ROOM];
        // All counts are gone through, also behind one that is too large: a loop that may leave early takes twice as long.
        let mut all_fit = true;
        for (i, n) in list.iter().enumerate() {
            all_fit &= *n <= MOST;
            counts[i] = (*n).min(MOST) as u16;
        }
        if !all_fit {
            return None;
        }
        Some(Stamp { counts })
    }

    // The count of one card.
    pub fn entry(&self, of: CardNo) -> u16
        ensures { result ≡ entries self.now of.0 }
    {
        self.counts.get(of.0 as usize).copied().unwrap_or(0)
    }

    // The counts below `width`, and zeros from there on.
    pub fn cut_at(&self, width: u32) -> Stamp
        ensures { entries result ≡ cut width (entries self.now) }
    {
        let mut counts = self.counts;
        counts[(width as usize).min(ROOM)..].fill(0);
        Stamp { counts }
    }

    // The counts in their order, in the form in which a shelf takes them.
    pub fn list(&self) -> [u32; 256]
        ensures full { length result ≡ room }
        ensures same { counts_at result ≡ entries self.now }
        ensures small { all_small result ≡ true }
    {
        // By a loop: tried with the array's `map`, which goes an `Option` at a time, a list takes 670 ns in place of 67, and a commit twice as long.
        let mut list = [0; ROOM];
        for (i, count) in self.counts.iter().enumerate() {
            list[i] = u32::from(*count);
        }
        list
    }

    // The greater count of the two at each card.
    pub fn join(&mut self, other: &Stamp)
        ensures { entries self.new ≡ joined (entries self.old) (entries other.now) }
    {
        raise(&mut self.counts, &other.counts);
    }

    // One more at a card, stopping at 65,535.
    pub fn bump(&mut self, of: CardNo)
        ensures { entries self.new ≡ bumped (entries self.old) of.0 }
    {
        let at = of.0 as usize;
        if at < ROOM {
            self.counts[at] = self.counts[at].saturating_add(1);
        }
    }
}

// Raises each count to that of `other`.
fn raise(mine: &mut [u16; 256], other: &[u16; 256])
    ensures full { length mine.new ≡ 256 }
    ensures raised { (k : ℕ) → slice_index mine.new k ≡ joined (counts_at mine.old) (counts_at other.now) k }
{
    for (i, count) in mine.iter_mut().enumerate() {
        *count = (*count).max(other[i]);
    }
}
