ghost use Rattle.std.specs.Prelude.{◌≡◌, ◌+◌, ◌^◌, ◌<◌, ◌≤◌, ◌++◌, length, decimal};
ghost use Rattle.arrayvec.specs.ArrayString.{array_string_len};
ghost use Rattle.dump.specs.Dump.{total as total_of, counted_in, counts_text};

use arrayvec::ArrayString;
use history::Kind;
use itoa::Buffer;

// How many records of each kind have come.
#[derive(Clone, Copy, Default)]
pub struct Counts {
    pub reads: u32,
    pub writs: u32,
    pub dones: u32,
    pub gones: u32,
}

impl Counts {
    // Counts one record more.
    pub fn add(&mut self, kind: Kind)
        requires { total_of self.old + 1 < 2 ^ 32 }
        ensures { self.new ≡ counted_in self.old kind }
    {
        match kind {
            Kind::Read => self.reads += 1,
            Kind::Writ => self.writs += 1,
            Kind::Done => self.dones += 1,
            Kind::Gone => self.gones += 1,
        }
    }

    pub fn total(&self) -> u64
        ensures { result ≡ total_of self.now }
    {
        u64::from(self.reads)
            + u64::from(self.writs)
            + u64::from(self.dones)
            + u64::from(self.gones)
    }
}

/// How many bytes the counts' text has at most.
pub const COUNTS_SIZE: usize = 96;

impl Counts {
    /// The counts in words, as `4 records: 1 READ, 1 WRIT, 1 DONE, 1 GONE`.
    pub fn text(&self) -> ArrayString<COUNTS_SIZE>
        ensures { result.bytes ≡ counts_text self.now }
    {
        let mut text = ArrayString::new();
        text.push_str(Buffer::new().format(self.total()));
        text.push_str(" records: ");
        push_count(&mut text, self.reads, " READ, ");
        push_count(&mut text, self.writs, " WRIT, ");
        push_count(&mut text, self.dones, " DONE, ");
        push_count(&mut text, self.gones, " GONE");
        text
    }
}

// Puts a count and a word behind the text, for which there is room.
fn push_count(text: &mut ArrayString<COUNTS_SIZE>, count: u32, word: &str)
    requires { array_string_len text.old + 10 + length word.now ≤ COUNTS_SIZE }
    ensures bytes { text.new.bytes ≡ text.old.bytes ++ (decimal count ++ word.now) }
    ensures len { array_string_len text.new ≤ array_string_len text.old + 10 + length word.now }
{
    text.push_str(Buffer::new().format(count));
    text.push_str(word);
}
