// What the journal answers, and how it grows.
ghost use Rattle.std.specs.Prelude.{◌≡◌, ◌-◌, ◌<◌, [], vec_len, nat_eq};
ghost use Rattle.transactions.specs.State.{last_at};
ghost use Rattle.journals.specs.Journals.{log_of, log_room, with_line};

use crate::journal::Journal;
use entries::last_with;
use records::Line;
use stamps::TxNo;

impl Journal {
    // A journal with room for so many lines.
    pub fn new(mut lines: Vec<Line>) -> Journal
        ensures { log_of result ≡ record { size = vec_len lines; lines = [] } }
    {
        let size = lines.len();
        lines.clear();
        Journal { lines, size }
    }

    // The lines written.
    pub fn written(&self) -> &[Line]
        ensures { result.now ≡ (log_of self.now).lines }
    {
        &self.lines
    }

    // The place of the last line of a transaction.
    pub fn last(&self, number: TxNo) -> Option<usize>
        ensures { result ≡ last_at (λ l. nat_eq l.transaction.0 number.0) (log_of self.now).lines }
    {
        last_with(self.written(), number)
    }

    // How many more lines it takes.
    pub fn room(&self) -> usize
        ensures { result ≡ log_room (log_of self.now) }
    {
        self.size - self.lines.len()
    }

    // Writes one line more.
    pub(crate) fn add(&mut self, line: Line)
        requires { 0 < log_room (log_of self.old) }
        ensures { log_of self.new ≡ with_line (log_of self.old) line }
    {
        self.lines.push_reserved(line);
    }

    // Forgets every line.
    pub fn clear(&mut self)
        ensures { log_of self.new ≡ record { size = (log_of self.old).size; lines = [] } }
    {
        self.lines.clear();
    }
}
