ghost use Rattle.std.specs.Prelude.{◌≡◌, Some};
ghost use Rattle.records.specs.Words.{line_text};

use super::kind::Kind;
use super::line::Line;
use arrayvec::ArrayString;
use itoa::Buffer;
use stamps::Value;
use std::fmt;

/// How many bytes a line's text has at most: that of a WRIT, with the longest decimals of its numbers.
pub const LINE_SIZE: usize = 79;

impl Line {
    /// The line as a reader wants it: the kind, and the numbers that the kind has, in decimal.
    pub fn text(&self) -> ArrayString<LINE_SIZE>
        ensures { result.bytes ≡ line_text self.now }
    {
        let mut text = ArrayString::new();
        let transaction = self.transaction.0;
        let card = self.card.0;
        match self.kind {
            Kind::Read => {
                text.push_str("READ ");
                text.push_str(Buffer::new().format(transaction));
                text.push_str(" card ");
                text.push_str(Buffer::new().format(card));
                text.push_str(" writer ");
                text.push_str(Buffer::new().format(self.writer.0));
            }
            Kind::Writ => {
                let Value { first, second } = self.value;
                text.push_str("WRIT ");
                text.push_str(Buffer::new().format(transaction));
                text.push_str(" card ");
                text.push_str(Buffer::new().format(card));
                text.push_str(" words ");
                text.push_str(Buffer::new().format(first));
                text.push_str(" ");
                text.push_str(Buffer::new().format(second));
            }
            Kind::Done => {
                text.push_str("DONE ");
                text.push_str(Buffer::new().format(transaction));
            }
            Kind::Gone => {
                text.push_str("GONE ");
                text.push_str(Buffer::new().format(transaction));
            }
        }
        text
    }
}

impl fmt::Display for Line {
    ghost output = { λ l. Some (line_text l) };

    fn fmt<W: fmt::Write>(&self, f: &mut fmt::Formatter<W>) -> fmt::Result {
        f.pad(self.text().as_str())
    }
}
