ghost use Rattle.std.specs.Prelude.{◌≡◌, Some, length};
ghost use Rattle.verdicts.specs.Texts.{yes_or_no, verdict_text};

use arrayvec::ArrayString;
use std::fmt;

// What the judge says of a history: of each property, whether it holds.
#[derive(Clone, Copy, PartialEq, Eq, Debug)]
pub struct Verdict {
    // Only committed versions are read.
    pub aca: bool,
    // Every transaction's snapshot is consistent.
    pub cons: bool,
    // No two independent committed transactions write one card.
    pub wcf: bool,
}

/// How many bytes a verdict's text has.
pub const VERDICT_SIZE: usize = 18;

impl Verdict {
    /// The verdict in letters, as `ACA=Y CONS=N WCF=Y`.
    pub fn text(&self) -> ArrayString<VERDICT_SIZE>
        ensures { result.bytes ≡ verdict_text self.now }
    {
        let mut text = ArrayString::new();
        text.push_str("ACA=");
        text.push_str(letter(self.aca));
        text.push_str(" CONS=");
        text.push_str(letter(self.cons));
        text.push_str(" WCF=");
        text.push_str(letter(self.wcf));
        text
    }
}

fn letter(holds: bool) -> &'static str
    ensures value { result.now ≡ yes_or_no holds }
    ensures long { length result.now ≡ 1 }
{
    if holds { "Y" } else { "N" }
}

impl fmt::Display for Verdict {
    ghost output = { λ v. Some (verdict_text v) };

    fn fmt<W: fmt::Write>(&self, f: &mut fmt::Formatter<W>) -> fmt::Result {
        f.pad(self.text().as_str())
    }
}
