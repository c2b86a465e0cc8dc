ghost use Rattle.std.specs.Prelude.{◌≡◌, ◌==◌, Some};
ghost use Rattle.std.proofs.Common.{rules};
ghost use Rattle.std.specs.Cmp.Rules.{comparing};
ghost use Rattle.std.specs.Ordering.{on, eq_of_both};
ghost use Rattle.history.specs.Texts.{refused as refusal-of, refused_text};
ghost use Rattle.rules.specs.Rules.{judge_number, judge_place};

use arrayvec::ArrayString;
use itoa::Buffer;
use rules::JudgeFault;
use std::fmt;

// A fault, as a program prints it: the refusal's number, and the record place, counted from 0.
#[derive(Clone, Copy, Debug)]
pub struct Refused {
    pub fault: JudgeFault,
}

// Two are equal exactly where the same is printed of them: faults of two fields of one record are.
impl PartialEq for Refused {
    ghost eq = { eq_of_both (on (λ r. judge_number r.fault) ◌==◌) (on (λ r. judge_place r.fault) ◌==◌) };

    ghost laws = { Prim.search (comparing, rules) };

    fn eq(&self, other: &Refused) -> bool {
        self.fault.number() == other.fault.number() && self.fault.place() == other.fault.place()
    }
}

impl Eq for Refused {
    ghost laws = { Prim.search (comparing, rules) };
}

impl From<JudgeFault> for Refused {
    ghost from_gives = { λ f r. r ≡ refusal-of f };

    fn from(fault: JudgeFault) -> Refused {
        Refused { fault }
    }
}

/// How many bytes a refusal's text has at most: two words, and the decimals of two numbers.
pub const REFUSED_SIZE: usize = 42;

impl Refused {
    /// The refusal in words, as `REFUSED 23 AT 5`.
    pub fn text(&self) -> ArrayString<REFUSED_SIZE>
        ensures { result.bytes ≡ refused_text self.now }
    {
        let number = self.fault.number();
        let place = self.fault.place();
        let mut text = ArrayString::new();
        text.push_str("REFUSED ");
        text.push_str(Buffer::new().format(number));
        text.push_str(" AT ");
        text.push_str(Buffer::new().format(place));
        text
    }
}

impl fmt::Display for Refused {
    ghost output = { λ r. Some (refused_text r) };

    fn fmt<W: fmt::Write>(&self, f: &mut fmt::Formatter<W>) -> fmt::Result {
        f.pad(self.text().as_str())
    }
}
