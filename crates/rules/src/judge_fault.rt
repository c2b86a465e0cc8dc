ghost use Rattle.std.specs.Prelude.{◌≡◌};
ghost use Rattle.rules.specs.Rules.{judge_number, judge_place, judged};

use super::whole::LARGEST_FILE;
use records::{PlacedFault, RECORD_SIZE};

// Why a file is not judged: what is wrong first, and at which record, counted from 0.
#[derive(Clone, Copy, PartialEq, Eq, Debug)]
pub enum JudgeFault {
    // More bytes than the largest file has.
    TooLong,
    // A record is cut short, or has a bad field.
    Record(PlacedFault),
    // The caller lent fewer marks than there are records.
    FewMarks,
    // The record may not stand where it stands.
    OutOfPlace(usize),
    // The record's transaction has no end in the file.
    NoEnd(usize),
}

impl JudgeFault {
    // The number of the refusal: a record's fault has its own, and the others carry places, so each is named.
    pub fn number(self) -> u32
        ensures { result ≡ judge_number self }
    {
        match self {
            JudgeFault::TooLong => 20,
            JudgeFault::Record(placed) => placed.fault.number(),
            JudgeFault::OutOfPlace(_) => 23,
            JudgeFault::NoEnd(_) => 24,
            JudgeFault::FewMarks => 25,
        }
    }

    // The place of the record that is refused, counted from 0; of a file that is too long, that of the first too many.
    pub fn place(self) -> usize
        ensures { result ≡ judge_place self }
    {
        match self {
            JudgeFault::TooLong => LARGEST_FILE / RECORD_SIZE,
            JudgeFault::Record(placed) => placed.place,
            JudgeFault::OutOfPlace(place) | JudgeFault::NoEnd(place) => place,
            JudgeFault::FewMarks => 0,
        }
    }
}

impl From<PlacedFault> for JudgeFault {
    ghost from_gives = { λ p r. r ≡ judged p };

    fn from(fault: PlacedFault) -> JudgeFault {
        JudgeFault::Record(fault)
    }
}
