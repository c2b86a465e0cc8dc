use records::RecordFault;
use std::fmt;

// Of each property, whether it holds of a history; of its own, since the two judges share no answer's type and no text.
#[derive(Clone, Copy, PartialEq, Debug)]
pub struct Letters {
    // Only committed versions are read.
    pub aca: bool,
    // Every transaction's snapshot is consistent.
    pub cons: bool,
    // No two independent committed transactions write one card.
    pub wcf: bool,
}

// What can be wrong with a file, or with the marks for it; each has the number under which it is told.
#[derive(Clone, Copy, PartialEq, Eq, Debug)]
pub enum Cause {
    TooLong = 20,
    Cut = 21,
    BadField = 22,
    OutOfPlace = 23,
    NoEnd = 24,
    FewMarks = 25,
}

impl Cause {
    pub const ALL: [Cause; 6] = [
        Cause::TooLong,
        Cause::Cut,
        Cause::BadField,
        Cause::OutOfPlace,
        Cause::NoEnd,
        Cause::FewMarks,
    ];

    pub fn number(self) -> u32 {
        self as u32
    }
}

// A record's fault as the cause of a refusal.
impl From<RecordFault> for Cause {
    fn from(fault: RecordFault) -> Cause {
        match fault {
            RecordFault::Length => Cause::Cut,
            RecordFault::Kind
            | RecordFault::Transaction
            | RecordFault::Card
            | RecordFault::Writer
            | RecordFault::Words => Cause::BadField,
        }
    }
}

// A number under which nothing is told.
#[derive(Clone, Copy, PartialEq, Eq, Debug)]
pub struct UnknownNumber(pub u32);

impl TryFrom<u32> for Cause {
    type Error = UnknownNumber;

    fn try_from(number: u32) -> Result<Cause, UnknownNumber> {
        Cause::ALL
            .iter()
            .copied()
            .find(|cause| cause.number() == number)
            .ok_or(UnknownNumber(number))
    }
}

// Why a file is not judged, and the place of a record, counted from 0.
#[derive(Clone, Copy, PartialEq, Debug)]
pub struct Refusal {
    pub cause: Cause,
    pub place: usize,
}

/// What a judge answers.
#[derive(Clone, Copy, PartialEq, Debug)]
pub struct Opinion(pub Result<Letters, Refusal>);

// The letter for a yes or a no.
fn letter(holds: bool) -> char {
    if holds { 'Y' } else { 'N' }
}

impl fmt::Display for Letters {
    fn fmt<W: fmt::Write>(&self, f: &mut fmt::Formatter<W>) -> fmt::Result {
        let aca = letter(self.aca);
        let cons = letter(self.cons);
        let wcf = letter(self.wcf);
        write!(f, "ACA={aca} CONS={cons} WCF={wcf}")
    }
}

// As program `judge` prints it.
impl fmt::Display for Opinion {
    fn fmt<W: fmt::Write>(&self, f: &mut fmt::Formatter<W>) -> fmt::Result {
        match self.0 {
            Ok(letters) => write!(f, "{letters}"),
            Err(refusal) => {
                let number = refusal.cause.number();
                let place = refusal.place;
                write!(f, "REFUSED {number} AT {place}")
            }
        }
    }
}
