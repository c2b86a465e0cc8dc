ghost use Rattle.std.specs.Prelude.{◌≡◌};
ghost use Rattle.records.specs.Format.{fault_number};

// What is wrong with the bytes of a record, or with a line: its length, or the first bad field.
#[derive(Clone, Copy, PartialEq, Eq, Debug)]
pub enum RecordFault {
    // The part has not the length of a record.
    Length,
    // The first four bytes are the letters of no kind.
    Kind,
    // The transaction's number is not in its range.
    Transaction,
    // The card's number is not in its range, or stands where none belongs.
    Card,
    // The writer is not the one that the kind asks for.
    Writer,
    // Words stand where none belong.
    Words,
}

impl RecordFault {
    // The number of the refusal that the fault is told as. The five bad fields share one.
    pub fn number(self) -> u32
        ensures { result ≡ fault_number self }
    {
        match self {
            RecordFault::Length => 21,
            RecordFault::Kind
            | RecordFault::Transaction
            | RecordFault::Card
            | RecordFault::Writer
            | RecordFault::Words => 22,
        }
    }
}

// A record's fault and the record's place in its file, counted from 0.
#[derive(Clone, Copy, PartialEq, Eq, Debug)]
pub struct PlacedFault {
    pub fault: RecordFault,
    pub place: usize,
}
