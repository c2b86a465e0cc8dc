ghost use Rattle.std.specs.Prelude.{◌≡◌};
ghost use Rattle.std.specs.Iterator.{item_count};
ghost use Rattle.records.specs.Parts.{parts_of, HandsOut};

use super::RECORD_SIZE;

// A window on the sender's bytes: it hands out one record after another, and copies none.
#[derive(Drop)]
pub struct RecordReader<'a> {
    bytes: &'a [u8],
    // How many records were handed out: the caller may ask for the place, as an iterator over parts of a list could not tell it.
    place: usize,
}

impl<'a> RecordReader<'a> {
    pub fn new(bytes: &'a [u8]) -> RecordReader<'a>
        ensures bytes { result.bytes.now ≡ bytes.now }
        ensures place { result.place ≡ 0 }
    {
        RecordReader { bytes, place: 0 }
    }

    // The place of the record that comes next, counted from 0.
    pub fn place(&self) -> usize
        ensures { result ≡ self.now.place }
    {
        let RecordReader { place, .. } = *self;
        place
    }
}

impl<'a> Iterator for RecordReader<'a> {
    type Item = &'a [u8];

    ghost next_gives = { HandsOut };

    ghost remaining = { item_count parts_of };

    // The next record's bytes; nothing where fewer bytes than a record's are left.
    fn next(&mut self) -> Option<&'a [u8]> {
        let bytes = self.bytes;
        let place = self.place;
        if place >= bytes.len() / RECORD_SIZE {
            return None;
        }
        let start = place * RECORD_SIZE;
        self.place = place + 1;
        Some(&bytes[start..start + RECORD_SIZE])
    }
}
