ghost use Rattle.std.specs.Prelude.{◌≤◌, length};
ghost use Rattle.records.specs.Parts.{records_in};
ghost use Rattle.digest.specs.Entries.{Sound};
ghost use Rattle.digest.specs.Told.{Indexed};

use super::entry::Entry;
use super::listing::Listing;
use super::register::Register;
use arrayvec::ArrayVec;
use reach::PLACES;
use records::{Line, RecordReader};

// The entries of the file's records, up to the first that is bad, and of 2,048 at most.
pub fn index<W: Listing>(file: &[u8]) -> ArrayVec<Entry, PLACES>
    ensures few { (length result.items ≤ records_in file.now) × (length result.items ≤ 2048) }
    ensures sound { Sound result.items }
    ensures indexed { records_in file.now ≤ 2048 → Indexed file.now (records_in file.now) result.items }
{
    let mut register = Register::<W>::new();
    for part in RecordReader::new(file) {
        if register.is_full() {
            break;
        }
        let Ok(line) = Line::decode(part) else {
            break;
        };
        register.push(&line);
    }
    register.into_entries()
}
