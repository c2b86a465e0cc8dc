ghost use Rattle.std.specs.Prelude.{◌≡◌};
ghost use Rattle.rules.specs.Rules.{counted};

use super::judge_fault::JudgeFault;
use records::{PlacedFault, RECORD_SIZE, RecordFault};

// How many bytes a file has at most.
pub const LARGEST_FILE: usize = 65_536;

// How many records a file has: refused where it is too long, or where its last record is cut.
pub fn whole_records(file: &[u8]) -> Result<usize, JudgeFault>
    ensures { result ≡ counted file.now }
{
    if file.len() > LARGEST_FILE {
        return Err(JudgeFault::TooLong);
    }
    let place = file.len() / RECORD_SIZE;
    if file.len() % RECORD_SIZE != 0 {
        return Err(JudgeFault::Record(PlacedFault {
            fault: RecordFault::Length,
            place,
        }));
    }
    Ok(place)
}
