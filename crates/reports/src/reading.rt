ghost use Rattle.std.specs.Prelude.{IfOk};
ghost use Rattle.reports.specs.Reading.{IsReadFrom};

use history::LARGEST_FILE;
use std::alloc::Global;
use std::io;
use std::io::Read;

// One byte more than the largest file has, to see that a file is too long.
const READ_AT_MOST: u64 = LARGEST_FILE as u64 + 1;

/// Reads a file: all that comes, or its first 65,537 bytes where more comes. An error is the
/// reader's, or says that memory is wanting.
pub fn read_file<R: Read + Drop>(heap: Global, input: R) -> io::Result<Vec<u8>>
    ensures { IfOk result (λ file. IsReadFrom (R.remaining input) file.items) }
{
    let mut file = Vec::new(heap);
    input.take(READ_AT_MOST).read_to_end(&mut file)?;
    Ok(file)
}
