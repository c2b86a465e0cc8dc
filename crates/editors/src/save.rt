// Saving a journal as a history file.
ghost use Rattle.std.specs.Prelude.{◌≡◌, true, false, IfOk, MatchOption};
ghost use Rattle.sessions.specs.Files.{file_of as bytes_of};
ghost use Rattle.editors.specs.Saving.{is_saveable, Saved};

use records::{Line, RECORD_SIZE};
use rules::LARGEST_FILE;
use sessions::{FileMemory, history_file};
use std::alloc::{AllocError, Global};

// The most lines that a history file takes: the judge refuses a longer one.
const MOST_LINES: usize = LARGEST_FILE / RECORD_SIZE;

/// Has a journal written as a history file, and says whether it was written.
///
/// It is not where it has more lines than a history file may have records, or a line with a bad
/// field; then nothing is written. And it is not where `write` fails.
pub(crate) fn save<E: Drop, F: FnOnce(&[u8]) -> Result<(), E>>(
    alloc: Global,
    lines: &[Line],
    write: F,
) -> Result<bool, AllocError>
    requires { F.IsAlwaysCallable write }
    ensures { IfOk result (Saved F.FnOnce write lines.now) }
{
    let Some(bytes) = file_of(alloc, lines)? else {
        return Ok(false);
    };
    Ok(write(&bytes).is_ok())
}

// The history file of a journal; none where it is not saved.
fn file_of(alloc: Global, lines: &[Line]) -> Result<Option<Vec<u8>>, AllocError>
    ensures { IfOk result (λ r. MatchOption r (is_saveable lines.now ≡ false)
        (λ v. (is_saveable lines.now ≡ true) × (v.items ≡ bytes_of lines.now))) }
{
    if lines.len() > MOST_LINES {
        return Ok(None);
    }
    let memory = FileMemory::reserve(alloc, lines)?;
    match history_file(memory) {
        Ok(bytes) => Ok(Some(bytes)),
        Err(_) => Ok(None),
    }
}
