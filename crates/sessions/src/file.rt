// The journal as a history file.
ghost use Rattle.std.specs.Prelude.{◌≡◌, ◌*◌, length, List, IfOk, vec_items};
ghost use Rattle.std.specs.Result.{result_map_both};
ghost use Rattle.records.specs.declared.line.Line.{Line};
ghost use Rattle.transactions.specs.Journal.{InFile};
ghost use Rattle.sessions.specs.Files.{filed};
ghost use Rattle.sessions.specs.Room.{IsEmptyFor};

use records::{Line, RECORD_SIZE, RecordFault};
use std::alloc::{AllocError, Global};
use std::marker::Model;

/// Lines that are to be made into a history file, and room for their records. Making the file asks
/// for no more memory.
#[derive(Drop)]
pub struct FileMemory<'a> {
    lines: &'a [Line],
    bytes: Vec<u8>,
}

// A caller sees the lines.
impl<'a> Model for FileMemory<'a> {
    ghost Value = { List Line };

    ghost view = { λ m. m.lines.now };

    ghost invariant = { λ m. IsEmptyFor (length m.lines.now * 32) m.bytes };
}

impl<'a> FileMemory<'a> {
    /// Reserves the memory of a file of these lines. The error is that there is not enough.
    pub fn reserve(alloc: Global, lines: &'a [Line]) -> Result<FileMemory<'a>, AllocError>
        ensures { IfOk result (λ m. m ≡ lines.now) }
    {
        let size = lines.len().checked_mul(RECORD_SIZE).ok_or(AllocError)?;
        let bytes = Vec::with_capacity(alloc, size)?;
        Ok(FileMemory { lines, bytes })
    }
}

/// The file whose records are these lines. The error is the first bad field of the first line that
/// has one.
pub fn history_file(memory: FileMemory<'_>) -> Result<Vec<u8>, RecordFault>
    ensures answer { result_map_both vec_items (λ f. f) result ≡ filed memory.entry }
    ensures reads { IfOk result (λ v. InFile v.items memory.entry) }
{
    let FileMemory {
        lines,
        bytes: mut bytes,
    } = memory;
    for line in lines {
        let mut record = [0; RECORD_SIZE];
        line.encode(&mut record)?;
        bytes.extend_from_slice(&record).unwrap();
    }
    Ok(bytes)
}
