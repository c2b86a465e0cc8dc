ghost use Rattle.std.specs.Prelude.{OnOk};
ghost use Rattle.dump.specs.Dump.{PrintsFrom};

use super::text::{TextMemory, dump_text};
use reports::read_file;
use std::alloc::Global;
use std::io;
use std::io::{Read, Write};

/// All that the program does: reads a file, and writes the text of it. An error is the reader's or
/// the writer's, or says that memory is wanting.
pub fn dump_stream<R: Read + Drop, W: Write>(
    heap: Global,
    input: R,
    output: &mut W,
) -> io::Result<()>
    ensures { OnOk result
        (PrintsFrom (R.remaining input) (W.contents output.old) (W.contents output.new)) }
{
    let file = read_file(heap, input)?;
    let memory = TextMemory::reserve(heap)?;
    let printed = dump_text(memory, &file);
    let text = printed.as_str();
    output.write_all(text.as_bytes())
}
