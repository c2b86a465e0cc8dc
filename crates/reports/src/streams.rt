ghost use Rattle.std.specs.Prelude.{OnOk};
ghost use Rattle.reports.specs.Printed.{PrintsFrom};

use crate::line::judge_line;
use crate::reading::read_file;
use std::alloc::Global;
use std::io;
use std::io::{Read, Write};

/// All that program `judge` does: reads a file, and writes the line of it. An error is the reader's
/// or the writer's, or says that memory is wanting.
pub fn judge_stream<R: Read + Drop, W: Write>(
    heap: Global,
    input: R,
    output: &mut W,
) -> io::Result<()>
    ensures { OnOk result
        (PrintsFrom (R.remaining input) (W.contents output.old) (W.contents output.new)) }
{
    let file = read_file(heap, input)?;
    let line = judge_line(&file);
    let text = line.as_str();
    output.write_all(text.as_bytes())
}
