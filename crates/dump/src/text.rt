ghost use Rattle.std.specs.Prelude.{◌≡◌, ◌+◌, ◌<◌, ◌≤◌, [], ◌++◌, length};
ghost use Rattle.std.specs.Prelude.{string_bytes, string_len, string_capacity};
ghost use Rattle.records.specs.Format.{decoded, placed_at};
ghost use Rattle.history.specs.Texts.{with_newline};
ghost use Rattle.dump.specs.Dump.{dump_text};
ghost use Rattle.dump.specs.Ends.{judged_at, end_line};
ghost use Rattle.dump.specs.declared.text.TheConstants.{MOST_PRINTED};

use super::counts::{COUNTS_SIZE, Counts};
use history::{JudgeFault, Line, RecordReader, Refused, whole_records};
use records::show::LINE_SIZE;
use reports::line::MOST_RECORDS;
use std::alloc::{AllocError, Global};

// The most that is printed of a file: a line for each record, and the counts. A refusal is shorter
// than the counts.
const MOST_PRINTED: usize = MOST_RECORDS * (LINE_SIZE + 1) + (COUNTS_SIZE + 1);

/// Memory for what is printed of a file. It is enough for any file, and is reserved before one is
/// looked at, so that writing the text cannot fail.
#[derive(Drop)]
pub struct TextMemory {
    text: String,
    ghost empty: { string_bytes text ≡ [] },
    ghost room: { MOST_PRINTED ≤ string_capacity text },
}

impl TextMemory {
    /// Reserves it. The one error is that memory is wanting.
    pub fn reserve(heap: Global) -> Result<TextMemory, AllocError> {
        let text = String::with_capacity(heap, MOST_PRINTED)?;
        Ok(TextMemory { text })
    }
}

// Writes a line, for which there is room.
fn push_line(text: &mut String, line: &str)
    requires { string_len text.old + length line.now < string_capacity text.old }
    ensures bytes { string_bytes text.new ≡ string_bytes text.old ++ with_newline line.now }
    ensures len { string_len text.new ≡ string_len text.old + length line.now + 1 }
    ensures capacity { string_capacity text.old ≤ string_capacity text.new }
{
    text.push_str(line).unwrap();
    text.push('\n').unwrap();
}

// The line of the record at this place of a file.
fn line_at(part: &[u8], place: usize) -> Result<Line, JudgeFault>
    ensures { result ≡ judged_at (placed_at place (decoded part.now)) }
{
    Ok(Line::decode_at(part, place)?)
}

// Writes a line for each record, up to the first refusal: all of the file's text but its last line,
// for which there is room then.
fn write_lines(text: &mut String, file: &[u8]) -> Result<Counts, JudgeFault>
    requires empty { string_len text.old ≡ 0 }
    requires room { MOST_PRINTED ≤ string_capacity text.old }
    ensures bytes { string_bytes text.new ++ end_line result ≡ string_bytes text.old ++ dump_text file.now }
    ensures room { string_len text.new + COUNTS_SIZE < string_capacity text.new }
{
    whole_records(file)?;
    let mut counts = Counts::default();
    for (place, part) in RecordReader::new(file).enumerate() {
        let line = line_at(part, place)?;
        push_line(text, line.text().as_str());
        counts.add(line.kind);
    }
    Ok(counts)
}

/// All that the program prints of a file, for any bytes.
pub fn dump_text(memory: TextMemory, file: &[u8]) -> String
    ensures { string_bytes result ≡ dump_text file.now }
{
    let TextMemory { mut text } = memory;
    match write_lines(&mut text, file) {
        Ok(counts) => push_line(&mut text, counts.text().as_str()),
        Err(fault) => push_line(&mut text, Refused::from(fault).text().as_str()),
    }
    text
}
