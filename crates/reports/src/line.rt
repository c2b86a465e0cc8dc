ghost use Rattle.std.specs.Prelude.{◌≡◌, ◌≢◌};
ghost use Rattle.rules.specs.Rules.{accepted};
ghost use Rattle.rules.specs.declared.judge_fault.JudgeFault.TheVariants.{FewMarks};
ghost use Rattle.reports.specs.Printed.{most_records, IsPrinted};

use arrayvec::ArrayString;
use history::refused::REFUSED_SIZE;
use history::{LARGEST_FILE, RECORD_SIZE, Refused, judge};

/// How many records a file has at most. As many marks are lent to the judge.
pub const MOST_RECORDS: usize = LARGEST_FILE / RECORD_SIZE;

// A verdict's line is shorter.
const LINE_SIZE: usize = REFUSED_SIZE + 1;

/// The line that program `judge` prints of a file.
pub type JudgeLine = ArrayString<LINE_SIZE>;

/// Judges any bytes as a history file: the verdict's line, or the refusal's.
pub fn judge_line(file: &[u8]) -> JudgeLine
    ensures line { IsPrinted file.now result.bytes }

    // There are marks enough for every file.
    ensures enough { accepted file.now most_records ≢ Err FewMarks }
{
    let mut marks = [0; MOST_RECORDS];
    let mut line = JudgeLine::new();
    match judge(file, &mut marks) {
        Ok(verdict) => line.push_str(verdict.text().as_str()),
        Err(fault) => line.push_str(Refused::from(fault).text().as_str()),
    }
    line.push('\n');
    line
}
