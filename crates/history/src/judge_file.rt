// The judge of history files.
ghost use Rattle.std.specs.Prelude.{◌≡◌, length, replicate};
ghost use Rattle.std.specs.Result.{result_err};
ghost use Rattle.rules.specs.Rules.{accepted};
ghost use Rattle.rules.specs.FileLaw.{FileLaw};
ghost use Rattle.history.specs.Judging.{Answers};

use answers::judged_by;
use digest::Listing;
use reach::Graph;
use rules::JudgeFault;
use scan::accept;
use verdicts::Verdict;

/// Whether a history file obeys the rules: of each property whether it holds, or why the file is not
/// judged. The marks are working counts, one for each record; whatever they held, all are 0 at the
/// end. The entries of the file are come by along links.
pub fn judge(file: &[u8], marks: &mut [u32]) -> Result<Verdict, JudgeFault>
    ensures answer { Answers (accepted file.now (length marks.old)) result }
    ensures law { FileLaw file.now (length marks.old) (result_err result) }
    ensures clear { marks.new ≡ replicate (length marks.old) 0 }
{
    judge_by::<Graph>(file, marks)
}

/// The same, by any listing of the entries.
pub fn judge_by<W: Listing>(file: &[u8], marks: &mut [u32]) -> Result<Verdict, JudgeFault>
    ensures answer { Answers (accepted file.now (length marks.old)) result }
    ensures law { FileLaw file.now (length marks.old) (result_err result) }
    ensures clear { marks.new ≡ replicate (length marks.old) 0 }
{
    marks.fill(0);
    accept(file, marks.len())?;
    Ok(judged_by::<W>(file, marks))
}
