// The judge of history files.
ghost use Rattle.std.specs.Prelude.{◌≡◌, length, replicate};
ghost use Rattle.std.specs.Result.{result_err};
ghost use Rattle.rules.specs.Rules.{accepted};
ghost use Rattle.rules.specs.FileLaw.{FileLaw};
ghost use Rattle.history.specs.Judging.{Answers};

use super::every::EveryPlace;
use history::judge_by;
use rules::JudgeFault;
use verdicts::Verdict;

/// Whether a history file obeys the rules: of each property whether it holds, or why the file is not
/// judged. The marks are working counts, one for each record; whatever they held, all are 0 at the
/// end.
pub fn judge(file: &[u8], marks: &mut [u32]) -> Result<Verdict, JudgeFault>
    ensures answer { Answers (accepted file.now (length marks.old)) result }
    ensures law { FileLaw file.now (length marks.old) (result_err result) }
    ensures clear { marks.new ≡ replicate (length marks.old) 0 }
{
    judge_by::<EveryPlace>(file, marks)
}
