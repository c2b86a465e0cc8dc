// Whether a file is judged.
ghost use Rattle.std.specs.Prelude.{◌≡◌};
ghost use Rattle.std.specs.Result.{result_err};
ghost use Rattle.rules.specs.Rules.{accepted};
ghost use Rattle.rules.specs.FileLaw.{FileLaw};
ghost use Rattle.scan.specs.Scanning.{answered};

use super::told::Told;
use rules::{JudgeFault, whole_records};

/// Tests a file by the rules, in their order, given how many marks were lent. `Err` is the first fault.
pub fn accept(file: &[u8], marks: usize) -> Result<(), JudgeFault>
    ensures answer { result ≡ answered (accepted file.now marks) }
    ensures law { FileLaw file.now marks (result_err result) }
{
    let count = whole_records(file)?;
    if marks < count {
        return Err(JudgeFault::FewMarks);
    }
    let mut told = Told::new(file);
    told.scan()?;
    told.first_unended()
        .map_or(Ok(()), |place| Err(JudgeFault::NoEnd(place)))
}
