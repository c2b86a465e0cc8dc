use history::{JudgeFault, Verdict, judge};
use referee::{Cause, Letters, Opinion, Refusal};
use std::alloc::{AllocError, Global};
use trials::Trial;

// What each mark holds before the judge gets it.
const STALE_MARK: u32 = 7;

// What the judge says of a trial; nothing where it leaves a mark that is not 0, or refuses under a number that nothing is told under.
pub fn first_opinion(heap: Global, trial: &Trial) -> Result<Option<Opinion>, AllocError> {
    let mut marks = vec![in heap; STALE_MARK; trial.marks]?;
    let answer = judge(trial.file.as_slice(), marks.as_mut_slice());
    if marks.iter().any(|mark| *mark != 0) {
        return Ok(None);
    }
    Ok(match answer {
        Ok(verdict) => Some(Opinion(Ok(letters(verdict)))),
        Err(fault) => refusal(fault).map(|refusal| Opinion(Err(refusal))),
    })
}

fn letters(verdict: Verdict) -> Letters {
    let Verdict { aca, cons, wcf } = verdict;
    Letters { aca, cons, wcf }
}

fn refusal(fault: JudgeFault) -> Option<Refusal> {
    let cause = Cause::try_from(fault.number()).ok()?;
    Some(Refusal {
        cause,
        place: fault.place(),
    })
}
