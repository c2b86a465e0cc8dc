ghost use Rattle.std.specs.Prelude.{◌≤◌, vec_len};

use super::answer::Answer;
use super::first::first_opinion;
use referee::{Cause, Letters, Opinion, second_judge};
use std::alloc::{AllocError, Global};
use std::fmt;
use trials::Trial;

// What the two judges said so far.
#[derive(Drop)]
pub struct Comparison {
    heap: Global,
    // The second judge's opinions, in the order of the histories.
    opinions: Vec<Opinion>,
    // Which histories the judges differ on, counted from 0.
    differences: Vec<usize>,
}

impl Comparison {
    pub fn new(heap: Global) -> Comparison {
        Comparison {
            heap,
            opinions: Vec::new(heap),
            differences: Vec::new(heap),
        }
    }

    // Has both judges say what they think of one more history.
    pub fn add(&mut self, trial: &Trial) -> Result<(), AllocError> {
        let second = second_judge(self.heap, trial.file.as_slice(), trial.marks)?;
        let first = first_opinion(self.heap, trial)?;
        if first != Some(second) {
            let history = self.opinions.len();
            self.differences.push(history)?;
        }
        self.opinions.push(second)?;
        Ok(())
    }

    // How many histories were answered so.
    fn times(&self, answer: Answer) -> usize
        ensures { result ≤ vec_len self.now.opinions }
    {
        self.opinions
            .iter()
            .filter(|opinion| Answer::from(**opinion) == answer)
            .count()
    }

    fn show_answer<W: fmt::Write>(&self, answer: Answer, f: &mut fmt::Formatter<W>) -> fmt::Result {
        let times = self.times(answer);
        writeln!(f, "{answer}: {times}")
    }

    // Every answer that there is, and how many histories have it.
    fn show_answers<W: fmt::Write>(&self, f: &mut fmt::Formatter<W>) -> fmt::Result {
        for aca in [true, false] {
            for cons in [true, false] {
                for wcf in [true, false] {
                    self.show_answer(Answer(Ok(Letters { aca, cons, wcf })), f)?;
                }
            }
        }
        for cause in Cause::ALL {
            self.show_answer(Answer(Err(cause)), f)?;
        }
        Ok(())
    }
}

impl fmt::Display for Comparison {
    fn fmt<W: fmt::Write>(&self, f: &mut fmt::Formatter<W>) -> fmt::Result {
        let histories = self.opinions.len();
        writeln!(f, "{histories} histories")?;
        self.show_answers(f)?;
        for history in self.differences.iter() {
            writeln!(f, "history {history} differs")?;
        }
        let differences = self.differences.len();
        write!(f, "{differences} differences")
    }
}
