use referee::{Cause, Letters, Opinion};
use std::fmt;

// An opinion without the place of a refusal.
#[derive(Clone, Copy, PartialEq)]
pub struct Answer(pub Result<Letters, Cause>);

impl From<Opinion> for Answer {
    fn from(opinion: Opinion) -> Answer {
        Answer(opinion.0.map_err(|refusal| refusal.cause))
    }
}

impl fmt::Display for Answer {
    fn fmt<W: fmt::Write>(&self, f: &mut fmt::Formatter<W>) -> fmt::Result {
        match &self.0 {
            Ok(letters) => write!(f, "{letters}"),
            Err(cause) => write!(f, "REFUSED {}", cause.number()),
        }
    }
}
