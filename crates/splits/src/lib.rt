// A shelf that stands on two others.
#![tactic(auto)]

mod split;

pub use split::{Side, SplitShelf};
