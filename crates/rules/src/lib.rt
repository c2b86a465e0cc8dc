// The rules of a history file: what they say, as definitions, what is wrong first with a file, and the test of its size.
#![tactic(auto)]

pub mod judge_fault;
pub mod whole;

pub use judge_fault::JudgeFault;
pub use whole::{LARGEST_FILE, whole_records};
