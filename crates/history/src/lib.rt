// The judge that says whether a history file obeys the rules, and what a program prints of its answer.
#![tactic(auto)]

mod judge_file;
pub mod refused;

pub use digest::Listing;
pub use judge_file::{judge, judge_by};
pub use records::{Kind, Line, PlacedFault, RECORD_SIZE, RecordFault, RecordReader};
pub use refused::Refused;
pub use rules::{JudgeFault, LARGEST_FILE, judge_fault, whole, whole_records};
pub use verdicts::{Verdict, verdict};

#[cfg(test)]
mod tests;
