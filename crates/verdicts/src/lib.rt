// What the judge is asked of a history, as definitions, and its verdict.
#![tactic(auto)]

pub mod verdict;

pub use verdict::Verdict;
