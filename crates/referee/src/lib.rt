// A second judge of history files, to hold the first one against. It keeps maps of its own and finds dependence as the
// closure of a matrix; with the first judge it shares the reading of a record and no other code.
#![tactic(auto)]

pub mod matrix;
pub mod opinion;
pub mod second;
pub mod tables;

pub use opinion::{Cause, Letters, Opinion, Refusal, UnknownNumber};
pub use second::second_judge;

#[cfg(test)]
mod tests;
