// What the programs that carry out a script share: the size of a shelf in words, its making, and how the counts of a stamp are printed.
#![tactic(auto)]

pub mod counts;
pub mod makes;
pub mod sizes;

pub use counts::Counts;
pub use makes::{Made, Make, make_shelf};
pub use sizes::size_of;
