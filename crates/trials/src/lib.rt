// A generator of history files for the judges: good ones, ones that break each property, and damaged ones, from a seed.
#![tactic(auto)]

pub mod damage;
pub mod dice;
pub mod forms;
pub mod habits;
pub mod large;
pub mod lines;
pub mod misplaced;
pub mod script;
pub mod spoiled;
pub mod trial;

pub use large::Large;
pub use trial::{Edge, Trial};
