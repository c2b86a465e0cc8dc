// The tests of a history file by its rules, in their order.
#![tactic(auto)]

mod acceptance;
mod deed;
mod told;

pub use acceptance::accept;
