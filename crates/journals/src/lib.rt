// The journal of commits. Only the catalogue's own crates use this one: adding a commit's block asks its caller for the tests that come before.
#![tactic(auto)]

mod blocks;
mod journal;
mod rising;

pub use blocks::log_block;
pub use journal::Journal;
