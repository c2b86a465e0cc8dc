// What the judge keeps of a file's records, and what is asked of it.
#![tactic(auto)]

mod asks;
pub mod entry;
mod indexing;
mod listing;
mod register;

pub use entry::Entry;
pub use indexing::index;
pub use listing::Listing;
