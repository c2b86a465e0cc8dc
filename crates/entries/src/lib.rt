// What stands in the books of a catalogue, and the search for an entry by its number. Anyone may use this crate.
#![tactic(auto)]

mod entries;
mod order;
mod search;

pub use entries::{DraftEntry, OpenPlace, ReadEntry, Taken};
pub use order::{RisingEntries, rising};
pub use search::{Next, Numbered, last_entry, last_with, next_from};
