// The books of a catalogue: who is open, what was read and drafted, the journal; and the exact result of every call on them. Anyone may use this crate.
#![tactic(auto)]

mod books;
mod slip;

pub use books::Books;
pub use entries::{DraftEntry, Numbered, OpenPlace, ReadEntry, Taken, last_with};
pub use slip::{NotCommitted, Slip};
pub use tables::BooksMemory;
