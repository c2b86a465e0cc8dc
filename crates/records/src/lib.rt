// The records of a history file: 32 bytes each, as lines and back.
#![tactic(auto)]

pub mod decode;
pub mod encode;
pub mod fault;
pub mod glance;
pub mod kind;
pub mod line;
pub mod reader;
pub mod show;

// How many bytes a record has.
pub const RECORD_SIZE: usize = 32;

pub use fault::{PlacedFault, RecordFault};
pub use kind::Kind;
pub use line::{Line, NO_WORDS};
pub use reader::RecordReader;

#[cfg(test)]
mod tests;
