// The tables of open transactions, and the memory of books. Only the catalogue's own crates use the tables: entering a reading and setting a
// draft ask their callers for the tests that come before. `BooksMemory` is for everyone.
#![tactic(auto)]

mod memory;
mod table;

pub use memory::BooksMemory;
pub use table::{DRAFTS, OpenAt, OpenTable};
