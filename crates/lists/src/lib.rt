// A third make of shelf, which shows how little a make has to answer: each card has a list of its
// versions.
#![tactic(auto)]

mod list_shelf;

pub use list_shelf::ListShelf;
