// The catalogue: editors' transactions on a shelf of cards. Each call's contract has its exact result, and the law that holds over every run.
#![tactic(auto)]

mod calls;

pub use books::{BooksMemory, NotCommitted, Slip};
pub use calls::Catalogue;
pub use transactions::{Reading, Refusal};
