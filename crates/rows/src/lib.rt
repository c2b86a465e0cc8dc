// A shelf with a drawer of its own for each card.
#![tactic(auto)]

mod row;

pub use row::{RowDrawers, RowMemory, RowShelf};
