// Every make of shelf, under one name.
#![tactic(auto)]

#[cfg(test)]
mod tests;

pub use drawers::{Drawers, Fitted, MakeDrawers, PlacedShelf, Places, Written, reserved_shelf};
pub use pools::{Chain, Link, PoolDrawer, PoolMemory, PoolShelf};
pub use rows::{RowDrawers, RowMemory, RowShelf};
pub use shelf::{CheckRefusal, PutRefusal, Shelf, Size};
pub use splits::{Side, SplitShelf};
