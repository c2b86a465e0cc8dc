// A shelf with one drawer for all its cards.
#![tactic(auto)]

mod chain;
mod pool;

pub use chain::{Chain, Link};
pub use pool::{PoolDrawer, PoolMemory, PoolShelf};
