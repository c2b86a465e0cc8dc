// What a shelf is: the trait that every make of it implements, its meaning and laws, and why one refuses.
#![tactic(auto)]

mod lent;
pub mod refusal;
mod shelf;
mod size;

pub use refusal::{CheckRefusal, PutRefusal};
pub use shelf::Shelf;
pub use size::Size;
