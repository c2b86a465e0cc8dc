// What a transaction sees of a shelf: the versions that fit what it has read. Anyone may use this crate.
#![tactic(auto)]

mod shelf_reads;
mod view;

pub use shelf_reads::{any_written, lacks_any, newest_of, newest_that_fits};
pub use view::seen;
