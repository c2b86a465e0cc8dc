// What a commit asks of a shelf, and the versions that it puts. Only the catalogue's own crates use this one: putting drafts asks its caller for
// the tests that come before.
#![tactic(auto)]

mod certify;
mod new_stamp;
mod shelf_writes;

pub use certify::is_outdated;
pub use shelf_writes::{is_crowded, put_drafts};
