// A shelf that keeps its versions in places, whatever drawers the places belong to.
#![tactic(auto)]

mod giving;
mod making;
mod placed;
mod places;
mod reserved;
mod stamping;

pub use giving::Drawers;
pub use making::{MakeDrawers, is_within};
pub use placed::PlacedShelf;
pub use places::{Places, Written};
pub use reserved::{Fitted, reserved_shelf};
pub use stamping::stamp_from;
