// The tables of open transactions.
ghost use Rattle.std.specs.Prelude.{◌≡◌, ℕ, ◌*◌, ◌<◌, ◌≤◌, true, None, vec_len, slice_index_or};
ghost use Rattle.tables.specs.Rows.{kept_at};

use crate::table::rows::Rows;
use entries::{DraftEntry, OpenPlace, ReadEntry};

mod answers;
mod changes;
mod open_at;
mod rows;

pub use open_at::OpenAt;

// How many open places are used, at the most.
pub(crate) const PLACES: usize = 16;

// How many cards a transaction may draft.
pub const DRAFTS: usize = 32;

// The open list, and for each of its places in use a row of read entries, one for each card, and a row of 32 drafts. Three flat lists and a number, since the memory is handed over as owned lists, longer ones too, and set-up allocates nothing.
#[derive(Drop)]
pub struct OpenTable {
    places: Vec<OpenPlace>,
    // As wide as there were cards at set-up.
    reads: Rows<ReadEntry>,
    drafts: Rows<DraftEntry>,
    // How many places are in use: none before set-up, and then at most sixteen, however long the list is.
    used: usize,
    ghost listed: { used ≤ vec_len places },
    ghost read: { used * reads.width ≤ vec_len reads.items },
    ghost wide: { drafts.width ≡ 32 },
    ghost drafted: { used * 32 ≤ vec_len drafts.items },
    ghost kept: { (p : ℕ) → p < used → kept_at reads.width reads.items.items drafts.items.items p (slice_index_or places.items p None) ≡ true },
}
