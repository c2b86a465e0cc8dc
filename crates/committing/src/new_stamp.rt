// The stamp of the versions that a commit makes.
ghost use Rattle.std.specs.Prelude.{◌≡◌, true, map};
ghost use Rattle.stamps.specs.Counts.{room, joined};
ghost use Rattle.stamps.specs.Entries.{entries};
ghost use Rattle.isolation.specs.Vectors.{greatest};
ghost use Rattle.transactions.specs.Choosing.{stamps_of};
ghost use Rattle.transactions.specs.Committing.{new_count};
ghost use Rattle.entries.specs.Numbers.{apart};
ghost use Rattle.entries.specs.Contents.{reading, drafting, draft_cards};
ghost use Rattle.committing.specs.Stamping.{bump_all};

use entries::{DraftEntry, ReadEntry};
use shelf::Shelf;
use stamps::Stamp;

// Joins the stamp of a version that was read.
fn join_read<S: Shelf>(stamp: &mut Stamp, shelf: &S, read: ReadEntry)
    ensures { entries stamp.new ≡ joined (entries stamp.old) (stamps_of (S.meaning shelf.now) read.card.0 read.version.0) }
{
    if let Some(other) = shelf.stamp(read.card, read.version) {
        stamp.join(&other);
    }
}

// The greatest of the stamps of all versions read, count by count.
fn joined_stamp<S: Shelf>(shelf: &S, reads: &[ReadEntry]) -> Stamp
    ensures { entries result ≡ greatest (stamps_of (S.meaning shelf.now)) (map reading reads.now) }
{
    let mut stamp = Stamp::zero();
    for read in reads {
        join_read(&mut stamp, shelf, *read);
    }
    stamp
}

// Adds 1 at each drafted card.
fn bump_drafts(stamp: &mut Stamp, drafts: &[DraftEntry])
    ensures { entries stamp.new ≡ bump_all (entries stamp.old) (map drafting drafts.now) }
{
    for draft in drafts {
        stamp.bump(draft.card);
    }
}

// The greatest of all stamps read, plus 1 at each drafted card.
pub(crate) fn new_stamp<S: Shelf>(shelf: &S, reads: &[ReadEntry], drafts: &[DraftEntry]) -> Stamp
    requires { apart room (draft_cards (map drafting drafts.now)) ≡ true }
    ensures { entries result ≡ new_count (S.meaning shelf.now) (map reading reads.now) (map drafting drafts.now) }
{
    let mut stamp = joined_stamp(shelf, reads);
    bump_drafts(&mut stamp, drafts);
    stamp
}
