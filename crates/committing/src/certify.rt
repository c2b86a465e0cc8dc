// Whether what a transaction has drafted is still up to date.
ghost use Rattle.std.specs.Prelude.{◌≡◌};
ghost use Rattle.shelf.specs.Meaning.{newest};
ghost use Rattle.transactions.specs.Choosing.{version_read};
ghost use Rattle.transactions.specs.Committing.{is_version, outdated};
ghost use Rattle.tables.specs.Tables.{seat};

use shelf::Shelf;
use snapshots::newest_of;
use stamps::CardNo;
use tables::OpenAt;

// Whether a card's newest version is the one that an open transaction has read.
fn is_current<S: Shelf>(shelf: &S, here: OpenAt<'_>, card: CardNo) -> bool
    ensures { result ≡ is_version (version_read (seat here.entry).reads card.0) (newest (S.meaning shelf.now) card.0) }
{
    here.version_read(card)
        .is_some_and(|version| version == newest_of(shelf, card))
}

// Whether a card that an open transaction has drafted has another newest version than the one read.
pub fn is_outdated<S: Shelf>(shelf: &S, here: OpenAt<'_>) -> bool
    ensures { result ≡ outdated (S.meaning shelf.now) (seat here.entry).reads (seat here.entry).drafts }
{
    // Counted beside the walk, as certification is told.
    let mut stale: usize = 0;
    for draft in here.drafts() {
        if !is_current(shelf, here, draft.card) {
            stale += 1;
        }
    }
    stale != 0
}
