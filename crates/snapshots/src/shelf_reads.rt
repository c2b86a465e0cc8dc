// Questions to a shelf about the cards that a transaction has read.
ghost use Rattle.std.specs.Prelude.{◌≡◌, map};
ghost use Rattle.std.specs.Option.{option_map};
ghost use Rattle.shelf.specs.Meaning.{newest};
ghost use Rattle.transactions.specs.Calls.{any_written};
ghost use Rattle.transactions.specs.Choosing.{lacks, fits_one, newest_fit};
ghost use Rattle.entries.specs.Contents.{reading};

use entries::ReadEntry;
use shelf::Shelf;
use stamps::{CardNo, VersionNo};

// The number of a card's newest version, 0 where the shelf lacks the card: a number and no option, since that is what the rules compare.
pub fn newest_of<S: Shelf>(shelf: &S, card: CardNo) -> VersionNo
    ensures { result.0 ≡ newest (S.meaning shelf.now) card.0 }
{
    shelf.newest(card).unwrap_or(VersionNo(0))
}

// Whether a card has a version above 0.
pub fn any_written<S: Shelf>(shelf: &S) -> bool
    ensures { result ≡ any_written (S.meaning shelf.now) (S.meaning shelf.now).cards }
{
    (0..shelf.cards()).any(|card| newest_of(shelf, CardNo(card)).0 > 0)
}

// Whether the shelf lacks a version that was read.
pub fn lacks_any<S: Shelf>(shelf: &S, reads: &[ReadEntry]) -> bool
    ensures { result ≡ lacks (S.meaning shelf.now) (map reading reads.now) }
{
    reads
        .iter()
        .any(|entry| shelf.writer(entry.card, entry.version).is_none())
}

// Whether a version of a card fits a card that was read: its count for that card is at most the version read, and its number is at
// least the count for it in the stamp of the version read.
fn fits_entry<S: Shelf>(shelf: &S, card: CardNo, version: VersionNo, entry: ReadEntry) -> bool
    ensures { result ≡ fits_one (S.meaning shelf.now) card.0 version.0 (reading entry) }
{
    let count = shelf.entry(card, version, entry.card).unwrap_or(0);
    let counted = shelf.entry(entry.card, entry.version, card).unwrap_or(0);
    u32::from(count) <= entry.version.0 && u32::from(counted) <= version.0
}

// The newest version of a card that fits all cards read. A loop that is left by its label with the version found, as the rule of reading is told: a search over
// numbers would go through the cards in a closure of its own.
pub fn newest_that_fits<S: Shelf>(shelf: &S, reads: &[ReadEntry], card: CardNo) -> Option<VersionNo>
    ensures { option_map (λ v. v.0) result ≡ newest_fit (S.meaning shelf.now) (map reading reads.now) card.0 (newest (S.meaning shelf.now) card.0) }
{
    let mut n = newest_of(shelf, card).0;
    let found = 'versions: loop {
        for entry in reads {
            if !fits_entry(shelf, card, VersionNo(n), *entry) {
                if n == 0 {
                    break 'versions None;
                }
                n -= 1;
                continue 'versions;
            }
        }
        break 'versions Some(VersionNo(n));
    };
    found
}
