// Questions to a shelf about drafts, and putting them.
ghost use Rattle.std.specs.Prelude.{◌≡◌, true, false, map};
ghost use Rattle.transactions.specs.Committing.{in_drawer, crowded, put_cards};
ghost use Rattle.entries.specs.Numbers.{apart};
ghost use Rattle.entries.specs.Contents.{reading, drafting, draft_cards, opening};

use crate::new_stamp::new_stamp;
use entries::{DraftEntry, ReadEntry, rising};
use shelf::Shelf;
use stamps::{CardNo, TxNo};

// Whether two cards are kept in one drawer: no where the shelf lacks one, as the meaning has it.
fn share<S: Shelf>(shelf: &S, one: CardNo, other: CardNo) -> bool
    ensures { result ≡ (S.meaning shelf.now).shares one.0 other.0 }
{
    shelf.shares(one, other).unwrap_or(false)
}

// The free places of a card's drawer, none where the shelf lacks the card.
fn free_of<S: Shelf>(shelf: &S, card: CardNo) -> u32
    ensures { result ≡ (S.meaning shelf.now).free card.0 }
{
    shelf.free(card).unwrap_or(0)
}

// How many of the drafts are for cards in the drawer of a card.
fn drafts_in_drawer<S: Shelf>(shelf: &S, card: CardNo, drafts: &[DraftEntry]) -> usize
    ensures { result ≡ in_drawer (S.meaning shelf.now) card.0 (map drafting drafts.now) }
{
    drafts
        .iter()
        .filter(|draft| share(shelf, card, draft.card))
        .count()
}

// Whether the drafts in one drawer outnumber its free places.
pub fn is_crowded<S: Shelf>(shelf: &S, drafts: &[DraftEntry]) -> bool
    ensures { result ≡ crowded (S.meaning shelf.now) (map drafting drafts.now) }
{
    drafts.iter().any(|draft| {
        let free = free_of(shelf, draft.card) as usize;
        free < drafts_in_drawer(shelf, draft.card, drafts)
    })
}

// Puts the drafts of a transaction, in rising card order. What it read and drafted is handed over and not asked of the table, which says no more of them.
pub fn put_drafts<S: Shelf>(shelf: &mut S, writer: TxNo, reads: &[ReadEntry], drafts: &[DraftEntry])
    requires listed { apart (S.meaning shelf.old).cards (draft_cards (map drafting drafts.now)) ≡ true }
    requires spare { crowded (S.meaning shelf.old) (map drafting drafts.now) ≡ false }
    ensures { S.meaning shelf.new ≡ put_cards (S.meaning shelf.old) (opening writer.0 (map reading reads.now) (map drafting drafts.now)) (S.meaning shelf.old).cards }
{
    let width = S::width(shelf) as usize;
    let counts = new_stamp(shelf, reads, drafts).list();
    for draft in rising(drafts) {
        let _ = shelf.put(draft.card, draft.value, writer, &counts[0..width]);
    }
}
