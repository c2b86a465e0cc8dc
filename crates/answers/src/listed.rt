ghost use Rattle.std.specs.Prelude.{◌≡◌, ◌≤◌, length};
ghost use Rattle.digest.specs.Entries.{Sound};
ghost use Rattle.digest.specs.Links.{Linked};
ghost use Rattle.answers.specs.Questions.{own_node, writ_node};

use digest::{Entry, Listing};
use reach::{PLACES, node_of};

// The entries of a file, listed by owner, and with the WRITs listed by card.
#[derive(Drop)]
pub(crate) struct Listed<'a, W: Listing> {
    pub(crate) entries: &'a [Entry],
    pub(crate) own: &'a W,
    pub(crate) writs: &'a W,
    ghost few: { length entries.now ≤ 2048 },
    ghost sound: { Sound entries.now },
    ghost owners: { Linked (W.count own.now) (W.comes own.now) own_node entries.now (length entries.now) },
    ghost cards: { Linked (W.count writs.now) (W.comes writs.now) writ_node entries.now (length entries.now) },
}

// The node of a WRIT's card, and one that nobody asks for, for all other entries: a place in the listing is the entry's place, so none is left out.
pub(crate) fn card_node(entry: &Entry) -> usize
    ensures { result ≡ writ_node entry.now }
{
    if entry.is_writ() {
        node_of(entry.card.0)
    } else {
        PLACES - 1
    }
}

// Lists entries, from the oldest on, by owner and by card. The listings are lent, and so filled where they lie: one that is handed out is copied.
pub(crate) fn list_all<W: Listing>(entries: &[Entry], own: &mut W, writs: &mut W)
    requires few { (Sound entries.now) × (length entries.now ≤ 2048) }
    requires empty { (W.count own.old ≡ 0) × (W.count writs.old ≡ 0) }
    ensures owners { Linked (W.count own.new) (W.comes own.new) own_node entries.now (length entries.now) }
    ensures cards { Linked (W.count writs.new) (W.comes writs.new) writ_node entries.now (length entries.now) }
{
    for entry in entries {
        own.list(entry.owner as usize);
        writs.list(card_node(entry));
    }
}
