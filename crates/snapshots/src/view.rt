// What a transaction sees of a card.
ghost use Rattle.std.specs.Prelude.{◌≡◌};
ghost use Rattle.isolation.specs.Account.{draft_of};
ghost use Rattle.transactions.specs.Choosing.{value_at};
ghost use Rattle.tables.specs.Tables.{seat};

use shelf::Shelf;
use stamps::{CardNo, Value, VersionNo};
use tables::OpenAt;
use transactions::Reading;

// A version of a card as an open transaction sees it: with its own draft, where it has one.
pub fn seen<S: Shelf>(shelf: &S, here: OpenAt<'_>, card: CardNo, version: VersionNo) -> Reading
    ensures { result ≡ record { version = version; value = draft_of (seat here.entry).drafts card.0 (value_at (S.meaning shelf.now) card.0 version.0) } }
{
    let value = here
        .draft_of(card)
        .or_else(|| shelf.value(card, version))
        .unwrap_or(Value::BLANK);
    Reading { version, value }
}
