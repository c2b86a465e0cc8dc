// What every make of shelf answers and takes, by one meaning.
ghost use Rattle.std.specs.Prelude.{◌≡◌};
ghost use Rattle.std.specs.Option.{option_map};
ghost use Rattle.stamps.specs.Entries.{entries};
ghost use Rattle.shelf.specs.Meaning.{Meaning};
ghost use Rattle.shelf.specs.Sound.{Sound};
ghost use Rattle.shelf.specs.Questions.{versions_of, newest_of, shares_of, free_of, value_of, writer_of, entry_of, stamp_of};
ghost use Rattle.shelf.specs.Putting.{put_answer, after_put};

use crate::refusal::PutRefusal;
use stamps::{CardNo, Stamp, TxNo, Value, VersionNo};

// How many counts a stamp has at most.
const ROOM: usize = 256;

// A store of cards' versions. A card's versions are kept in a drawer, which has a number of free places and may be
// shared with other cards. A question about a card or a version that the shelf lacks answers none. Card and version are two arguments: a value of both
// would promise no more, since the shelf that is asked may lack it.
pub trait Shelf {
    ghost meaning: { Self → Meaning };

    // How many cards there are, numbered from 0.
    fn cards(&self) -> u32
        ensures { result ≡ (meaning self.now).cards };

    // How many counts a stamp has.
    fn width(&self) -> u32
        ensures { result ≡ (meaning self.now).width };

    // How many versions a card has.
    fn versions(&self, card: CardNo) -> Option<u32>
        ensures { result ≡ versions_of (meaning self.now) card.0 };

    // The number of a card's newest version.
    fn newest(&self, card: CardNo) -> Option<VersionNo>
        ensures { result ≡ newest_of (meaning self.now) card.0 }
    {
        Some(VersionNo(self.versions(card)? - 1))
    }

    // Whether two cards are kept in one drawer.
    fn shares(&self, one: CardNo, other: CardNo) -> Option<bool>
        ensures { result ≡ shares_of (meaning self.now) one.0 other.0 };

    // The free places of a card's drawer.
    fn free(&self, card: CardNo) -> Option<u32>
        ensures { result ≡ free_of (meaning self.now) card.0 };

    fn value(&self, card: CardNo, version: VersionNo) -> Option<Value>
        ensures { result ≡ value_of (meaning self.now) card.0 version.0 };

    fn writer(&self, card: CardNo, version: VersionNo) -> Option<TxNo>
        ensures { result ≡ writer_of (meaning self.now) card.0 version.0 };

    // One count of a version's stamp, 0 past the width.
    fn entry(&self, card: CardNo, version: VersionNo, of: CardNo) -> Option<u16>
        ensures { result ≡ entry_of (meaning self.now) card.0 version.0 of.0 };

    // A version's whole stamp.
    fn stamp(&self, card: CardNo, version: VersionNo) -> Option<Stamp>
        ensures { option_map entries result ≡ stamp_of (meaning self.now) card.0 version.0 }
    {
        let mut counts = [0; ROOM];
        for of in 0..ROOM {
            counts[of] = u32::from(self.entry(card, version, CardNo(of as u32))?);
        }
        Stamp::from_counts(&counts)
    }

    // Adds a card's newest version, or changes nothing and tells the first cause why not.
    fn put(
        &mut self,
        card: CardNo,
        value: Value,
        writer: TxNo,
        counts: &[u32],
    ) -> Result<(), PutRefusal>
        ensures answer { result ≡ put_answer (meaning self.old) card.0 counts.now }
        ensures after { meaning self.new ≡ after_put (meaning self.old) card.0 value writer.0 counts.now };

    ghost sound: { (s : Self) → Sound (meaning s) };
}
