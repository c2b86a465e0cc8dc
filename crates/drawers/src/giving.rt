// How places are given to cards.
ghost use Rattle.std.specs.Prelude.{◌≡◌, ◌<◌, ◌≤◌, Some};
ghost use Rattle.shelf.specs.Meaning.{Meaning, version_at, newest};
ghost use Rattle.shelf.specs.Sound.{Sound};
ghost use Rattle.shelf.specs.Putting.{added};
ghost use Rattle.drawers.specs.Places.{version_of};

use crate::places::Written;
use shelf::Size;
use stamps::{CardNo, VersionNo};

// The drawers of a shelf, each with its places. A question about a card is asked only where the shelf has the card: that is a
// `requires`, and no type of a card can say it, since another shelf may lack the card.
pub trait Drawers {
    ghost meaning: { Self → Meaning };

    // How many cards the drawers are for, and how many counts each stamp has.
    fn size(&self) -> Size
        ensures cards { result.cards ≡ (meaning self.now).cards }
        ensures width { result.width ≡ (meaning self.now).width };

    // The number of a card's newest version.
    fn newest(&self, card: CardNo) -> VersionNo
        requires { card.0 < (meaning self.now).cards }
        ensures { result.0 ≡ newest (meaning self.now) card.0 };

    // What is written of a version above 0.
    fn written(&self, card: CardNo, version: VersionNo) -> &Written
        requires listed { card.0 < (meaning self.now).cards }
        requires above { 0 < version.0 }
        requires there { version.0 ≤ newest (meaning self.now) card.0 }
        ensures { version_at (meaning self.now) card.0 version.0 ≡ Some (version_of (meaning self.now).width result.now) };

    // The free places of a card's drawer.
    fn free(&self, card: CardNo) -> u32
        requires { card.0 < (meaning self.now).cards }
        ensures { result ≡ (meaning self.now).free card.0 };

    // Whether two cards are kept in one drawer.
    fn shares(&self, one: CardNo, other: CardNo) -> bool
        requires one { one.0 < (meaning self.now).cards }
        requires other { other.0 < (meaning self.now).cards }
        ensures { result ≡ (meaning self.now).shares one.0 other.0 };

    // Writes a card's next version into a free place of its drawer.
    fn add(&mut self, card: CardNo, written: Written)
        requires listed { card.0 < (meaning self.old).cards }
        requires free { 0 < (meaning self.old).free card.0 }
        ensures { meaning self.new ≡ added (meaning self.old) card.0 (version_of (meaning self.old).width written) };

    ghost sound: { (s : Self) → Sound (meaning s) };
}
