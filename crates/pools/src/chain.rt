// How the versions of a card are linked in a pool, from the newest to the oldest.
ghost use Rattle.std.specs.Prelude.{◌≡◌, ◌+◌, ◌<◌, if◌then◌else◌, nat_lt};

use stamps::{CardNo, VersionNo};

// Leads to a version: its number, and its place. Version 0 is in no place: a link's number is counted and compared wherever
// it is used, and as an Option each of these uses would have to put 0 back for it. A place's number and no reference, since the memory is handed over as owned lists, which the pool itself keeps.
#[derive(Clone, Copy)]
pub struct Link {
    pub number: u32,
    pub place: u32,
}

// What stands beside a version in a pool: its card, a link to the next older version, and one to a much older version.
// The second is chosen as in a skew-binary list, so that every version is a logarithmic number of steps away.
#[derive(Clone, Copy)]
pub struct Chain {
    pub card: CardNo,
    pub older: Link,
    pub jump: Link,
}

impl Link {
    // The link to the version after this one, which is put into a place.
    pub(crate) fn next(self, place: u32) -> Link
        requires { self.number < 65535 }
        ensures { result ≡ record { number = self.number + 1; place = place } }
    {
        Link {
            number: self.number + 1,
            place,
        }
    }
}

impl Chain {
    // The link to follow to an older version: the jump, unless it leads past that version.
    pub(crate) fn toward(self, version: VersionNo) -> Link
        ensures { result ≡ (if nat_lt self.jump.number version.0 then self.older else self.jump) }
    {
        if self.jump.number < version.0 {
            self.older
        } else {
            self.jump
        }
    }
}
