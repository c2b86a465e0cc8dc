ghost use Rattle.std.specs.Prelude.{true};

use digest::Listing;
use reach::Walk;

// A listing that keeps no links: from every node each place comes.
#[derive(Drop)]
pub(crate) struct EveryPlace {
    count: usize,
}

impl Walk for EveryPlace {
    ghost count = { λ every. every.count };

    ghost comes = { λ every node place. true };

    fn newest_from(&self, _node: usize) -> Option<usize> {
        self.count.checked_sub(1)
    }

    fn next_older(&self, place: usize) -> Option<usize> {
        place.checked_sub(1)
    }
}

impl Listing for EveryPlace {
    fn empty() -> EveryPlace {
        EveryPlace { count: 0 }
    }

    fn list(&mut self, _node: usize) {
        self.count += 1;
    }
}
