// The places that come from a node, newest first.
ghost use Rattle.std.specs.Prelude.{◌≡◌, ℕ, ◌<◌, Bool, true};
ghost use Rattle.std.specs.Iterator.{YieldsFirst, item_count};
ghost use Rattle.reach.specs.Links.{picks, bound, first};
ghost use Rattle.reach.specs.declared.walk.Position.TheVariants.{Behind};

// How the places that belong to a node are come by.
pub trait Walk {
    // How many places there are.
    ghost count: { Self → ℕ };

    // Whether a place comes from a node.
    ghost comes: { Self → ℕ → ℕ → Bool };

    // The newest place that comes from the node.
    fn newest_from(&self, node: usize) -> Option<usize>
        ensures { result ≡ first (picks (comes self.now node) (count self.now)) };

    // The next older place that comes from the same node as this place; of a place past the last any answer will do.
    fn next_older(&self, place: usize) -> Option<usize>
        ensures { (node : ℕ) → place < count self.now → comes self.now node place ≡ true → result ≡ first (picks (comes self.now node) place) };
}

// Where a walk stands: before the newest place, or behind one that it came to.
#[derive(Clone, Copy)]
enum Position {
    Newest,
    Behind(usize),
}

// The places that come from a node, newest first. Each is looked up when it is asked for: a loop that held the next one in hand took longer.
#[derive(Drop)]
pub struct Places<'a, W: Walk> {
    walk: &'a W,
    node: usize,
    position: Position,
    ghost inside: { (place : ℕ) → position ≡ Behind place → (place < W.count walk.now) × (W.comes walk.now node place ≡ true) },
}

impl<'a, W: Walk> Places<'a, W> {
    // All of them.
    pub fn from_node(walk: &'a W, node: usize) -> Places<'a, W>
        ensures { picks (W.comes result.walk.now result.node) (bound (W.count result.walk.now) result.position) ≡ picks (W.comes walk.now node) (W.count walk.now) }
    {
        Places {
            walk,
            node,
            position: Position::Newest,
        }
    }

    // Those that are older than a place that comes from the node.
    pub fn older_than(walk: &'a W, node: usize, place: usize) -> Places<'a, W>
        requires inside { place < W.count walk.now }
        requires comes { W.comes walk.now node place ≡ true }
        ensures { picks (W.comes result.walk.now result.node) (bound (W.count result.walk.now) result.position) ≡ picks (W.comes walk.now node) place }
    {
        Places {
            walk,
            node,
            position: Position::Behind(place),
        }
    }
}

impl<'a, W: Walk> Iterator for Places<'a, W> {
    type Item = usize;

    ghost next_gives = { YieldsFirst (λ s. picks (W.comes s.walk.now s.node) (bound (W.count s.walk.now) s.position)) };

    ghost remaining = { item_count (λ s. picks (W.comes s.walk.now s.node) (bound (W.count s.walk.now) s.position)) };

    fn next(&mut self) -> Option<usize> {
        let place = match self.position {
            Position::Newest => self.walk.newest_from(self.node)?,
            Position::Behind(place) => self.walk.next_older(place)?,
        };
        self.position = Position::Behind(place);
        Some(place)
    }
}
