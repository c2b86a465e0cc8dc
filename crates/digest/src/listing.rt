// Entries listed under nodes, so that those that belong together are come by from the newest on.
ghost use Rattle.std.specs.Prelude.{◌≡◌, ℕ, suc, ◌<◌, true};

use reach::{Graph, Walk};

// A walk to which places are added, one behind the other, each under a node.
pub trait Listing: Walk + Drop {
    // One with no place.
    fn empty() -> Self
        ensures { Self.count result ≡ 0 };

    // Adds the next place, under a node.
    fn list(&mut self, node: usize)
        requires room { Self.count self.old < 2048 }
        requires known { node < 2048 }
        ensures more { Self.count self.new ≡ suc (Self.count self.old) }
        ensures here { Self.comes self.new node (Self.count self.old) ≡ true }
        ensures kept { (m k : ℕ) → k < Self.count self.old → Self.comes self.old m k ≡ true → Self.comes self.new m k ≡ true };
}

// A place is an edge from its node.
impl Listing for Graph {
    fn empty() -> Graph {
        Graph::new()
    }

    fn list(&mut self, node: usize) {
        let _ = self.add(node, node);
    }
}
