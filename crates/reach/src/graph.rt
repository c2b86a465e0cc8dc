ghost use Rattle.std.specs.Prelude.{◌≡◌, ◌%◌, ◌≤◌, length};
ghost use Rattle.reach.specs.Links.{table, olders, NewestLinked, OlderLinked, Within};

mod calls;

use arrayvec::ArrayVec;

// How many nodes a graph has, and how many edges it takes.
pub const PLACES: usize = 2048;

// The node for a number, as of a card or a transaction. Other numbers may share it.
pub fn node_of(number: u32) -> usize
    ensures { result ≡ number % 2048 }
{
    number as usize % PLACES
}

// An edge, and the place of the next older edge from the same node.
#[derive(Clone, Copy, Default)]
struct LinkedEdge {
    from: u16,
    to: u16,
    older: Option<u16>,
}

// A graph on the nodes 0 .. PLACES - 1, with its edges in the order in which they were added. The links are in arrays of fixed size, since the
// judge has no heap.
#[derive(Drop)]
pub struct Graph {
    edges: ArrayVec<LinkedEdge, PLACES>,
    // By node: the place of its newest edge.
    newest: [Option<u16>; PLACES],
    ghost room: { length edges.items ≤ 2048 },
    ghost within: { Within (table edges.items) },
    ghost starts: { NewestLinked (table edges.items) newest },
    ghost onward: { OlderLinked (table edges.items) (olders edges.items) },
}
