ghost use Rattle.std.specs.Prelude.{◌≡◌, ◌≤◌, length};

use super::graph::PLACES;

mod calls;

// The nodes that a search has marked, in the order of marking. In an array with a count, since a node is written in any case and counted where it is
// new: whether one is new is as good as tossed, and a search that asks before it writes, as a list that grows has to, takes a third longer. Marks and
// queue are lent one by one: the marks are the caller's, who reads them between a search and the clearing.
#[derive(Drop)]
pub struct Queue {
    pub(crate) nodes: [u16; PLACES],
    pub(crate) count: usize,
    ghost room: { count ≤ 2048 },
    ghost long: { length nodes ≡ 2048 },
}
