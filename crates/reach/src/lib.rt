// Reachability: which nodes of a graph can be come to from a node. Three calls ask something of their caller: `Graph::search` clear marks and
// an empty queue, `Queue::clear` a queue that holds every marked node, as a search leaves it, and `Places::older_than` a place that comes
// from the node.
#![tactic(auto)]

pub mod graph;
mod queue;
mod walk;

pub use graph::{Graph, PLACES, node_of};
pub use queue::Queue;
pub use walk::{Places, Walk};

#[cfg(test)]
mod tests {
    use super::*;

    // 0 leads to 1 and on to 2, which leads back to 1; 4 leads to itself; no edge leads to 0, 3 or from 3.
    #[test]
    fn marks_what_is_reached(rt: HostRuntime) {
        let mut graph = Graph::new();
        for (from, to) in [(0, 1), (1, 2), (2, 1), (4, 4)] {
            assert!(rt; graph.add(from, to));
        }
        assert!(rt; !graph.add(0, PLACES));
        let mut marks = [7; 5];
        graph.reach(0, &mut marks);
        assert!(rt; marks == [0, 1, 1, 0, 0]);
        graph.reach(4, &mut marks);
        assert!(rt; marks == [0, 0, 0, 0, 1]);
        graph.reach(3, &mut marks);
        assert!(rt; marks == [0; 5]);
    }
}
