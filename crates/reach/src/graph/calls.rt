ghost use Rattle.std.specs.Prelude.{◌≡◌, ◌<◌, [], ◌∷◌, ◌++◌, length, if◌then◌else◌};
ghost use Rattle.reach.specs.Links.{places, leaves, picks, bound};
ghost use Rattle.reach.specs.Paths.{edges, taken, Edge, Reached, marks_from};
ghost use Rattle.reach.specs.Searches.{waiting, Room, Found, Closed, Clear, Listed};

use super::super::queue::Queue;
use super::super::walk::{Places, Walk};
use super::{Graph, LinkedEdge, PLACES};
use arrayvec::ArrayVec;

impl Graph {
    // A graph with no edge.
    pub fn new() -> Graph
        ensures { edges result ≡ [] }
    {
        let edges = ArrayVec::new();
        Graph {
            edges,
            newest: [None; PLACES],
        }
    }

    // Adds the edge, and says so; refuses a node past the last, and an edge more than there is room for. A yes or no: an error would say no more to who
    // knows how many nodes and edges it has.
    pub fn add(&mut self, from: usize, to: usize) -> bool
        ensures added { edges self.new ≡ (if result then edges self.old ++ (from, to) ∷ [] else edges self.old) }
        ensures taken { result ≡ taken self.old from to }
    {
        let place = self.edges.len();
        if place >= PLACES || from >= PLACES || to >= PLACES {
            return false;
        }
        let older = self.newest[from];
        self.edges.push(LinkedEdge {
            from: from as u16,
            to: to as u16,
            older,
        });
        self.newest[from] = Some(place as u16);
        true
    }

    // The places of the edges that go from a node, newest first.
    pub fn edges_from(&self, node: usize) -> Places<'_, Graph>
        ensures { picks (leaves (edges result.walk.now) result.node) (bound (length (edges result.walk.now)) result.position) ≡ picks (leaves (edges self.now) node) (length (edges self.now)) }
    {
        Places::from_node(self, node)
    }

    /// Marks with 1 exactly the nodes that can be reached from `from` by one or more edges, each to a
    /// node that has a mark; every other mark is 0 then, whatever it was.
    pub fn reach(&self, from: usize, marks: &mut [u32])
        ensures marks { marks.new ≡ marks_from (edges self.now) from (length marks.old) }
        ensures reached { Reached (edges self.now) from marks.new }
    {
        marks.fill(0);
        let mut queue = Queue::new();
        self.search(from, marks, &mut queue);
    }

    // The same over marks that are clear already, with a queue that is lent, and then holds the marked nodes: `Queue::clear` clears them
    // again without a walk over all marks.
    pub fn search(&self, from: usize, marks: &mut [u32], queue: &mut Queue)
        requires clear { Clear marks.old }
        requires empty { waiting queue.old ≡ [] }
        ensures marks { marks.new ≡ marks_from (edges self.now) from (length marks.old) }
        ensures reached { Reached (edges self.now) from marks.new }
        ensures listed { Listed marks.new (waiting queue.new) }
    {
        if from >= PLACES {
            return;
        }
        self.expand(from, marks, queue);
        // The queue grows while it is gone through, so its places are counted.
        let mut next = 0;
        while next < queue.count {
            let node = queue.nodes[next] as usize;
            self.expand(node, marks, queue);
            next += 1;
        }
    }

    // Marks the nodes to which an edge leads from `node`.
    fn expand(&self, node: usize, marks: &mut [u32], queue: &mut Queue)
        requires { (node < places) × (Room marks.old (waiting queue.old)) }
        ensures found { Found (Edge (edges self.now) node) marks.old marks.new (waiting queue.old) (waiting queue.new) }
        ensures closed { Closed (edges self.now) marks.new node }
    {
        for place in self.edges_from(node) {
            queue.visit(self.edges[place].to as usize, marks);
        }
    }
}

// From a node come the edges that go from it.
impl Walk for Graph {
    ghost count = { λ graph. length (edges graph) };

    ghost comes = { λ graph. leaves (edges graph) };

    fn newest_from(&self, node: usize) -> Option<usize> {
        if node >= PLACES {
            return None;
        }
        self.newest[node].map(usize::from)
    }

    fn next_older(&self, place: usize) -> Option<usize> {
        self.edges.get(place)?.older.map(usize::from)
    }
}
