ghost use Rattle.std.specs.Prelude.{◌≡◌, ◌<◌, [], length};
ghost use Rattle.reach.specs.Links.{places};
ghost use Rattle.reach.specs.Paths.{Marked};
ghost use Rattle.reach.specs.Searches.{waiting, Room, Found, Is, Clear, Listed};

use super::super::graph::PLACES;
use super::Queue;

impl Queue {
    // A queue with no node.
    pub fn new() -> Queue
        ensures { waiting result ≡ [] }
    {
        Queue {
            nodes: [0; PLACES],
            count: 0,
        }
    }

    // Marks the node and puts it behind the others, unless it is marked or past the marks. The place behind the last may be written in any case.
    pub(crate) fn visit(&mut self, node: usize, marks: &mut [u32])
        requires { (node < places) × (Room marks.old (waiting self.old)) }
        ensures found { Found (Is node) marks.old marks.new (waiting self.old) (waiting self.new) }
        ensures marked { node < length marks.new → Marked marks.new node }
    {
        if node >= marks.len() {
            return;
        }
        let is_new = marks[node] == 0;
        marks[node] = 1;
        if self.count < PLACES {
            self.nodes[self.count] = node as u16;
            self.count += usize::from(is_new);
        }
    }

    // Clears the marks of its nodes, and takes the nodes out.
    pub fn clear(&mut self, marks: &mut [u32])
        requires { Listed marks.old (waiting self.old) }
        ensures clear { Clear marks.new }
        ensures empty { waiting self.new ≡ [] }
    {
        for node in &self.nodes[..self.count] {
            let node = *node as usize;
            // By its index: a contract tells nothing of a mark that is written through `get_mut`.
            if node < marks.len() {
                marks[node] = 0;
            }
        }
        self.count = 0;
    }
}
