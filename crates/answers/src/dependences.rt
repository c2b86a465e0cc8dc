ghost use Rattle.std.specs.Prelude.{◌≡◌, [], length};
ghost use Rattle.reach.specs.Paths.{edges};
ghost use Rattle.answers.specs.Questions.{Towards, steps};

use super::listed::Listed;
use digest::Listing;
use reach::Graph;

// The transactions, by owner, with an edge for each READ of a version that a transaction wrote.
#[derive(Drop)]
pub(crate) struct Dependences {
    // From each transaction to those that it reads from.
    pub(crate) writers: Graph,
    // From each transaction to those that read from it.
    pub(crate) readers: Graph,
}

impl Dependences {
    // With no edge.
    pub(crate) fn new() -> Dependences
        ensures { (edges result.writers ≡ []) × (edges result.readers ≡ []) }
    {
        Dependences {
            writers: Graph::new(),
            readers: Graph::new(),
        }
    }
}

impl<W: Listing> Listed<'_, W> {
    // Adds an edge each way for each of these READs, in their order. The graphs are lent, and so filled where they lie.
    pub(crate) fn depend(&self, dependences: &mut Dependences)
        requires { (edges dependences.old.writers ≡ []) × (edges dependences.old.readers ≡ []) }
        ensures writers { edges dependences.new.writers ≡ steps Towards.Writers self.now.entries.now (length self.now.entries.now) }
        ensures readers { edges dependences.new.readers ≡ steps Towards.Readers self.now.entries.now (length self.now.entries.now) }
    {
        for entry in self.entries {
            if entry.is_step() {
                let reader = entry.owner as usize;
                let writer = self.entries[entry.version as usize - 1].owner as usize;
                let _ = dependences.writers.add(reader, writer);
                let _ = dependences.readers.add(writer, reader);
            }
        }
    }
}
