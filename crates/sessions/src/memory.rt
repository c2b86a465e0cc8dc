// The memory of a session, which is asked for before the first command.
ghost use Rattle.std.specs.Prelude.{◌≡◌, IfOk};
ghost use Rattle.books.specs.States.{sizes_of};
ghost use Rattle.sessions.specs.Holding.{held};
ghost use Rattle.sessions.specs.Memory.{Readied};
ghost use Rattle.sessions.specs.Room.{IsReady};

use crate::answer::Answer;
use crate::command::Command;
use crate::session::Session;
use catalogue::BooksMemory;
use std::alloc::{AllocError, Global};
use std::marker::Model;

/// A script and new books, with room for all that its answers and slips take. Carrying it out asks
/// for no more memory.
#[derive(Drop)]
pub struct SessionMemory<'a> {
    pub(crate) session: Session,
    pub(crate) script: &'a [Command],
    pub(crate) answers: Vec<Answer>,
}

// A caller sees how much memory the books have, and the script.
impl<'a> Model for SessionMemory<'a> {
    ghost Value = { Readied };

    ghost view = { λ m. record { sizes = (held m.session).books.sizes; script = m.script.now } };

    ghost invariant = { λ m. IsReady m.session m.script.now m.answers };
}

impl<'a> SessionMemory<'a> {
    /// Reserves the memory of a session that carries out this script with these books. The error
    /// is that there is not enough; no shelf is touched, and no later call can say it.
    pub fn reserve(
        alloc: Global,
        books: BooksMemory,
        script: &'a [Command],
    ) -> Result<SessionMemory<'a>, AllocError>
        ensures { IfOk result (λ m. m ≡ record { sizes = sizes_of books; script = script.now }) }
    {
        let answers = Vec::with_capacity(alloc, script.len())?;
        let session = Session::reserve(alloc, books, script)?;
        Ok(SessionMemory {
            session,
            script,
            answers,
        })
    }
}
