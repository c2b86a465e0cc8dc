// A whole session.
ghost use Rattle.std.specs.Prelude.{◌≡◌};
ghost use Rattle.books.specs.States.{new_state};
ghost use Rattle.sessions.specs.Ends.{SessionLaw};
ghost use Rattle.sessions.specs.Exactly.{Ran, DoneExactly};
ghost use Rattle.sessions.specs.Holding.{held};
ghost use Rattle.sessions.specs.Room.{IsReady};

use crate::answer::Answer;
use crate::command::Command;
use crate::memory::SessionMemory;
use crate::session::Session;
use shelf::Shelf;

/// Carries out a script on a shelf, with new books, and gives the answer to each command. Slips
/// that are left in the end are handed in: their transactions end without a commit.
pub fn run<S: Shelf>(memory: SessionMemory<'_>, shelf: &mut S) -> Vec<Answer>
    ensures exact { DoneExactly (S.meaning shelf.old) (new_state memory.entry.sizes)
        memory.entry.script result.items (S.meaning shelf.new) }
    ensures law { SessionLaw (S.meaning shelf.old) memory.entry.script
        result.items (S.meaning shelf.new) }
{
    let SessionMemory {
        session: mut session,
        script,
        answers: mut answers,
    } = memory;
    answer_all(&mut session, shelf, script, &mut answers);
    answers
}

// Answers one command after the other, into a list that has room for it.
fn answer_all<S: Shelf>(
    session: &mut Session,
    shelf: &mut S,
    script: &[Command],
    answers: &mut Vec<Answer>,
)
    requires { IsReady session.old script.now answers.old }
    ensures { Ran (S.meaning shelf.old) (held session.old).books script.now
        answers.new.items (S.meaning shelf.new) (held session.new) }
{
    // A `for`, since a chain's closure would change the session and the shelf, of which no proof
    // would know what they became.
    for command in script {
        let answer = session.answer(shelf, *command);
        answers.push_reserved(answer);
    }
}
