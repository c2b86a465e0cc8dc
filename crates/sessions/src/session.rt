// The books of a session and the slips in hand: each command is answered by one call, or by what is asked of the shelf.
ghost use Rattle.std.specs.Prelude.{◌≡◌, [], ◌∷◌, List, All, count_by, vec_len, IfOk};
ghost use Rattle.books.specs.States.{sizes_of, new_state};
ghost use Rattle.sessions.specs.Exactly.{Replied};
ghost use Rattle.sessions.specs.Holding.{held};
ghost use Rattle.sessions.specs.Room.{asks_journal, IsEmptyFor, HasRoom, RoomLeft};
ghost use Rattle.sessions.specs.declared.command.Command.{Command};
ghost use Rattle.sessions.specs.declared.command.Command.TheVariants as commands;

use crate::answer::Answer;
use crate::command::Command;
use crate::slips::{keep_returned, slip_of, take_slip};
use books::Slip;
use catalogue::{BooksMemory, Catalogue};
use records::Line;
use shelf::Shelf;
use stamps::{CardNo, TxNo, Value};
use std::alloc::{AllocError, Global};
use transactions::Event;

pub(crate) struct Session {
    pub(crate) catalogue: Catalogue,
    pub(crate) slips: Vec<Slip>,
    // An empty list for each journal that is to be told, with room for all its lines.
    pub(crate) journals: Vec<Vec<Line>>,
}

impl Session {
    // Books that are not set up yet, no slip in hand, and room for the commands of a script.
    pub(crate) fn reserve(
        alloc: Global,
        books: BooksMemory,
        script: &[Command],
    ) -> Result<Session, AllocError>
        ensures new { IfOk result (λ s. held s ≡
            record { books = new_state (sizes_of books); slips = [] }) }
        ensures room { IfOk result (λ s. HasRoom s script.now) }
    {
        let journals = journal_lists(alloc, books.lines.len(), script)?;
        let slips = Vec::with_capacity(alloc, script.len())?;
        Ok(Session {
            catalogue: Catalogue::new(books),
            slips,
            journals,
        })
    }

    // The slips in hand stay, also where their account is over.
    fn set_up<S: Shelf>(&mut self, shelf: &S) -> Answer
        ensures replied { Replied (S.meaning shelf.now) (held self.old) commands.SetUp
            result (S.meaning shelf.now) (held self.new) }
        ensures room { RoomLeft self.old commands.SetUp self.new }
    {
        Answer::SetUp(self.catalogue.set_up(shelf))
    }

    // A slip that is given is kept, where there is room for it.
    fn open<S: Shelf>(&mut self, shelf: &S) -> Answer
        requires { HasRoom self.old (commands.Open ∷ []) }
        ensures replied { Replied (S.meaning shelf.now) (held self.old) commands.Open
            result (S.meaning shelf.now) (held self.new) }
        ensures room { RoomLeft self.old commands.Open self.new }
    {
        match self.catalogue.open() {
            Ok(slip) => {
                let number = slip.number();
                self.slips.push_reserved(slip);
                Answer::Call(Event::Open(Ok(number)))
            }
            Err(refusal) => Answer::Call(Event::Open(Err(refusal))),
        }
    }

    fn read<S: Shelf>(&mut self, shelf: &S, number: TxNo, card: CardNo) -> Answer
        ensures replied { Replied (S.meaning shelf.now) (held self.old) (commands.Read number card)
            result (S.meaning shelf.now) (held self.new) }
        ensures room { RoomLeft self.old (commands.Read number card) self.new }
    {
        let Some(slip) = slip_of(&self.slips, number) else {
            return Answer::NoSlip;
        };
        let read = self.catalogue.read(shelf, slip, card);
        Answer::Call(Event::Read(number, card, read))
    }

    fn draft<S: Shelf>(&mut self, shelf: &S, number: TxNo, card: CardNo, value: Value) -> Answer
        ensures replied { Replied (S.meaning shelf.now) (held self.old)
            (commands.Draft number card value) result (S.meaning shelf.now) (held self.new) }
        ensures room { RoomLeft self.old (commands.Draft number card value) self.new }
    {
        let Some(slip) = slip_of(&self.slips, number) else {
            return Answer::NoSlip;
        };
        let drafted = self.catalogue.draft(slip, card, value);
        Answer::Call(Event::Draft(number, card, value, drafted))
    }

    // A slip that is handed back is kept.
    fn commit<S: Shelf>(&mut self, shelf: &mut S, number: TxNo) -> Answer
        ensures replied { Replied (S.meaning shelf.old) (held self.old) (commands.Commit number)
            result (S.meaning shelf.new) (held self.new) }
        ensures room { RoomLeft self.old (commands.Commit number) self.new }
    {
        let Some(handed) = take_slip(&mut self.slips, number) else {
            return Answer::NoSlip;
        };
        let committed = self.catalogue.commit(shelf, handed);
        let decided = keep_returned(&mut self.slips, committed);
        Answer::Call(Event::Commit(number, decided))
    }

    fn abandon<S: Shelf>(&mut self, shelf: &S, number: TxNo) -> Answer
        ensures replied { Replied (S.meaning shelf.now) (held self.old) (commands.Abandon number)
            result (S.meaning shelf.now) (held self.new) }
        ensures room { RoomLeft self.old (commands.Abandon number) self.new }
    {
        let Some(slip) = take_slip(&mut self.slips, number) else {
            return Answer::NoSlip;
        };
        let ended = self.catalogue.abandon(slip);
        Answer::Call(Event::Abandon(number, ended))
    }

    // The slips are kept, and are no longer open.
    fn close<S: Shelf>(&mut self, shelf: &S) -> Answer
        ensures replied { Replied (S.meaning shelf.now) (held self.old) commands.Close
            result (S.meaning shelf.now) (held self.new) }
        ensures room { RoomLeft self.old commands.Close self.new }
    {
        self.catalogue.close();
        Answer::Call(Event::Close)
    }

    // The lines are copied into a list that was reserved for them.
    fn journal<S: Shelf>(&mut self, shelf: &S) -> Answer
        requires { HasRoom self.old (commands.Journal ∷ []) }
        ensures replied { Replied (S.meaning shelf.now) (held self.old) commands.Journal
            result (S.meaning shelf.now) (held self.new) }
        ensures room { RoomLeft self.old commands.Journal self.new }
    {
        let mut lines = self.journals.take_last();
        lines.extend_from_slice(self.catalogue.journal()).unwrap();
        Answer::Journal(lines)
    }

    // Answers a command.
    pub(crate) fn answer<S: Shelf>(&mut self, shelf: &mut S, command: Command) -> Answer
        requires { HasRoom self.old (command ∷ []) }
        ensures replied { Replied (S.meaning shelf.old) (held self.old) command
            result (S.meaning shelf.new) (held self.new) }
        ensures room { RoomLeft self.old command self.new }
    {
        match command {
            Command::SetUp => self.set_up(shelf),
            Command::Open => self.open(shelf),
            Command::Read(number, card) => self.read(shelf, number, card),
            Command::Draft(number, card, value) => self.draft(shelf, number, card, value),
            Command::Commit(number) => self.commit(shelf, number),
            Command::Abandon(number) => self.abandon(shelf, number),
            Command::Close => self.close(shelf),
            Command::Versions(card) => Answer::Versions(card, S::versions(shelf, card)),
            Command::Stamp(card, version) => {
                Answer::Stamp(card, version, S::stamp(shelf, card, version))
            }
            Command::Journal => self.journal(shelf),
        }
    }
}

// Slips that are left are handed in: their transactions end without a commit.
impl Drop for Session {
    fn drop(self) {
        let Session {
            catalogue,
            slips,
            journals: _,
        } = self;
        hand_in_all(catalogue, slips);
    }
}

fn hand_in_all(mut catalogue: Catalogue, mut slips: Vec<Slip>) {
    while let Some(slip) = slips.pop() {
        let _ = catalogue.abandon(slip);
    }
    slips.destroy_empty();
}

// An empty list for each journal that a script asks for, with room for so many lines.
fn journal_lists(
    alloc: Global,
    lines: usize,
    script: &[Command],
) -> Result<Vec<Vec<Line>>, AllocError>
    ensures count { IfOk result (λ v. vec_len v ≡ count_by asks_journal script.now) }
    ensures room { IfOk result (λ v. All (IsEmptyFor lines) v.items) }
{
    let mut lists = Vec::new(alloc);
    for command in script {
        if matches!(command, Command::Journal) {
            let list = Vec::with_capacity(alloc, lines)?;
            lists.push(list)?;
        }
    }
    Ok(lists)
}
