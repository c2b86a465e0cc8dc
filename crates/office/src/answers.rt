// What a session answers to each command.
ghost use Rattle.std.specs.Prelude.{IfOk};
ghost use Rattle.office.specs.Working.{After};

use crate::command::{Command, Entry, Question};
use scripts::{Counts, Made, make_shelf};
use shelves::{Fitted, PutRefusal, Shelf};
use stamps::{CardNo, VersionNo};
use std::{fmt, io};

// Carries out a command on the shelf in hand, if there is one, and prints its line with the answer.
pub fn answer(
    rt: &HostRuntime,
    held: &mut Option<Made>,
    line: &str,
    command: Command,
) -> io::Result<()>
    ensures { IfOk result (λ _. After command held.new) }
{
    print!(rt; "{line} = ")?;
    match command {
        Command::Shelf(make) => {
            let Fitted { shelf, fits } = make_shelf(rt.alloc(), make)?;
            *held = Some(shelf);
            match fits {
                Ok(()) => println!(rt; "ok"),
                Err(refusal) => println!(rt; "REFUSED {}", refusal.number()),
            }
        }
        // One call for each make, since each arm has a shelf of another type.
        Command::Ask(question) => match held {
            None => println!(rt; "no shelf"),
            Some(Made::Row(shelf)) => ask(rt, shelf, question),
            Some(Made::Pool(shelf)) => ask(rt, shelf, question),
            Some(Made::Split(shelf)) => ask(rt, shelf, question),
            Some(Made::Nested(shelf)) => ask(rt, shelf, question),
        },
    }
}

// Prints what a shelf answers.
fn ask<S: Shelf>(rt: &HostRuntime, shelf: &mut S, question: Question) -> io::Result<()> {
    match question {
        Question::Put(entry) => put(rt, shelf, entry),
        Question::Versions(card) => tell(rt, shelf.versions(card)),
        Question::Free(card) => tell(rt, shelf.free(card)),
        Question::Shares(one, other) => tell(rt, shelf.shares(one, other)),
        Question::Version(card, version) => show(rt, shelf, card, version),
        Question::Stamp(card, version) => stamp(rt, shelf, card, version),
    }
}

fn put<S: Shelf>(rt: &HostRuntime, shelf: &mut S, entry: Entry) -> io::Result<()> {
    match shelf.put(entry.card, entry.value, entry.writer, &entry.counts) {
        Ok(()) => println!(rt; "ok"),
        Err(PutRefusal::NoCard) => println!(rt; "refused, no such card"),
        Err(PutRefusal::BadStamp) => println!(rt; "refused, bad stamp"),
        Err(PutRefusal::NoPlace) => println!(rt; "refused, no free place"),
    }
}

// Prints an answer, or that there is none.
fn tell<T: Copy + fmt::Display>(rt: &HostRuntime, answer: Option<T>) -> io::Result<()> {
    match answer {
        Some(answer) => println!(rt; "{answer}"),
        None => println!(rt; "absent"),
    }
}

fn show<S: Shelf>(rt: &HostRuntime, shelf: &S, card: CardNo, version: VersionNo) -> io::Result<()> {
    match (shelf.value(card, version), shelf.writer(card, version)) {
        (Some(value), Some(writer)) => {
            println!(rt; "words {} {} writer {writer}", value.first, value.second)
        }
        _ => println!(rt; "absent"),
    }
}

// The whole stamp of a version.
fn stamp<S: Shelf>(
    rt: &HostRuntime,
    shelf: &S,
    card: CardNo,
    version: VersionNo,
) -> io::Result<()> {
    let cards = shelf.width();
    let counts = shelf
        .stamp(card, version)
        .map(|stamp| Counts { stamp, cards });
    tell(rt, counts)
}
