// A day with a shelf: the books, the script, and its answers.
use crate::parse::{BooksSize, Instruction, parse};
use crate::save::save;
use crate::show::Shown;
use catalogue::BooksMemory;
use sessions::{Answer, Command, SessionMemory, run};
use shelves::Shelf;
use std::alloc::{AllocError, Global};
use std::{fs, io};

// Carries out the rest of the script on a shelf, with books of this size.
pub(crate) fn day<S: Shelf + Drop>(
    rt: &HostRuntime,
    mut shelf: S,
    size: BooksSize,
    lines: &[String],
) -> io::Result<()> {
    let cards = shelf.cards();
    let books = BooksMemory::reserve(rt.alloc(), size.places, cards, size.lines)?;
    let script = script_of(rt.alloc(), lines)?;
    let memory = SessionMemory::reserve(rt.alloc(), books, &script)?;
    let answers = run(memory, &mut shelf);
    print_all(rt, lines, &answers, cards)
}

// The command of a line that is carried out; to save the journal it is asked for.
fn command_of(line: &str) -> Option<Command> {
    match parse(line)? {
        Instruction::Ask(command) => Some(command),
        Instruction::Save(_) => Some(Command::Journal),
        Instruction::Shelf(_) | Instruction::Books(_) => None,
    }
}

fn script_of(heap: Global, lines: &[String]) -> Result<Vec<Command>, AllocError> {
    let mut script = Vec::new(heap);
    for line in lines {
        if let Some(command) = command_of(line.as_str()) {
            script.push(command)?;
        }
    }
    Ok(script)
}

// Prints each line with its answer.
fn print_all(rt: &HostRuntime, lines: &[String], answers: &[Answer], cards: u32) -> io::Result<()> {
    let mut answers = answers.iter();
    for line in lines {
        let text = line.as_str();
        match parse(text) {
            Some(Instruction::Ask(_)) => {
                if let Some(answer) = answers.next() {
                    println!(rt; "{text} = {}", Shown { answer, cards })?;
                }
            }
            Some(Instruction::Save(file)) => {
                print!(rt; "{text} = ")?;
                let saved = save_as(rt, file, answers.next())?;
                println!(rt; "{}", if saved { "ok" } else { "not saved" })?;
            }
            Some(Instruction::Shelf(_) | Instruction::Books(_)) | None => {
                println!(rt; "{text} = not understood")?;
            }
        }
    }
    Ok(())
}

// Saves the journal that was asked for, and says whether it was written.
fn save_as(rt: &HostRuntime, file: &str, answer: Option<&Answer>) -> Result<bool, AllocError> {
    let Some(Answer::Journal(lines)) = answer else {
        return Ok(false);
    };
    save(rt.alloc(), lines, |bytes| fs::write(rt, file, bytes))
}
