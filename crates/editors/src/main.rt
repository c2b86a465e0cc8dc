// The editors' program: reads a script from standard input, carries it out on a shelf, and prints each command with its answer.
#![tactic(auto)]

ghost use Rattle.std.specs.Prelude.{◌≡◌, IfOk};
ghost use Rattle.scripts.specs.Makes.{made_by};
ghost use Rattle.scripts.specs.Shelves.{shelf_meaning};

mod day;
mod parse;
mod save;
mod show;

use day::day;
use parse::{BooksSize, Instruction, parse};
use scripts::{Made, Make, make_shelf};
use shelves::Fitted;
use std::io::{BufRead, BufReader};
use std::{io, slice};

fn main(rt: HostRuntime) -> anyhow::Result<()> {
    let mut lines = Vec::new(rt.alloc());
    for line in BufReader::new(rt.alloc(), rt.stdin())?.lines(rt.alloc()) {
        let line = line?;
        if !is_passed_over(line.as_str()) {
            lines.push(line)?;
        }
    }
    session(&rt, &lines)?;
    Ok(())
}

// Blank lines and remarks.
fn is_passed_over(line: &str) -> bool {
    line.starts_with('#') || line.split_whitespace().next().is_none()
}

// First a shelf, then the books, then the day.
fn session(rt: &HostRuntime, lines: &[String]) -> io::Result<()> {
    let mut lines = lines.iter();
    let Some((shelf, books)) = find_shelf_and_books(rt, &mut lines)? else {
        return Ok(());
    };
    let lines = lines.as_slice();
    // One call for each make, since each arm has a shelf of another type.
    match shelf {
        Made::Row(shelf) => day(rt, shelf, books, lines),
        Made::Pool(shelf) => day(rt, shelf, books, lines),
        Made::Split(shelf) => day(rt, shelf, books, lines),
        Made::Nested(shelf) => day(rt, shelf, books, lines),
    }
}

// Goes on to the line that asks for books. The shelf is the last one that was asked for before it.
fn find_shelf_and_books(
    rt: &HostRuntime,
    lines: &mut slice::Iter<'_, String>,
) -> io::Result<Option<(Made, BooksSize)>> {
    let mut held = None;
    for line in lines {
        let text = line.as_str();
        match (parse(text), held) {
            (Some(Instruction::Shelf(make)), _) => held = Some(make_for(rt, text, make)?),
            (Some(Instruction::Books(size)), Some(shelf)) => {
                println!(rt; "{text} = ok")?;
                return Ok(Some((shelf, size)));
            }
            (_, shelf) => {
                println!(rt; "{text} = not understood")?;
                held = shelf;
            }
        }
    }
    Ok(None)
}

// Makes the shelf that a line asks for.
fn make_for(rt: &HostRuntime, text: &str, make: Make) -> io::Result<Made>
    ensures { IfOk result (λ s. shelf_meaning s ≡ made_by make) }
{
    let Fitted { shelf, fits } = make_shelf(rt.alloc(), make)?;
    match fits {
        Ok(()) => println!(rt; "{text} = ok")?,
        Err(refusal) => println!(rt; "{text} = REFUSED {}", refusal.number())?,
    }
    Ok(shelf)
}
