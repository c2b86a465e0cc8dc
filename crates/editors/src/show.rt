// How answers are printed.
use records::Line;
use scripts::Counts;
use sessions::Answer;
use std::fmt;
use transactions::{Event, Reading, Refusal};

// An answer as it is printed; a stamp has an entry for each card of the shelf.
#[derive(Clone, Copy)]
pub(crate) struct Shown<'a> {
    pub(crate) answer: &'a Answer,
    pub(crate) cards: u32,
}

impl fmt::Display for Shown<'_> {
    fn fmt<W: fmt::Write>(&self, f: &mut fmt::Formatter<W>) -> fmt::Result {
        match self.answer {
            Answer::SetUp(granted) => show_grant(*granted, f),
            Answer::Call(event) => show_call(*event, f),
            Answer::NoSlip => write!(f, "no slip"),
            Answer::Versions(_, Some(count)) => write!(f, "{count}"),
            Answer::Versions(_, None) | Answer::Stamp(_, _, None) => write!(f, "absent"),
            Answer::Stamp(_, _, Some(stamp)) => {
                let counts = Counts {
                    stamp: *stamp,
                    cards: self.cards,
                };
                write!(f, "{counts}")
            }
            Answer::Journal(lines) => show_journal(lines, f),
        }
    }
}

fn show_call<W: fmt::Write>(event: Event, f: &mut fmt::Formatter<W>) -> fmt::Result {
    match event {
        Event::Open(Ok(number)) => write!(f, "{number}"),
        Event::Read(_, _, Ok(reading)) => show_reading(reading, f),
        Event::Open(Err(refusal)) | Event::Read(_, _, Err(refusal)) => show_refusal(refusal, f),
        Event::Draft(_, _, _, granted) | Event::Commit(_, granted) | Event::Abandon(_, granted) => {
            show_grant(granted, f)
        }
        Event::Close => write!(f, "ok"),
    }
}

fn show_grant<W: fmt::Write>(
    granted: Result<(), Refusal>,
    f: &mut fmt::Formatter<W>,
) -> fmt::Result {
    match granted {
        Ok(()) => write!(f, "ok"),
        Err(refusal) => show_refusal(refusal, f),
    }
}

fn show_refusal<W: fmt::Write>(refusal: Refusal, f: &mut fmt::Formatter<W>) -> fmt::Result {
    write!(f, "REFUSED {}", refusal.number())
}

fn show_reading<W: fmt::Write>(reading: Reading, f: &mut fmt::Formatter<W>) -> fmt::Result {
    let version = reading.version;
    let first = reading.value.first;
    let second = reading.value.second;
    write!(f, "version {version} words {first} {second}")
}

// How many lines there are, and each below.
fn show_journal<W: fmt::Write>(lines: &[Line], f: &mut fmt::Formatter<W>) -> fmt::Result {
    write!(f, "{}", lines.len())?;
    for line in lines {
        write!(f, "\n{line}")?;
    }
    Ok(())
}
