// The lines of a script, and how they are read.
use arrayvec::ArrayVec;
use scripts::{Make, size_of};
use sessions::Command;
use stamps::{CardNo, TxNo, Value, VersionNo};

// How many open places and journal lines the books are to have.
#[derive(Clone, Copy)]
pub(crate) struct BooksSize {
    pub(crate) places: usize,
    pub(crate) lines: usize,
}

// What a line says.
#[derive(Clone, Copy)]
pub(crate) enum Instruction<'a> {
    Shelf(Make),
    Books(BooksSize),
    Ask(Command),
    // To write the journal into a file of this name.
    Save(&'a str),
}

// The most words that a line has which is understood: a split of a split and a row.
const MOST_WORDS: usize = 15;

// What a line says; none where it says nothing that is understood.
pub(crate) fn parse(line: &str) -> Option<Instruction<'_>> {
    let mut words = ArrayVec::<&str, MOST_WORDS>::new();
    for word in line.split_whitespace() {
        words.try_push(word).ok()?;
    }
    instruction_of(words.as_slice())
}

fn instruction_of<'a>(words: &[&'a str]) -> Option<Instruction<'a>> {
    match *words {
        ["shelf", ..] => Some(Instruction::Shelf(make_of(words)?)),
        ["books", places, lines] => Some(Instruction::Books(BooksSize {
            places: places.parse::<u32>().ok()? as usize,
            lines: lines.parse::<u32>().ok()? as usize,
        })),
        ["save", file] => Some(Instruction::Save(file)),
        _ => Some(Instruction::Ask(command_of(words)?)),
    }
}

fn make_of(words: &[&str]) -> Option<Make> {
    match *words {
        ["shelf", "row", c, w, p] => Some(Make::Row(size_of([c, w, p])?)),
        ["shelf", "pool", c, w, p] => Some(Make::Pool(size_of([c, w, p])?)),
        ["shelf", "split", "row", c, w, p, "pool", d, v, q] => {
            Some(Make::Split(size_of([c, w, p])?, size_of([d, v, q])?))
        }
        [
            "shelf",
            "split",
            "split",
            "row",
            c,
            w,
            p,
            "pool",
            d,
            v,
            q,
            "row",
            e,
            u,
            r,
        ] => Some(Make::Nested(
            size_of([c, w, p])?,
            size_of([d, v, q])?,
            size_of([e, u, r])?,
        )),
        _ => None,
    }
}

fn command_of(words: &[&str]) -> Option<Command> {
    match *words {
        ["set-up"] => Some(Command::SetUp),
        ["open"] => Some(Command::Open),
        ["close"] => Some(Command::Close),
        ["journal"] => Some(Command::Journal),
        ["commit", number] => Some(Command::Commit(transaction(number)?)),
        ["abandon", number] => Some(Command::Abandon(transaction(number)?)),
        ["versions", of] => Some(Command::Versions(card(of)?)),
        ["stamp", of, version] => {
            let version = VersionNo(version.parse().ok()?);
            Some(Command::Stamp(card(of)?, version))
        }
        ["read", number, of] => Some(Command::Read(transaction(number)?, card(of)?)),
        ["draft", number, of, first, second] => {
            let value = Value {
                first: first.parse().ok()?,
                second: second.parse().ok()?,
            };
            Some(Command::Draft(transaction(number)?, card(of)?, value))
        }
        _ => None,
    }
}

fn transaction(word: &str) -> Option<TxNo> {
    word.parse().ok().map(TxNo)
}

fn card(word: &str) -> Option<CardNo> {
    word.parse().ok().map(CardNo)
}
