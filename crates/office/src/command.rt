// The commands of a session, and how a line is read.
use arrayvec::ArrayVec;
use scripts::{Make, size_of};
use stamps::{CardNo, TxNo, Value, VersionNo};
use std::alloc::{AllocError, Global};
use std::num::ParseIntError;

// A version to be put.
#[derive(Drop)]
pub struct Entry {
    pub card: CardNo,
    pub value: Value,
    pub writer: TxNo,
    pub counts: Vec<u32>,
}

// What a shelf can be told or asked.
#[derive(Drop)]
pub enum Question {
    Put(Entry),
    Versions(CardNo),
    Free(CardNo),
    Shares(CardNo, CardNo),
    Version(CardNo, VersionNo),
    Stamp(CardNo, VersionNo),
}

#[derive(Drop)]
pub enum Command {
    Shelf(Make),
    Ask(Question),
}

// Why a line gives no command: it is not understood, or there is no memory for it.
#[derive(Clone, Copy)]
pub enum Unread {
    NotUnderstood,
    NoMemory(AllocError),
}

// This and the next by hand: a derived `#[from]` would keep the fault, and want for each variant a text that nobody prints.
impl From<ParseIntError> for Unread {
    fn from(_: ParseIntError) -> Unread {
        Unread::NotUnderstood
    }
}

impl From<AllocError> for Unread {
    fn from(error: AllocError) -> Unread {
        Unread::NoMemory(error)
    }
}

// The most words that a command needs, counts aside: the shelf of a split of a split and a row.
const MOST_WORDS: usize = 15;

// The words before the counts of a version that is put: its name, its card, its two words and its writer.
const BEFORE_COUNTS: usize = 5;

// The command that a line gives. Words behind those that a command needs are passed over.
pub fn parse(heap: Global, line: &str) -> Result<Command, Unread> {
    let mut words = ArrayVec::<&str, MOST_WORDS>::new();
    for word in line.split_whitespace() {
        if words.try_push(word).is_err() {
            break;
        }
    }
    match words.as_slice() {
        ["shelf", make @ ..] => {
            let make = make_of(make).ok_or(Unread::NotUnderstood)?;
            Ok(Command::Shelf(make))
        }
        ["put", card, first, second, writer, ..] => {
            let value = Value {
                first: first.parse()?,
                second: second.parse()?,
            };
            Ok(Command::Ask(Question::Put(Entry {
                card: CardNo(card.parse()?),
                value,
                writer: TxNo(writer.parse()?),
                counts: counts_of(heap, line)?,
            })))
        }
        question => Ok(Command::Ask(question_of(question)?)),
    }
}

fn make_of(words: &[&str]) -> Option<Make> {
    match *words {
        ["row", c, w, p, ..] => Some(Make::Row(size_of([c, w, p])?)),
        ["pool", c, w, p, ..] => Some(Make::Pool(size_of([c, w, p])?)),
        ["split", "row", c, w, p, "pool", d, v, q, ..] => {
            Some(Make::Split(size_of([c, w, p])?, size_of([d, v, q])?))
        }
        [
            "split",
            "split",
            "row",
            c,
            w,
            p,
            "pool",
            d,
            v,
            q,
            "row",
            e,
            u,
            r,
            ..
        ] => Some(Make::Nested(
            size_of([c, w, p])?,
            size_of([d, v, q])?,
            size_of([e, u, r])?,
        )),
        _ => None,
    }
}

fn question_of(words: &[&str]) -> Result<Question, Unread> {
    Ok(match *words {
        ["versions", card, ..] => Question::Versions(CardNo(card.parse()?)),
        ["free", card, ..] => Question::Free(CardNo(card.parse()?)),
        ["shares", one, other, ..] => {
            Question::Shares(CardNo(one.parse()?), CardNo(other.parse()?))
        }
        ["version", card, version, ..] => {
            Question::Version(CardNo(card.parse()?), VersionNo(version.parse()?))
        }
        ["stamp", card, version, ..] => {
            Question::Stamp(CardNo(card.parse()?), VersionNo(version.parse()?))
        }
        _ => return Err(Unread::NotUnderstood),
    })
}

// The counts of a version that is put.
fn counts_of(heap: Global, line: &str) -> Result<Vec<u32>, Unread> {
    line.split_whitespace()
        .skip(BEFORE_COUNTS)
        .map(|count| count.parse().map_err(Unread::from))
        .try_collect(heap)
}
