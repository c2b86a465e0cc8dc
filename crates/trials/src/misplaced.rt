use super::damage::Damage;
use super::dice::Dice;
use super::lines::{NOBODY, done, gone, read, writ};
use records::{Kind, Line};
use stamps::{CardNo, TxNo, Value};
use std::alloc::AllocError;

// A card that no script touches.
const FOREIGN_CARD: CardNo = CardNo(200);

// What can be wrong with the lines of a history. A value and no closure, since dice choose among them. Lines and dice go through all that is done below
// side by side: one value of both would be two loans under a name.
#[derive(Clone, Copy)]
pub enum Misplaced {
    SecondRead,
    SecondWrit,
    WritUnread,
    AfterEnd,
    ReadsItself,
    ReadsUnwritten,
    // Two lines have changed places.
    Swapped,
    // An end is missing.
    NoEnd,
}

impl Misplaced {
    // The missing end stands there twice, as often it shows only where nothing else is wrong.
    pub const ALL: [Misplaced; 9] = [
        Misplaced::SecondRead,
        Misplaced::SecondWrit,
        Misplaced::WritUnread,
        Misplaced::AfterEnd,
        Misplaced::ReadsItself,
        Misplaced::ReadsUnwritten,
        Misplaced::Swapped,
        Misplaced::NoEnd,
        Misplaced::NoEnd,
    ];
}

impl Damage<Vec<Line>> for Misplaced {
    // A history with no line for it stays as it is.
    fn apply(self, lines: &mut Vec<Line>, dice: &mut Dice) -> Result<(), AllocError> {
        match self {
            Misplaced::SecondRead => repeat(lines, Kind::Read, dice),
            Misplaced::SecondWrit => repeat(lines, Kind::Writ, dice),
            Misplaced::WritUnread => add_foreign(lines, dice, |transaction| {
                writ(transaction, FOREIGN_CARD, Value::BLANK)
            }),
            Misplaced::AfterEnd => add_after_end(lines, dice),
            Misplaced::ReadsItself => add_foreign(lines, dice, |transaction| {
                read(transaction, FOREIGN_CARD, transaction)
            }),
            Misplaced::ReadsUnwritten => add_early_read(lines, dice),
            Misplaced::Swapped => {
                swap_some(lines, dice);
                Ok(())
            }
            Misplaced::NoEnd => {
                remove_end(lines, dice);
                Ok(())
            }
        }
    }
}

// The first line of this kind from a place on that the dice choose, with its place.
fn some_line(lines: &[Line], kind: Kind, dice: &mut Dice) -> Option<(usize, Line)> {
    let start = dice.place(lines.len());
    lines
        .iter()
        .copied()
        .enumerate()
        .skip(start)
        .find(|(_, line)| line.kind == kind)
}

// Puts a line somewhere behind this place.
fn insert_behind(
    lines: &mut Vec<Line>,
    place: usize,
    line: Line,
    dice: &mut Dice,
) -> Result<(), AllocError> {
    let behind = dice.place(lines.len().saturating_sub(place));
    let at = place.saturating_add(1).saturating_add(behind);
    if at <= lines.len() {
        lines.insert(at, line)?;
    }
    Ok(())
}

// Repeats a line of this kind further down.
fn repeat(lines: &mut Vec<Line>, kind: Kind, dice: &mut Dice) -> Result<(), AllocError> {
    match some_line(lines.as_slice(), kind, dice) {
        Some((place, line)) => insert_behind(lines, place, line, dice),
        None => Ok(()),
    }
}

// Puts a line somewhere, made for a transaction that has one.
fn add_foreign<F: FnOnce(TxNo) -> Line>(
    lines: &mut Vec<Line>,
    dice: &mut Dice,
    made: F,
) -> Result<(), AllocError>
    requires { F.IsAlwaysCallable made }
{
    match dice.pick(lines.as_slice()) {
        Some(line) => insert_behind(lines, 0, made(line.transaction), dice),
        None => Ok(()),
    }
}

fn add_after_end(lines: &mut Vec<Line>, dice: &mut Dice) -> Result<(), AllocError> {
    let kind = dice.pick(&[Kind::Done, Kind::Gone]).unwrap_or(Kind::Done);
    let Some((place, end)) = some_line(lines.as_slice(), kind, dice) else {
        return Ok(());
    };
    let transaction = end.transaction;
    let choices = [
        done(transaction),
        gone(transaction),
        read(transaction, FOREIGN_CARD, NOBODY),
    ];
    match dice.pick(&choices) {
        Some(late) => insert_behind(lines, place, late, dice),
        None => Ok(()),
    }
}

// Reads what a WRIT at that place or further down writes.
fn add_early_read(lines: &mut Vec<Line>, dice: &mut Dice) -> Result<(), AllocError> {
    let Some((place, line)) = some_line(lines.as_slice(), Kind::Writ, dice) else {
        return Ok(());
    };
    let Some(reader) = dice.pick(lines.as_slice()) else {
        return Ok(());
    };
    let at = dice.place(place);
    if at <= lines.len() {
        lines.insert(at, read(reader.transaction, line.card, line.transaction))?;
    }
    Ok(())
}

fn swap_some(lines: &mut Vec<Line>, dice: &mut Dice) {
    let one = dice.place(lines.len());
    let other = dice.place(lines.len());
    if one < lines.len() && other < lines.len() {
        lines.swap(one, other);
    }
}

fn remove_end(lines: &mut Vec<Line>, dice: &mut Dice) {
    let kind = dice
        .pick(&[Kind::Done, Kind::Done, Kind::Gone])
        .unwrap_or(Kind::Done);
    if let Some((place, _)) = some_line(lines.as_slice(), kind, dice) {
        if place < lines.len() {
            let _ = lines.remove(place);
        }
    }
}
