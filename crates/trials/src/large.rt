use super::dice::Dice;
use super::forms::Form;
use super::habits::Shape;
use super::lines::done;
use super::script::Script;
use records::Line;
use stamps::TxNo;
use std::alloc::{AllocError, Global};

const RECORDS: usize = 2_048;
// Numbers that the forms do not use, from the first on.
const SPARE_NUMBERS: u32 = 10_000;

const LAST_NUMBER: u32 = 999_998;

// The largest files: 2,048 records. A value and no closure, since a list names them.
#[derive(Clone, Copy)]
pub enum Large {
    // Of a form, for this many transactions.
    Formed(Form, u32),
    // As small histories of this shape are made, only longer.
    Played(Shape),
}

impl Large {
    // A chain of no links is filled up with commits alone.
    pub const ALL: [Large; 12] = [
        Large::Formed(Form::Chain, 0),
        Large::Formed(Form::Chain, 682),
        Large::Formed(Form::BrokenChain, 680),
        Large::Formed(Form::Cycle, 512),
        Large::Formed(Form::Hub, 255),
        Large::Formed(Form::Readers, 1_022),
        Large::Formed(Form::Wide, 4),
        Large::Played(Shape::Orderly),
        Large::Played(Shape::Fresh),
        Large::Played(Shape::Uncertified),
        Large::Played(Shape::Cyclic),
        Large::Played(Shape::Mixed),
    ];

    pub fn lines(self, heap: Global) -> Result<Vec<Line>, AllocError> {
        match self {
            Large::Formed(form, count) => {
                let mut lines = form.lines(heap, count)?;
                fill_up(&mut lines)?;
                Ok(lines)
            }
            Large::Played(shape) => Script::play(heap, Dice::new(1), shape.habits(), RECORDS),
        }
    }
}

// Transactions that only commit bring the file to its size.
fn fill_up(lines: &mut Vec<Line>) -> Result<(), AllocError> {
    let missing = RECORDS.saturating_sub(lines.len());
    for spare in (SPARE_NUMBERS..LAST_NUMBER).take(missing).map(TxNo) {
        lines.push(done(spare))?;
    }
    Ok(())
}
