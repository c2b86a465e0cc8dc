use super::damage::spoil;
use super::dice::Dice;
use super::forms::Form;
use super::habits::Shape;
use super::large::Large;
use super::lines::append;
use super::misplaced::Misplaced;
use super::script::Script;
use super::spoiled::Spoiled;
use records::{Line, RECORD_SIZE};
use std::alloc::{AllocError, Global};

// A file to be judged, and how many marks the judge is lent.
#[derive(Drop)]
pub struct Trial {
    pub file: Vec<u8>,
    pub marks: usize,
}

// What is done to one of the largest files. A value and no closure, since a list names them.
#[derive(Clone, Copy)]
pub enum Edge {
    Whole,
    ByteMore,
    ByteLess,
    RecordLess,
    MarkLess,
}

impl Edge {
    pub const ALL: [Edge; 5] = [
        Edge::Whole,
        Edge::ByteMore,
        Edge::ByteLess,
        Edge::RecordLess,
        Edge::MarkLess,
    ];
}

impl Trial {
    // The file of these lines, with a mark for each.
    pub fn of(heap: Global, lines: &[Line]) -> Result<Trial, AllocError> {
        let mut file = Vec::new(heap);
        for line in lines {
            append(&mut file, line)?;
        }
        Ok(Trial {
            file,
            marks: lines.len(),
        })
    }

    // A history of some dozens of records at most; about half of them are damaged.
    pub fn small(heap: Global, seed: u64) -> Result<Trial, AllocError> {
        let mut dice = Dice::new(seed);
        let mut lines = small_lines(heap, &mut dice)?;
        spoil(&mut lines, &Misplaced::ALL, &mut dice)?;
        let mut trial = Trial::of(heap, lines.as_slice())?;
        trial.marks = trial.marks.saturating_add(dice.place(3));
        spoil(&mut trial, &Spoiled::ALL, &mut dice)?;
        Ok(trial)
    }

    // One of the largest files, whole or at an edge.
    pub fn large(heap: Global, form: Large, edge: Edge) -> Result<Trial, AllocError> {
        let lines = form.lines(heap)?;
        let mut trial = Trial::of(heap, lines.as_slice())?;
        let size = trial.file.len();
        match edge {
            Edge::Whole => {}
            Edge::ByteMore => trial.file.push(0)?,
            Edge::ByteLess => trial.file.truncate(size.saturating_sub(1)),
            Edge::RecordLess => trial.file.truncate(size.saturating_sub(RECORD_SIZE)),
            Edge::MarkLess => trial.marks = trial.marks.saturating_sub(1),
        }
        Ok(trial)
    }
}

// One history in six has a form, the others have a shape.
fn small_lines(heap: Global, dice: &mut Dice) -> Result<Vec<Line>, AllocError> {
    if dice.chance(16) {
        let form = dice.pick(&Form::NARROW).unwrap_or(Form::Chain);
        form.lines(heap, dice.below(12))
    } else {
        let shape = dice.pick(&Shape::ALL).unwrap_or(Shape::Mixed);
        let records = dice.place(72);
        Script::play(heap, Dice::new(dice.throw()), shape.habits(), records)
    }
}
