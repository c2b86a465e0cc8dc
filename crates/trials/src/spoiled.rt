use super::damage::Damage;
use super::dice::Dice;
use super::trial::Trial;
use records::RECORD_SIZE;
use std::alloc::AllocError;

const LARGEST_FILE: usize = 65_536;
// Where the fields of a record begin.
const FIELDS: [usize; 6] = [0, 4, 8, 12, 16, 24];
// Numbers at the edges of the fields' ranges.
const EDGES: [u32; 8] = [0, 1, 2, 255, 256, 1_000_000, 1_000_001, 0xffff_ffff];

// What can be wrong with the bytes of a file, or with the marks for it. A value and no closure, since dice choose among them.
#[derive(Clone, Copy)]
pub enum Spoiled {
    // A field has another number, or letters of no kind.
    Field,
    // A byte has another value.
    Byte,
    FewMarks,
    Cut,
    TooLong,
}

impl Spoiled {
    // The more telling ones stand there more than once.
    pub const ALL: [Spoiled; 8] = [
        Spoiled::Field,
        Spoiled::Field,
        Spoiled::Field,
        Spoiled::Byte,
        Spoiled::Byte,
        Spoiled::FewMarks,
        Spoiled::Cut,
        Spoiled::TooLong,
    ];
}

impl Damage<Trial> for Spoiled {
    fn apply(self, trial: &mut Trial, dice: &mut Dice) -> Result<(), AllocError> {
        let size = trial.file.len();
        match self {
            Spoiled::Field => set_field(trial, dice),
            Spoiled::Byte => {
                let byte = (dice.throw() % 256) as u8;
                overwrite(trial.file.as_mut_slice(), dice.place(size), &[byte]);
            }
            Spoiled::FewMarks => trial.marks = dice.place(size / RECORD_SIZE),
            Spoiled::Cut => trial.file.truncate(dice.place(size)),
            Spoiled::TooLong => trial.file.resize(LARGEST_FILE + 1 + dice.place(64), 0)?,
        }
        Ok(())
    }
}

// A field of some record gets a number at an edge.
fn set_field(trial: &mut Trial, dice: &mut Dice) {
    let records = trial.file.len() / RECORD_SIZE;
    let start = dice.place(records).wrapping_mul(RECORD_SIZE);
    let field = dice.pick(&FIELDS).unwrap_or(0);
    let number = dice.pick(&EDGES).unwrap_or(0);
    overwrite(
        trial.file.as_mut_slice(),
        start.wrapping_add(field),
        &number.to_be_bytes(),
    );
}

// Writes these bytes over those from a place on; what would stand past the end is left out.
fn overwrite(file: &mut [u8], place: usize, bytes: &[u8]) {
    for (cell, byte) in file.iter_mut().skip(place).zip(bytes.iter()) {
        *cell = *byte;
    }
}
