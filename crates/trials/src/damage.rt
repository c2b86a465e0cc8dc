use super::dice::Dice;
use std::alloc::AllocError;

// Something that can be done to a history's lines, or to its file, to spoil it.
pub trait Damage<T> {
    // Does this damage somewhere.
    fn apply(self, target: &mut T, dice: &mut Dice) -> Result<(), AllocError>;
}

// Does some of these damages: none at all, one or two.
pub fn spoil<T, D: Damage<T> + Copy>(
    target: &mut T,
    damages: &[D],
    dice: &mut Dice,
) -> Result<(), AllocError> {
    for _ in 0..dice.pick(&[0, 0, 0, 0, 0, 1, 2]).unwrap_or(0) {
        if let Some(damage) = dice.pick(damages) {
            damage.apply(target, dice)?;
        }
    }
    Ok(())
}
