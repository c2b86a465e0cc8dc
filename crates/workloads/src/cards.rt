// The cards that work is done on.
ghost use Rattle.std.specs.Prelude.{◌<◌};

use super::dice::Dice;

// So many cards, two or more.
#[derive(Clone, Copy)]
pub struct Cards {
    count: u32,
    ghost several: { 1 < count },
}

impl Cards {
    pub fn of(count: u32) -> Option<Cards> {
        if count < 2 {
            return None;
        }
        Some(Cards { count })
    }

    pub fn count(self) -> u32
        ensures { 1 < result }
    {
        self.count
    }

    // The first four of them.
    pub fn hot(self) -> Cards {
        Cards {
            count: self.count.min(4),
        }
    }

    pub fn one(self, dice: &mut Dice) -> u32 {
        dice.below(self.count)
    }

    // Two that differ.
    pub fn pair(self, dice: &mut Dice) -> [u32; 2] {
        let one = self.one(dice);
        let step = 1 + dice.below(self.count - 1);
        [
            one,
            ((u64::from(one) + u64::from(step)) % u64::from(self.count)) as u32,
        ]
    }
}
