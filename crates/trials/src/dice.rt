ghost use Rattle.std.specs.Prelude.{◌≡◌, ◌<◌};

// Numbers that look random, each made from the one before: the same seed gives the same numbers. The stored answers were made with these,
// so they are no others' dice.
#[derive(Drop)]
pub struct Dice {
    state: u64,
}

impl Dice {
    pub fn new(seed: u64) -> Dice {
        Dice {
            state: seed.wrapping_mul(0x9e37_79b9_7f4a_7c15) | 1,
        }
    }

    pub fn throw(&mut self) -> u64 {
        let mut x = self.state;
        x ^= x << 13;
        x ^= x >> 7;
        x ^= x << 17;
        self.state = x;
        x.wrapping_mul(0x2545_f491_4f6c_dd1d) >> 16
    }

    // A number below n; 0 where n is 0, since whoever has nothing to choose from does nothing with it.
    pub fn below(&mut self, n: u32) -> u32
        ensures { 0 < n → result < n }
    {
        self.place(n as usize) as u32
    }

    // A place below n; 0 where n is 0, likewise.
    pub fn place(&mut self, n: usize) -> usize
        ensures some { 0 < n → result < n }
        ensures none { n ≡ 0 → result ≡ 0 }
    {
        if n == 0 {
            return 0;
        }
        (self.throw() % n as u64) as usize
    }

    // Yes, this many times in a hundred.
    pub fn chance(&mut self, percent: u32) -> bool {
        self.below(100) < percent
    }

    // One of the choices, where there are any.
    pub fn pick<T: Copy>(&mut self, choices: &[T]) -> Option<T> {
        let place = self.place(choices.len());
        choices.get(place).copied()
    }
}
