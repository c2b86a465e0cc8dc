ghost use Rattle.std.specs.Prelude.{◌<◌};

// A small generator of numbers with its state: the program in plain Rust that is compared has the same one.
#[derive(Drop)]
pub struct Dice {
    state: u64,
}

impl Dice {
    pub fn new(state: u64) -> Dice {
        Dice { state }
    }

    // The state after the last throw.
    pub fn state(&self) -> u64 {
        self.state
    }

    // A number below `n`.
    pub fn below(&mut self, n: u32) -> u32
        requires { 0 < n }
        ensures { result < n }
    {
        self.state = self
            .state
            .wrapping_mul(6_364_136_223_846_793_005)
            .wrapping_add(1_442_695_040_888_963_407);
        ((self.state >> 33) % u64::from(n)) as u32
    }
}
