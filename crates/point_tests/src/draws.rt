//! Numbers that follow from a seed.
ghost use Rattle.std.specs.Prelude.{◌<◌};

/// The state of a sequence of numbers.
#[derive(Drop)]
pub struct Draws {
    state: u64,
}

impl Draws {
    pub fn new(seed: u64) -> Draws {
        Draws { state: seed }
    }

    /// The next number of 31 bits.
    pub fn next(&mut self) -> u64
        ensures { result < 2147483648 }
    {
        self.state = self
            .state
            .wrapping_mul(6_364_136_223_846_793_005)
            .wrapping_add(1_442_695_040_888_963_407);
        self.state >> 33
    }

    pub fn below(&mut self, end: u64) -> u64
        requires { 0 < end }
        ensures { result < end }
    {
        self.next() % end
    }

    /// A coordinate from -1,000,000 to 1,000,000.
    pub fn coordinate(&mut self) -> i64 {
        self.below(2_000_001) as i64 - 1_000_000
    }
}
