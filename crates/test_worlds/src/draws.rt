//! Numbers that look random, and are the same in each run.
ghost use Rattle.std.specs.Prelude.{◌<◌};

/// A stream of numbers (Knuth's linear congruential generator with 64 bits).
#[derive(Drop)]
pub(crate) struct Draws {
    state: u64,
}

impl Draws {
    /// The stream of a seed.
    pub(crate) fn new(seed: u64) -> Draws {
        Draws { state: seed }
    }

    /// The next number, below this one.
    pub(crate) fn below(&mut self, bound: u64) -> u64
        requires { 0 < bound }
        ensures { result < bound }
    {
        self.state = self
            .state
            .wrapping_mul(6364136223846793005)
            .wrapping_add(1442695040888963407);
        (self.state >> 33) % bound
    }

    /// The next number, below this one, or 0 where there is none below it.
    pub(crate) fn any_below(&mut self, bound: usize) -> u64 {
        match bound as u64 {
            0 => 0,
            some => self.below(some),
        }
    }
}
