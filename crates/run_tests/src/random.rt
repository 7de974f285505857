ghost use Rattle.std.specs.Prelude.{◌<◌};

/// Numbers that look random and are the same in each run: a xorshift of 64 bits.
#[derive(Drop)]
pub(crate) struct Random {
    state: u64,
}

impl Random {
    /// The numbers of a seed.
    pub(crate) fn new(seed: u64) -> Random {
        Random { state: seed | 1 }
    }

    fn next(&mut self) -> u64 {
        let mut state = self.state;
        state ^= state << 13;
        state ^= state >> 7;
        state ^= state << 17;
        self.state = state;
        state
    }

    /// A number below `n`.
    pub(crate) fn below(&mut self, n: u64) -> u64
        requires { 0 < n }
        ensures { result < n }
    {
        self.next() % n
    }

    /// A number from 10 to 99, so that all have as many digits.
    pub(crate) fn two_digits(&mut self) -> u64
        ensures { result < 100 }
    {
        10 + self.below(90)
    }

    /// Once in `n`.
    pub(crate) fn once_in(&mut self, n: u64) -> bool
        requires { 0 < n }
    {
        self.below(n) == 0
    }
}
