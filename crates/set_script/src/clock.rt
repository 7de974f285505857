//! Moments and times of texts. Both are so small that a moment plus a time is a number of 64 bits.
ghost use Rattle.std.specs.Prelude.{◌≡◌, ◌≤◌};
ghost use Rattle.addr_text.specs.Times.{longest_time};
ghost use Rattle.set_script.specs.Limits.{last_moment};

use std::marker::Model;

/// A moment that a text may name.
#[derive(Clone, Copy)]
pub struct Moment {
    ms: u64,
}

impl Model for Moment {
    ghost use Rattle.std.specs.Prelude.{ℕ, ◌≤◌};
    ghost use Rattle.set_script.specs.Limits.{last_moment};

    ghost Value = { ℕ };

    ghost view = { λ m. m.ms };

    ghost invariant = { λ m. m.ms ≤ last_moment };

    ghost inverse = { λ ms. record { ms = ms } };
}

impl Moment {
    /// The moment with so many milliseconds.
    pub fn new(ms: u64) -> Self
        requires { ms ≤ last_moment }
        ensures { result ≡ ms }
    {
        Moment { ms }
    }

    /// Its milliseconds.
    pub fn ms(self) -> u64
        ensures ms { result ≡ self }
        ensures few { result ≤ last_moment }
    {
        self.ms
    }
}

/// A time that a text may mean.
#[derive(Clone, Copy)]
pub struct Time {
    ms: u64,
}

impl Model for Time {
    ghost use Rattle.std.specs.Prelude.{ℕ, ◌≤◌};
    ghost use Rattle.addr_text.specs.Times.{longest_time};

    ghost Value = { ℕ };

    ghost view = { λ t. t.ms };

    ghost invariant = { λ t. t.ms ≤ longest_time };

    ghost inverse = { λ ms. record { ms = ms } };
}

impl Time {
    /// The time of so many milliseconds.
    pub fn new(ms: u64) -> Self
        requires { ms ≤ longest_time }
        ensures { result ≡ ms }
    {
        Time { ms }
    }

    /// Its milliseconds.
    pub fn ms(self) -> u64
        ensures ms { result ≡ self }
        ensures few { result ≤ longest_time }
    {
        self.ms
    }
}
