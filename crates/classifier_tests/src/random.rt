ghost use Rattle.std.specs.Prelude.{◌<◌};

use set_model::{Interval, Kind};

/// Numbers that look random and are the same in each run: a xorshift of 64 bits.
#[derive(Drop)]
pub(crate) struct Random {
    state: u64,
}

/// How an interval is drawn.
#[derive(Clone, Copy)]
pub(crate) enum Shape {
    /// One value.
    Single,
    /// A few values.
    Narrow,
    /// From one value to another, so that intervals nest and overlap.
    Wide,
    /// All values of the kind.
    Whole,
}

/// The greatest value of a kind.
pub(crate) fn greatest(kind: Kind) -> u128 {
    match kind {
        Kind::Proto => u8::MAX as u128,
        Kind::Service => u16::MAX as u128,
        Kind::Ipv4 | Kind::Mark => u32::MAX as u128,
        Kind::Ether => 0xFFFF_FFFF_FFFF,
        Kind::Ipv6 => u128::MAX,
    }
}

impl Random {
    /// The numbers of a seed.
    pub(crate) fn new(seed: u64) -> Random {
        Random { state: seed | 1 }
    }

    pub(crate) fn next(&mut self) -> u64 {
        let mut state = self.state;
        state ^= state << 13;
        state ^= state >> 7;
        state ^= state << 17;
        self.state = state;
        state
    }

    /// A number below `n`.
    pub(crate) fn below(&mut self, n: u64) -> u64
        requires { 0 < n }
        ensures { result < n }
    {
        self.next() % n
    }

    /// A value of a kind: one of the least, one of the greatest, or any.
    pub(crate) fn value(&mut self, kind: Kind) -> u128 {
        let greatest = greatest(kind);
        let near = self.below(64) as u128;
        match self.below(4) {
            0 | 1 => near,
            2 => greatest.saturating_sub(near),
            _ => {
                let any = (self.next() as u128) << 64 | self.next() as u128;
                any & greatest
            }
        }
    }

    /// An interval of a kind.
    pub(crate) fn interval(&mut self, kind: Kind, shape: Shape) -> Interval {
        let greatest = greatest(kind);
        let low = self.value(kind);
        match shape {
            Shape::Single => Interval { low, high: low },
            Shape::Narrow => {
                let more = self.below(8) as u128;
                Interval {
                    low,
                    high: low.saturating_add(more).min(greatest),
                }
            }
            Shape::Wide => {
                let other = self.value(kind);
                Interval {
                    low: low.min(other),
                    high: low.max(other),
                }
            }
            Shape::Whole => Interval {
                low: 0,
                high: greatest,
            },
        }
    }

    /// A value of an interval, mostly one of its ends, or now and then any value of the kind.
    pub(crate) fn value_near(&mut self, kind: Kind, part: Interval) -> u128 {
        match self.below(16) {
            0 => self.value(kind),
            1..=6 => part.low,
            7..=11 => part.high,
            _ => part
                .low
                .saturating_add(self.below(4) as u128)
                .min(part.high),
        }
    }
}
