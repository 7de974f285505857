ghost use Rattle.std.specs.Prelude.{◌≡◌};
ghost use Rattle.set_model.specs.Kind.{bits_of};

use crate::listed::{Duplicate, Listed};
use crate::memory::Memory;
use std::alloc::Global;

/// The kind of a field of a key, as nft(8) names it: `ipv4_addr`, `ipv6_addr`, `ether_addr`,
/// `inet_proto`, `inet_service` and `mark`.
#[derive(Clone, Copy, Debug, PartialEq, Eq)]
pub enum Kind {
    Ipv4,
    Ipv6,
    Ether,
    Proto,
    Service,
    Mark,
}

impl Kind {
    /// How many bits a value of this kind has.
    pub fn bits(self) -> u32
        ensures { result ≡ bits_of self }
    {
        match self {
            Kind::Ipv4 => 32,
            Kind::Ipv6 => 128,
            Kind::Ether => 48,
            Kind::Proto => 8,
            Kind::Service => 16,
            Kind::Mark => 32,
        }
    }
}

/// The values from `low` to `high`, both included.
#[derive(Clone, Copy, Debug, PartialEq, Eq)]
pub struct Interval {
    /// The lowest value.
    pub low: u128,
    /// The highest value.
    pub high: u128,
}

impl Duplicate for Kind {
    fn copy(&self, _: Global) -> Result<Self, Memory> {
        Ok(*self)
    }
}

impl Duplicate for u128 {
    fn copy(&self, _: Global) -> Result<Self, Memory> {
        Ok(*self)
    }
}

impl Duplicate for u8 {
    fn copy(&self, _: Global) -> Result<Self, Memory> {
        Ok(*self)
    }
}

/// The kinds of a set's fields, in order.
pub type Kinds = Listed<Kind>;

/// One value per field.
pub type Key = Listed<u128>;
