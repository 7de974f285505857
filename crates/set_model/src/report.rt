ghost use Rattle.std.specs.Prelude.{◌≡◌};
ghost use Rattle.set_model.specs.Control.{is_refusal as refuses};

use crate::listed::{Duplicate, Listed};
use crate::memory::Memory;
use crate::packet::Verdict;
use std::alloc::Global;

/// Why a change was refused.
#[derive(Clone, Copy, Debug, PartialEq, Eq)]
pub enum Why {
    /// A live element is in the way.
    Overlap { id: u64 },
    /// The element that `create` names exists already.
    Exists { id: u64 },
    /// The set has all elements that it may have.
    Full,
    /// The field would have too many rules.
    RulesFull { field: u32 },
    /// The element that `delete` names is missing.
    Missing,
}

/// An event of the control while it runs a script.
#[derive(Clone, Copy, Debug, PartialEq, Eq)]
pub enum Event {
    Refused { line: u64, set: u32, why: Why },
    Committed { generation: u64, purged: u64 },
    Aborted { generation: u64 },
    /// A transaction that failed in strict mode has ended.
    Dropped { generation: u64 },
}

impl Event {
    /// Whether it is the refusal of a change.
    pub fn is_refusal(&self) -> bool
        ensures { result ≡ refuses self.now }
    {
        match self {
            Event::Refused { .. } => true,
            Event::Committed { .. } | Event::Aborted { .. } | Event::Dropped { .. } => false,
        }
    }
}

/// The answer to one packet: its number, the thread that looked it up, the generation and the
/// verdict.
#[derive(Clone, Copy, Debug, PartialEq, Eq)]
pub struct Line {
    /// The packet's number among all packets, from 0.
    pub packet: u64,
    /// The number of the thread that looked it up, from 0.
    pub thread: u32,
    /// The number of the generation in which it was looked up.
    pub generation: u64,
    /// What was found there.
    pub verdict: Verdict,
}

impl Duplicate for Event {
    fn copy(&self, _: Global) -> Result<Self, Memory> {
        Ok(*self)
    }
}

impl Duplicate for Line {
    fn copy(&self, _: Global) -> Result<Self, Memory> {
        Ok(*self)
    }
}

/// Events in their order.
pub type Events = Listed<Event>;

/// Lines in the order of the packets.
pub type Lines = Listed<Line>;
