use crate::element::NewElement;
use crate::kind::Kinds;
use crate::listed::{Duplicate, Listed};
use crate::memory::Memory;
use std::alloc::Global;

/// The bytes of a table's or set's name.
pub type Name = Listed<u8>;

/// The address family of a table, as in nft(8).
#[derive(Clone, Copy, Debug, PartialEq, Eq)]
pub enum Family {
    Ip,
    Ip6,
    Inet,
    Arp,
    Bridge,
    Netdev,
}

/// A set as a script declares it.
#[derive(Drop)]
pub struct SetDecl {
    /// The family of its table.
    pub family: Family,
    /// The name of its table.
    pub table: Name,
    /// Its own name.
    pub name: Name,
    /// What each field of a key is.
    pub kinds: Kinds,
    /// The flag `interval`: elements may have intervals of more than one value.
    pub interval: bool,
    /// The flag `timeout`: elements may expire.
    pub timed: bool,
    /// The flag `disjoint`: no two live elements may share a key.
    pub disjoint: bool,
    /// The life of an element that has no timeout of its own, in milliseconds.
    pub timeout: Option<u64>,
    /// The most elements that it may have.
    pub size: Option<u32>,
}

impl Duplicate for SetDecl {
    fn copy(&self, alloc: Global) -> Result<Self, Memory> {
        Ok(SetDecl {
            family: self.family,
            table: self.table.copy(alloc)?,
            name: self.name.copy(alloc)?,
            kinds: self.kinds.copy(alloc)?,
            interval: self.interval,
            timed: self.timed,
            disjoint: self.disjoint,
            timeout: self.timeout,
            size: self.size,
        })
    }
}

/// The four ways to change an element.
#[derive(Clone, Copy, Debug, PartialEq, Eq)]
pub enum Verb {
    Add,
    Create,
    Delete,
    Destroy,
}

/// One step of a script. Lines count from 1, sets from 0 in the order of the schema. Moments are in
/// milliseconds.
#[derive(Drop)]
pub enum Step {
    Change {
        line: u64,
        set: u32,
        verb: Verb,
        element: NewElement,
        now: u64,
    },
    Flush {
        line: u64,
        set: u32,
        now: u64,
    },
    Commit {
        now: u64,
    },
    Abort,
}

impl Duplicate for Step {
    fn copy(&self, alloc: Global) -> Result<Self, Memory> {
        Ok(match self {
            Step::Change {
                line,
                set,
                verb,
                element,
                now,
            } => Step::Change {
                line: *line,
                set: *set,
                verb: *verb,
                element: element.copy(alloc)?,
                now: *now,
            },
            Step::Flush { line, set, now } => Step::Flush {
                line: *line,
                set: *set,
                now: *now,
            },
            Step::Commit { now } => Step::Commit { now: *now },
            Step::Abort => Step::Abort,
        })
    }
}

/// The sets that a script declares, in order.
pub type Schema = Listed<SetDecl>;

/// The steps of a section.
pub type Steps = Listed<Step>;

/// The sections of a script, from 0 on.
pub type Sections = Listed<Steps>;

/// What a script's text means.
#[derive(Drop)]
pub struct Script {
    /// The declared sets, in their order.
    pub schema: Schema,
    /// The sections. There is at least one.
    pub sections: Sections,
    /// The last moment of the script.
    pub last: u64,
}
