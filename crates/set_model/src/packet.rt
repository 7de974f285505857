use crate::kind::Key;
use crate::listed::{Duplicate, Listed};
use crate::memory::Memory;
use std::alloc::Global;

/// A packet: the set that it is looked up in, its key and its moment in milliseconds.
#[derive(Drop)]
pub struct Packet {
    /// The set, by its place among the declared sets.
    pub set: u32,
    /// One value per field.
    pub key: Key,
    /// Its moment, in milliseconds.
    pub now: u64,
}

impl Duplicate for Packet {
    fn copy(&self, alloc: Global) -> Result<Self, Memory> {
        Ok(Packet {
            set: self.set,
            key: self.key.copy(alloc)?,
            now: self.now,
        })
    }
}

/// The packets of a section.
pub type Packets = Listed<Packet>;

/// The packets of a key file, section by section. The first is section 1.
pub type Keys = Listed<Packets>;

/// The place and the id of an element that a lookup found.
#[derive(Clone, Copy, Debug, PartialEq, Eq)]
pub struct Found {
    /// The place in the list of elements, from 0.
    pub place: u64,
    /// The number in the order of insertion.
    pub id: u64,
}

/// The result of a packet's lookup.
#[derive(Clone, Copy, Debug, PartialEq, Eq)]
pub enum Verdict {
    None,
    Element { id: u64 },
}
