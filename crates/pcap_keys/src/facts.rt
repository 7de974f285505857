use frame_facts::Facts;
use set_model::{Duplicate, Listed, Memory};
use std::alloc::Global;

/// A record of a capture.
#[derive(Clone, Copy, Debug, PartialEq, Eq)]
pub struct Frame {
    /// Its time in milliseconds after the first record's time; 0 if the first record's time is later.
    pub moment: u64,
    /// `None` if its bytes aren't a packet of IP, or if too few of them were kept.
    pub facts: Option<Facts>,
}

impl Duplicate for Frame {
    fn copy(&self, _: Global) -> Result<Self, Memory> {
        Ok(*self)
    }
}

/// The records of a capture, in the file's order.
pub type Frames = Listed<Frame>;
