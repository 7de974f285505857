//! A packet's question.

use expiry_scan::TimedElements;
use set_model::SetDecl;

/// A packet and its set, in the generation that answers it.
#[derive(Clone, Copy)]
pub struct Asked<'a> {
    /// The set as the script declares it.
    pub declared: &'a SetDecl,
    /// Its elements, in the order of insertion.
    pub elements: &'a TimedElements,
    /// The lines of the script that added the elements, by their ids.
    pub lines: &'a [u64],
    /// The packet's key.
    pub key: &'a [u128],
    /// The packet's moment, in milliseconds.
    pub at: u64,
}
