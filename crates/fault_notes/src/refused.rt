//! A refused change of a run, as a note has it.
use set_model::{Step, Why};

/// A refused change of a script.
#[derive(Clone, Copy, Debug, PartialEq, Eq)]
pub struct RefusedChange {
    /// Its line of the script.
    pub line: u64,
    /// The number of its set among the declared ones.
    pub set: u32,
    /// Why it was refused.
    pub why: Why,
}

/// What a refused change met, as steps of the script.
#[derive(Clone, Copy)]
pub struct Met<'a> {
    /// The change itself.
    pub change: &'a Step,
    /// The addition that made the element in its way, if there is one.
    pub older: Option<&'a Step>,
}

/// The refused changes that a note is on.
#[derive(Clone, Copy)]
pub struct RefusedChanges<'a> {
    /// The first of them, which have a line each.
    pub first: &'a [RefusedChange],
    /// What these met, in the same order.
    pub met: &'a [Met<'a>],
    /// How many there are.
    pub count: u64,
    /// Whether the output shows the generation before a last transaction that failed.
    pub failed: bool,
}
