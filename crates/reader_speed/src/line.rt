//! The lines that are printed.
use crate::fault::Fault;
use std::alloc::Global;
use std::rt::Runtime;

/// What a line begins with: what was measured, and with how many threads.
#[derive(Clone, Copy)]
pub(crate) struct Line {
    pub(crate) who: &'static str,
    pub(crate) threads: u32,
}

impl Line {
    /// Prints a figure with its name and its unit. All lines are printed here, since a place that prints is slow to prove.
    pub(crate) fn print<R: Runtime<A = Global>>(
        self,
        rt: &R,
        what: &str,
        figure: u128,
        unit: &str,
    ) -> Result<(), Fault> {
        println!(rt; "{} {} {what} {figure} {unit}", self.who, self.threads)?;
        Ok(())
    }
}
