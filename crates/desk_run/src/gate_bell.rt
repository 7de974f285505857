//! The bell of a desk, which also reports each submission to a gate.
use control_desk::Bell;
use packet_pool::Gate;

/// A bell that also reports to a gate which section submits a transaction.
#[derive(Drop)]
pub(crate) struct GateBell<'a, B, G> {
    pub(crate) bell: &'a B,
    pub(crate) gate: &'a G,
    /// The number of the last section.
    pub(crate) last: u64,
}

impl<B: Bell, G: Gate> Bell for GateBell<'_, B, G> {
    fn before(&self, clerk: u32, turn: u64) {
        self.gate.section(u64::from(clerk), self.last, 0);
        self.bell.before(clerk, turn);
    }
}
