/// Hears of each section of a run, and of each step, packet and commit in it, as they come. A test uses
/// a gate to hold threads back, and a program to show its progress.
pub trait Gate: Sync {
    /// Comes before each section of a run: its number, the number of the last section, and how many
    /// packets it has. If control threads do the sections, it comes before each transaction. An
    /// implementation may leave it out.
    fn section(&self, _number: u64, _last: u64, _packets: u64) {}

    /// Comes before each step of a section. An implementation may leave it out.
    fn step(&self) {}

    /// Comes before a thread enters for a packet.
    fn before(&self, thread: u32, packet: u64);

    /// Comes after a thread has left for a packet.
    fn after(&self, thread: u32, packet: u64);

    /// Comes before each commit, with the number of the last generation.
    fn closing(&self, generation: u64);

    /// Comes after each commit that didn't run out of memory, with the new number.
    fn closed(&self, generation: u64);
}

/// A gate that does nothing.
pub struct OpenGate;

impl Gate for OpenGate {
    #[inline]
    fn before(&self, _thread: u32, _packet: u64) {}

    #[inline]
    fn after(&self, _thread: u32, _packet: u64) {}

    fn closing(&self, _generation: u64) {}

    fn closed(&self, _generation: u64) {}
}
