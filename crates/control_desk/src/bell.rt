//! A signal before each submission.

/// Is called before each submission of each control thread, in that thread.
pub trait Bell: Sync {
    /// The control thread `clerk` is about to submit. It has submitted `turn` times before; answers of
    /// `Stale` count, too.
    fn before(&self, clerk: u32, turn: u64);
}

/// Does nothing.
#[derive(Clone, Copy)]
pub struct QuietBell;

impl Bell for QuietBell {
    fn before(&self, _clerk: u32, _turn: u64) {}
}
