ghost use Rattle.std.specs.Prelude.{◌≡◌, List, ℕ, Option, None};

use crate::notes::Notes;
use std::io::Write;

/// The standard error. Contracts say nothing of what arrived. If a write to it fails, the text is lost
/// without a report.
#[derive(Drop)]
pub struct ErrNotes<W: Write + Drop> {
    out: W,
}

impl<W: Write + Drop> ErrNotes<W> {
    /// Notes that go to `out`.
    pub fn new(out: W) -> ErrNotes<W> {
        ErrNotes { out }
    }
}

impl<W: Write + Drop> Notes for ErrNotes<W> {
    ghost told = { λ _. None };

    fn tell(&mut self, text: &[u8]) {
        let _ = self.out.write_all(text);
    }
}
