ghost use Rattle.std.specs.Prelude.{◌≡◌, List, ℕ, Option};
ghost use Rattle.pip_base.specs.Notes.{Tells};

/// Where texts for a person go, beside the output. A call returns nothing, so nothing depends on
/// whether a text arrived.
pub trait Notes {
    /// The bytes noted so far, if they are known.
    ghost told: { Self → Option (List ℕ) };

    /// Notes a text of whole lines.
    fn tell(&mut self, text: &[u8])
        ensures { Tells (told self.old) (told self.new) text.now };
}
