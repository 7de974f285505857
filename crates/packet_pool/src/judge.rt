ghost use Rattle.std.specs.Prelude.{◌≡◌, List};
ghost use Rattle.history_laws.specs.Histories.{EndsWith};
ghost use Rattle.set_model.specs.Control.{Generation};
ghost use Rattle.set_model.specs.Runnable.{IsFitting};
ghost use Rattle.set_model.specs.declared.packet.Packet.{Packet};
ghost use Rattle.set_model.specs.declared.packet.Verdict.{Verdict};
ghost use Rattle.set_model.specs.declared.script.SetDecl.{SetDecl};

use gen_publish::Held;
use set_model::{Packet, Verdict};

/// Gives the verdict on a packet in a held generation.
pub trait Judge: Sync {
    // The verdict on a packet in a generation.
    ghost verdict: { Self → Generation → Packet → Verdict };

    // The schemas for which it can judge.
    ghost serves: { Self → List SetDecl → Type 0 };

    /// The verdict on a packet in the generation that is held.
    fn judge(&self, held: &mut Held, packet: &Packet) -> Verdict
        requires schema { serves self.now held.old.schema }
        requires packet { IsFitting held.old.schema packet.now }
        ensures same { held.new ≡ held.old }
        ensures answer { (g : Generation) → EndsWith held.old.seen g → result ≡ verdict self.now g packet.entry.now };
}
