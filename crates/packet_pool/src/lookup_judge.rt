//! The judge that looks a packet's key up in its set.
use crate::judge::Judge;
use gen_publish::Held;
use set_model::{Packet, Verdict};

/// Judges a packet by the first element of its set that is live at the packet's moment and holds its
/// key.
pub struct LookupJudge;

impl Judge for LookupJudge {
    ghost use Rattle.std.specs.Prelude.{slice_get};
    ghost use Rattle.packet_pool.specs.Section.{verdict_in};

    ghost verdict = { λ _ g p. verdict_in p.key p.now (slice_get g.sets p.set) };

    ghost serves = { λ _ _. Unit {0} };

    fn judge(&self, held: &mut Held, packet: &Packet) -> Verdict {
        match held.lookup(packet.set, &packet.key, packet.now) {
            Some(found) => Verdict::Element { id: found.id },
            None => Verdict::None,
        }
    }
}
