//! The judge that walks chains of rules.
use crate::judge::Judge;
use gen_publish::Held;
use rule_chain::{Chains, Lookups};
use set_model::{Key, Packet, Verdict};

/// Judges a packet by chains of rules. All sets that the rules test are of the generation that is held.
#[derive(Drop)]
pub struct ChainJudge {
    /// The chains of a rules file.
    pub chains: Chains,
}

/// Lookups in the generation that is held.
#[derive(Drop)]
struct HeldSets<'a> {
    held: &'a mut Held,
}

impl<'a> Lookups for HeldSets<'a> {
    ghost use Rattle.history_laws.specs.Histories.{EndsWith};

    type State = &'a mut Held;

    ghost state = { λ s. s.held };

    ghost schema = { λ d. d.now.schema };

    ghost looks_in = { λ d g. EndsWith d.now.seen g };

    fn has(&mut self, set: u32, key: &Key, now: u64) -> bool {
        self.held.lookup(set, key, now).is_some()
    }
}

impl Judge for ChainJudge {
    ghost use Rattle.std.specs.Prelude.{◌≡◌};
    ghost use Rattle.rule_chain.specs.Judged.{judged};

    ghost verdict = { λ j g p. judged j.chains g p };

    ghost serves = { λ j schema. j.chains.schema ≡ schema };

    fn judge(&self, held: &mut Held, packet: &Packet) -> Verdict {
        let mut sets = HeldSets { held };
        self.chains.decide(&mut sets, packet)
    }
}
