ghost use Rattle.std.specs.Prelude.{◌≡◌, List};
ghost use Rattle.set_model.specs.Control.{Generation};
ghost use Rattle.set_model.specs.Runnable.{IsFitting};
ghost use Rattle.set_model.specs.declared.script.SetDecl.{SetDecl};
ghost use Rattle.rule_chain.specs.Judged.{has_element};

use set_model::Key;

/// Lookups in the sets of one generation.
pub trait Lookups {
    /// What no call changes. It exists in proofs alone; no code makes one.
    type State;

    ghost state: { Self → Self.State };

    // The declared sets.
    ghost schema: { Self.State → List SetDecl };

    // The generation in which keys are looked up.
    ghost looks_in: { Self.State → Generation → Type 0 };

    /// Whether a set has an element that is live at `now`, in milliseconds, and holds the key. It takes no memory.
    fn has(&mut self, set: u32, key: &Key, now: u64) -> bool
        requires { IsFitting (schema (state self.old)) (record { set = set; key = key.now; now = now }) }
        ensures found { (g : Generation) → looks_in (state self.old) g → result ≡ has_element g set key.now now }
        ensures same { state self.new ≡ state self.old };
}
