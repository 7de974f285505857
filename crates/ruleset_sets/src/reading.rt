ghost use Rattle.std.specs.Prelude.{◌≡◌, ℕ, IfOk, Err};
ghost use Rattle.std.specs.List.{list_any};
ghost use Rattle.set_model.specs.declared.script.Script.{Script as Meant};
ghost use Rattle.set_model.specs.Runnable.{IsRunnable};
ghost use Rattle.token_forms.specs.declared.token.Reason.{Reason as Refused};
ghost use Rattle.token_forms.specs.declared.error.ReadError.TheVariants.{Bad};
ghost use Rattle.token_forms.specs.Gives.{IsReadAs};
ghost use Rattle.ruleset_sets.specs.Kept.{notes};
ghost use Rattle.ruleset_sets.specs.RulesetText.{IsRulesetText, IsBadRuleset, IsBadTokenOfRuleset, leaves_out, reason_token};

use crate::role_token::RoleToken;
use crate::sieve::SkipReason;
use crate::sieved::sieve_ruleset;
use crate::skipped::{Skipped, Skips};
use set_model::{Memory, Script};
use set_script::{BadToken, ScriptError, read_script};
use std::alloc::Global;

/// The sets of a ruleset.
#[derive(Drop)]
pub struct Ruleset {
    /// The script of its sets and of its statements on sets.
    pub script: Script,
    /// What isn't kept of it.
    pub skips: Skips,
}

impl SkipReason {
    /// Whether a set, or a statement on one, is left out for this reason.
    pub fn leaves_out(self) -> bool
        ensures { result ≡ leaves_out self }
    {
        !matches!(self, SkipReason::NoSet | SkipReason::DroppedPart)
    }

    /// The token of the item that is the reason to leave it out, if one is.
    pub fn token(self) -> Option<RoleToken>
        ensures { result ≡ reason_token self }
    {
        match self {
            SkipReason::UnknownType(p)
            | SkipReason::UnknownExpression(p)
            | SkipReason::AutoMerge(p)
            | SkipReason::CatchAll(p)
            | SkipReason::Stateful(p) => Some(p),
            SkipReason::NoSet
            | SkipReason::Unclosed
            | SkipReason::HoldsItem
            | SkipReason::DroppedPart => None,
        }
    }
}

/// Whether a set, or a statement on one, is left out.
pub fn leaves_sets_out(skips: &[Skipped]) -> bool
    ensures { result ≡ list_any (λ s. leaves_out s.why) skips.now }
{
    skips.iter().any(|s| s.why.leaves_out())
}

/// The script that a ruleset means: that of its sets and of its statements on sets. What isn't kept of
/// the ruleset is noted.
///
/// # Errors
///
/// `Bad` exactly if what is kept isn't in the grammar of scripts, with the line of its first token that
/// doesn't fit and the reason. Its line is the ruleset's. `Memory` if memory runs out.
#[tactic(auto, using(crate::proofs::KeptLaws::meant, crate::proofs::KeptLaws::kept_script, crate::proofs::KeptLaws::refused))]
pub fn read_ruleset(alloc: Global, whole: &[u8]) -> Result<Ruleset, ScriptError>
    // What is read is the script that the ruleset means.
    ensures found { IfOk result (λ r. IsRulesetText whole.now r.script) }
    // Each item and each part that isn't kept has its note.
    ensures skips { IfOk result (λ r. r.skips ≡ notes whole.now) }
    // A ruleset that means a script is read as that one, unless memory runs out. So it means at most one.
    ensures only { (s : Meant) → IsRulesetText whole.now s → IsReadAs (λ r. r.script) result s }
    // A refused ruleset means no script.
    ensures bad { (line : ℕ) (reason : Refused) → result ≡ Err (Bad line reason) → IsBadRuleset whole.now line reason }
    // The script can be run on the sets that it declares.
    ensures runnable { IfOk result (λ r. IsRunnable r.script) }
{
    let sieved = match sieve_ruleset(alloc, whole) {
        Ok(sieved) => sieved,
        Err(Memory) => return Err(ScriptError::Memory),
    };
    match read_script(alloc, sieved.text.as_slice()) {
        Ok(script) => Ok(Ruleset {
            script,
            skips: sieved.skips,
        }),
        Err(ScriptError::Bad { line, reason }) => Err(ScriptError::Bad { line, reason }),
        Err(ScriptError::Memory) => Err(ScriptError::Memory),
    }
}

/// The bad token of what is kept of a ruleset, with its place in the ruleset and its reason. `None`
/// exactly if what is kept is a script. `read_ruleset` reports the line and the reason of the same token.
///
/// # Errors
///
/// `Memory` if memory runs out.
#[tactic(auto, using(crate::proofs::KeptLaws::placed))]
pub fn bad_token(alloc: Global, whole: &[u8]) -> Result<Option<BadToken>, Memory>
    ensures { IfOk result (IsBadTokenOfRuleset whole.now) }
{
    let sieved = sieve_ruleset(alloc, whole)?;
    set_script::bad_token(alloc, sieved.text.as_slice())
}
