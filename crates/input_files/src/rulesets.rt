//! Reads a ruleset: what is kept of it is a script.
ghost use Rattle.std.specs.Prelude.{◌≡◌, ◌≤◌, List, [], ◌∷◌, ◌++◌, ℕ, length, IfOk, IfErr, OnOk};
ghost use Rattle.set_model.specs.declared.script.SetDecl.{SetDecl as Declared};
ghost use Rattle.pip_base.specs.Picks.{KeepsLeft, ReadsToEnd};
ghost use Rattle.fault_notes.specs.Told.{MayTell};
ghost use Rattle.input_files.specs.Inputs as inputs;
ghost use Rattle.input_files.specs.Inputs.{ReadsAs, IsFileCause};
ghost use Rattle.input_files.specs.Noted.{IsNoteOn};
ghost use Rattle.input_files.specs.Seen.{AddsSkips, ruleset_names, seen};
ghost use Rattle.input_files.specs.Works.{AreSetsOf};

use crate::fault::{FileFault, Flaw};
use crate::files::text_of;
use crate::script_told::tell_script;
use crate::seen::{Rulesets, Skips};
use pip_base::{Notes, Shelf};
use ruleset_sets::{Sieved, sieve_ruleset};
use set_model::Memory;
use set_script::{bad_token, read_script};
use std::alloc::Global;
use token_forms::ReadError as FormError;

/// A ruleset's text, and what is kept of it.
pub struct SetsRead {
    pub whole: Vec<u8>,
    pub sieved: Sieved,
}

/// The ruleset in the file with this name. What is kept of it is a script.
pub fn sets_of<'a, F: Shelf, N: Notes>(
    alloc: Global,
    shelf: &mut F,
    notes: &mut N,
    rulesets: Rulesets<'_>,
    skipped: &mut Skips,
    name: &'a str,
) -> Result<SetsRead, FileFault<'a>>
    requires { length (F.asked shelf.old) ≤ 2 }
    ensures read { IfOk result (λ r. ReadsAs (seen (ruleset_names rulesets.entry) (F.told shelf.old)) name.now (λ text. (r.whole.items ≡ text) × AreSetsOf text r.sieved.text.items r.sieved.skips)) }
    ensures quiet { OnOk result ((F.asked shelf.new ≡ F.asked shelf.old ++ name.now ∷ []) × (F.faults shelf.new ≡ F.faults shelf.old)) }
    ensures whole { OnOk result (ReadsToEnd (F.is_picked shelf.old) (F.is_picked shelf.new) (F.left shelf.new)) }
    ensures kept { KeepsLeft (F.is_picked shelf.old) (F.is_picked shelf.new) (F.left shelf.old) (F.left shelf.new) }
    ensures told { (other : List ℕ) → F.told shelf.new other ≡ F.told shelf.old other }
    ensures seen { (other : List ℕ) → seen (ruleset_names rulesets.entry) (F.told shelf.new) other ≡ seen (ruleset_names rulesets.entry) (F.told shelf.old) other }
    ensures skips { OnOk result (AddsSkips (F.told shelf.old) (ruleset_names rulesets.entry) name.now skipped.old skipped.new) }
    ensures cause { (sets : List Declared) → IfErr result (IsFileCause (seen (ruleset_names rulesets.entry) (F.told shelf.old)) sets (F.asked shelf.old) (record { name = name.now; form = inputs.rules_of_nft }) (F.asked shelf.new) (F.faults shelf.old) (F.faults shelf.new)) }
    ensures silent { OnOk result (N.told notes.new ≡ N.told notes.old) }
    ensures noted { (sets : List Declared) → IfErr result (λ fault. MayTell (IsNoteOn (seen (ruleset_names rulesets.entry) (F.told shelf.old)) sets name.now fault) (N.told notes.old) (N.told notes.new)) }
{
    let whole = match text_of(alloc, shelf, notes, rulesets, skipped, name) {
        Ok(whole) => whole,
        Err(fault) => return Err(fault),
    };
    let sieved = match sieve_ruleset(alloc, whole.as_slice()) {
        Ok(sieved) => sieved,
        Err(Memory) => return Err(FileFault::Memory),
    };
    let bytes = sieved.text.as_slice();
    match read_script(alloc, bytes) {
        Ok(_) => Ok(SetsRead { whole, sieved }),
        Err(FormError::Bad { line, reason }) => {
            let found = bad_token(alloc, bytes);
            tell_script(alloc, notes, name, bytes, found);
            Err(FileFault::Bad(Flaw::Ruleset { line, reason }))
        }
        Err(FormError::Memory) => Err(FileFault::Memory),
    }
}
