//! Reads one file, whole and by its form.
ghost use Rattle.std.specs.Prelude.{◌≡◌, ◌<◌, ◌≤◌, List, [], ◌∷◌, ◌++◌, ℕ, length, All, Some, IfOk, IfErr, OnOk, Ok};
ghost use Rattle.set_model.specs.declared.script.SetDecl.{SetDecl as Declared};
ghost use Rattle.set_model.specs.Runnable.{IsRunnable, IsFitting};
ghost use Rattle.set_script.specs.Limits.{most_sets};
ghost use Rattle.set_script.specs.ScriptText.{IsScriptText};
ghost use Rattle.key_file.specs.KeysText.{IsKeysText};
ghost use Rattle.rule_chain.specs.RulesText.{IsRulesText};
ghost use Rattle.pcap_keys.specs.Captured.{captured};
ghost use Rattle.pcap_keys.specs.Fitting.{HasValues, IsPlanned};
ghost use Rattle.pcap_keys.specs.PlansText.{IsPlanText};
ghost use Rattle.pip_base.specs.Picks.{KeepsLeft, ReadsToEnd};
ghost use Rattle.pip_base.specs.Whole.{size_limit};
ghost use Rattle.fault_notes.specs.Told.{MayTell};
ghost use Rattle.input_files.specs.Inputs as inputs;
ghost use Rattle.input_files.specs.Inputs.{Input, ReadsAs, IsFileCause, as_second};
ghost use Rattle.input_files.specs.Noted.{IsNoteOn};
ghost use Rattle.input_files.specs.Seen.{AddsSkips, ruleset_names, seen};

use crate::fault::{FileFault, Flaw};
use crate::keys_told::tell_keys;
use crate::left_out::ScriptSets;
use crate::script_told::tell_script;
use crate::seen::{Rulesets, Skips, read_of};
use crate::told::{tell_bad, tell_capture, tell_read_fault, tell_too_large};
use fault_notes::TextKind;
use key_file::read_keys;
use pcap_keys::{CaptureError, Frames, Plan, read_capture, read_plan};
use pip_base::{Notes, ReadError, Shelf, read_whole};
use rule_chain::{Chains, read_rules};
use set_model::{Keys, Memory, Schema, Script};
use set_script::read_script;
use std::alloc::Global;
use token_forms::ReadError as FormError;

/// What a command sees of the file with this name: all its bytes, or what is kept of a ruleset. The rest of a
/// ruleset is added to `skipped`.
#[tactic(auto, using(crate::proofs::SeenLaws::seen_same, crate::proofs::SeenLaws::seen_text, crate::proofs::SeenLaws::seen_large, crate::proofs::SeenLaws::kept_small, crate::proofs::SeenLaws::adds_skips))]
pub fn text_of<'a, F: Shelf, N: Notes>(
    alloc: Global,
    shelf: &mut F,
    notes: &mut N,
    rulesets: Rulesets<'_>,
    skipped: &mut Skips,
    name: &'a str,
) -> Result<Vec<u8>, FileFault<'a>>
    requires { length (F.asked shelf.old) ≤ 3 }
    ensures bytes { IfOk result (λ all. (text : List ℕ) → seen (ruleset_names rulesets.entry) (F.told shelf.old) name.now ≡ Some text → all.items ≡ text) }
    ensures limit { IfOk result (λ all. length all.items ≤ size_limit) }
    ensures quiet { OnOk result ((F.asked shelf.new ≡ F.asked shelf.old ++ name.now ∷ []) × (F.faults shelf.new ≡ F.faults shelf.old)) }
    ensures whole { OnOk result (ReadsToEnd (F.is_picked shelf.old) (F.is_picked shelf.new) (F.left shelf.new)) }
    ensures kept { KeepsLeft (F.is_picked shelf.old) (F.is_picked shelf.new) (F.left shelf.old) (F.left shelf.new) }
    ensures told { (other : List ℕ) → F.told shelf.new other ≡ F.told shelf.old other }
    ensures seen { (other : List ℕ) → seen (ruleset_names rulesets.entry) (F.told shelf.new) other ≡ seen (ruleset_names rulesets.entry) (F.told shelf.old) other }
    ensures skips { OnOk result (AddsSkips (F.told shelf.old) (ruleset_names rulesets.entry) name.now skipped.old skipped.new) }
    ensures cause { (sets : List Declared) (i : Input) → i.name ≡ name.now → IfErr result (IsFileCause (seen (ruleset_names rulesets.entry) (F.told shelf.old)) sets (F.asked shelf.old) i (F.asked shelf.new) (F.faults shelf.old) (F.faults shelf.new)) }
    ensures silent { OnOk result (N.told notes.new ≡ N.told notes.old) }
    ensures noted { (sets : List Declared) → IfErr result (λ fault. MayTell (IsNoteOn (seen (ruleset_names rulesets.entry) (F.told shelf.old)) sets name.now fault) (N.told notes.old) (N.told notes.new)) }
{
    match read_whole(alloc, shelf, name) {
        Ok(text) => {
            match read_of(alloc, skipped, rulesets.has(name), name, text) {
                Ok(kept) => Ok(kept),
                Err(Memory) => Err(FileFault::Memory),
            }
        }
        Err(ReadError::Fault) => {
            tell_read_fault(alloc, notes, name, shelf.fault_kind());
            Err(FileFault::ReadFault(name))
        }
        Err(ReadError::TooLarge) => {
            tell_too_large(alloc, notes, name);
            Err(FileFault::TooLarge(name))
        }
        Err(ReadError::Memory) => Err(FileFault::Memory),
    }
}

/// The script of the file with this name. Its text is put into `kept`.
pub fn script_of<'a, F: Shelf, N: Notes>(
    alloc: Global,
    shelf: &mut F,
    notes: &mut N,
    rulesets: Rulesets<'_>,
    skipped: &mut Skips,
    kept: &mut Vec<u8>,
    name: &'a str,
) -> Result<Script, FileFault<'a>>
    requires { length (F.asked shelf.old) ≤ 3 }
    ensures runnable { IfOk result IsRunnable }
    ensures read { IfOk result (λ script. ReadsAs (seen (ruleset_names rulesets.entry) (F.told shelf.old)) name.now (λ text. IsScriptText text script)) }
    ensures quiet { OnOk result ((F.asked shelf.new ≡ F.asked shelf.old ++ name.now ∷ []) × (F.faults shelf.new ≡ F.faults shelf.old)) }
    ensures whole { OnOk result (ReadsToEnd (F.is_picked shelf.old) (F.is_picked shelf.new) (F.left shelf.new)) }
    ensures kept { KeepsLeft (F.is_picked shelf.old) (F.is_picked shelf.new) (F.left shelf.old) (F.left shelf.new) }
    ensures told { (other : List ℕ) → F.told shelf.new other ≡ F.told shelf.old other }
    ensures seen { (other : List ℕ) → seen (ruleset_names rulesets.entry) (F.told shelf.new) other ≡ seen (ruleset_names rulesets.entry) (F.told shelf.old) other }
    ensures skips { OnOk result (AddsSkips (F.told shelf.old) (ruleset_names rulesets.entry) name.now skipped.old skipped.new) }
    ensures cause { (sets : List Declared) → IfErr result (IsFileCause (seen (ruleset_names rulesets.entry) (F.told shelf.old)) sets (F.asked shelf.old) (record { name = name.now; form = inputs.script }) (F.asked shelf.new) (F.faults shelf.old) (F.faults shelf.new)) }
    ensures silent { OnOk result (N.told notes.new ≡ N.told notes.old) }
    ensures noted { (sets : List Declared) → IfErr result (λ fault. MayTell (IsNoteOn (seen (ruleset_names rulesets.entry) (F.told shelf.old)) sets name.now fault) (N.told notes.old) (N.told notes.new)) }
{
    *kept = match text_of(alloc, shelf, notes, rulesets, skipped, name) {
        Ok(text) => text,
        Err(fault) => return Err(fault),
    };
    let bytes = kept.as_slice();
    match read_script(alloc, bytes) {
        Ok(script) => Ok(script),
        Err(FormError::Bad { line, reason }) => {
            let found = set_script::bad_token(alloc, bytes);
            tell_script(alloc, notes, name, bytes, found);
            Err(FileFault::Bad(Flaw::Script { line, reason }))
        }
        Err(FormError::Memory) => Err(FileFault::Memory),
    }
}

/// The fault of a command's second script.
fn of_second(fault: FileFault<'_>) -> FileFault<'_>
    ensures { result ≡ as_second fault.entry }
{
    match fault {
        FileFault::Bad(Flaw::Script { line, reason }) => {
            FileFault::Bad(Flaw::SecondScript { line, reason })
        }
        _ => fault,
    }
}

/// The script of the file with this name, which is the second script of a command.
pub fn second_script_of<'a, F: Shelf, N: Notes>(
    alloc: Global,
    shelf: &mut F,
    notes: &mut N,
    rulesets: Rulesets<'_>,
    skipped: &mut Skips,
    name: &'a str,
) -> Result<Script, FileFault<'a>>
    requires { length (F.asked shelf.old) ≤ 3 }
    ensures runnable { IfOk result IsRunnable }
    ensures read { IfOk result (λ script. ReadsAs (seen (ruleset_names rulesets.entry) (F.told shelf.old)) name.now (λ text. IsScriptText text script)) }
    ensures quiet { OnOk result ((F.asked shelf.new ≡ F.asked shelf.old ++ name.now ∷ []) × (F.faults shelf.new ≡ F.faults shelf.old)) }
    ensures whole { OnOk result (ReadsToEnd (F.is_picked shelf.old) (F.is_picked shelf.new) (F.left shelf.new)) }
    ensures kept { KeepsLeft (F.is_picked shelf.old) (F.is_picked shelf.new) (F.left shelf.old) (F.left shelf.new) }
    ensures told { (other : List ℕ) → F.told shelf.new other ≡ F.told shelf.old other }
    ensures seen { (other : List ℕ) → seen (ruleset_names rulesets.entry) (F.told shelf.new) other ≡ seen (ruleset_names rulesets.entry) (F.told shelf.old) other }
    ensures skips { OnOk result (AddsSkips (F.told shelf.old) (ruleset_names rulesets.entry) name.now skipped.old skipped.new) }
    ensures cause { (sets : List Declared) → IfErr result (IsFileCause (seen (ruleset_names rulesets.entry) (F.told shelf.old)) sets (F.asked shelf.old) (record { name = name.now; form = inputs.second }) (F.asked shelf.new) (F.faults shelf.old) (F.faults shelf.new)) }
    ensures silent { OnOk result (N.told notes.new ≡ N.told notes.old) }
    ensures noted { (sets : List Declared) → IfErr result (λ fault. MayTell (IsNoteOn (seen (ruleset_names rulesets.entry) (F.told shelf.old)) sets name.now fault) (N.told notes.old) (N.told notes.new)) }
{
    let mut text = Vec::new(alloc);
    match script_of(alloc, shelf, notes, rulesets, skipped, &mut text, name) {
        Ok(script) => Ok(script),
        Err(fault) => Err(of_second(fault)),
    }
}

/// The key file with this name, for the sets of a script.
pub fn keys_of<'a, F: Shelf, N: Notes>(
    alloc: Global,
    shelf: &mut F,
    notes: &mut N,
    rulesets: Rulesets<'_>,
    skipped: &mut Skips,
    schema: &Schema,
    name: &'a str,
) -> Result<Keys, FileFault<'a>>
    requires asked { length (F.asked shelf.old) ≤ 3 }
    requires sets { length schema.now ≤ most_sets }
    ensures fits { IfOk result (All (All (IsFitting schema.now))) }
    ensures read { IfOk result (λ keys. ReadsAs (seen (ruleset_names rulesets.entry) (F.told shelf.old)) name.now (λ text. IsKeysText schema.now text keys)) }
    ensures quiet { OnOk result ((F.asked shelf.new ≡ F.asked shelf.old ++ name.now ∷ []) × (F.faults shelf.new ≡ F.faults shelf.old)) }
    ensures whole { OnOk result (ReadsToEnd (F.is_picked shelf.old) (F.is_picked shelf.new) (F.left shelf.new)) }
    ensures kept { KeepsLeft (F.is_picked shelf.old) (F.is_picked shelf.new) (F.left shelf.old) (F.left shelf.new) }
    ensures told { (other : List ℕ) → F.told shelf.new other ≡ F.told shelf.old other }
    ensures seen { (other : List ℕ) → seen (ruleset_names rulesets.entry) (F.told shelf.new) other ≡ seen (ruleset_names rulesets.entry) (F.told shelf.old) other }
    ensures skips { OnOk result (AddsSkips (F.told shelf.old) (ruleset_names rulesets.entry) name.now skipped.old skipped.new) }
    ensures cause { IfErr result (IsFileCause (seen (ruleset_names rulesets.entry) (F.told shelf.old)) schema.now (F.asked shelf.old) (record { name = name.now; form = inputs.keys }) (F.asked shelf.new) (F.faults shelf.old) (F.faults shelf.new)) }
    ensures silent { OnOk result (N.told notes.new ≡ N.told notes.old) }
    ensures noted { IfErr result (λ fault. MayTell (IsNoteOn (seen (ruleset_names rulesets.entry) (F.told shelf.old)) schema.now name.now fault) (N.told notes.old) (N.told notes.new)) }
{
    let text = match text_of(alloc, shelf, notes, rulesets, skipped, name) {
        Ok(text) => text,
        Err(fault) => return Err(fault),
    };
    let bytes = text.as_slice();
    match read_keys(alloc, schema, bytes) {
        Ok(keys) => Ok(keys),
        Err(FormError::Bad { line, reason }) => {
            let found = key_file::bad_token(alloc, schema, bytes);
            let sets = ScriptSets { schema, skipped };
            tell_keys(alloc, notes, sets, name, bytes, found);
            Err(FileFault::Bad(Flaw::Keys { line, reason }))
        }
        Err(FormError::Memory) => Err(FileFault::Memory),
    }
}

/// A rules file: its name, its text, and the chains that it means.
#[derive(Drop)]
pub struct RulesFile<'a> {
    pub name: &'a str,
    pub text: Vec<u8>,
    pub chains: Chains,
}

/// The rules file with this name, for the sets of a script.
pub fn rules_of<'a, F: Shelf, N: Notes>(
    alloc: Global,
    shelf: &mut F,
    notes: &mut N,
    rulesets: Rulesets<'_>,
    skipped: &mut Skips,
    schema: &Schema,
    name: &'a str,
) -> Result<RulesFile<'a>, FileFault<'a>>
    requires asked { length (F.asked shelf.old) ≤ 3 }
    requires sets { length schema.now ≤ most_sets }
    ensures schema { IfOk result (λ f. f.chains.schema ≡ schema.now) }
    ensures name { IfOk result (λ f. f.name ≡ name.entry) }
    ensures text { IfOk result (λ f. (text : List ℕ) → seen (ruleset_names rulesets.entry) (F.told shelf.old) name.now ≡ Some text → f.text.items ≡ text) }
    ensures read { IfOk result (λ f. ReadsAs (seen (ruleset_names rulesets.entry) (F.told shelf.old)) name.now (λ text. IsRulesText schema.now text (f.chains.chains, f.chains.accept))) }
    ensures quiet { OnOk result ((F.asked shelf.new ≡ F.asked shelf.old ++ name.now ∷ []) × (F.faults shelf.new ≡ F.faults shelf.old)) }
    ensures whole { OnOk result (ReadsToEnd (F.is_picked shelf.old) (F.is_picked shelf.new) (F.left shelf.new)) }
    ensures kept { KeepsLeft (F.is_picked shelf.old) (F.is_picked shelf.new) (F.left shelf.old) (F.left shelf.new) }
    ensures told { (other : List ℕ) → F.told shelf.new other ≡ F.told shelf.old other }
    ensures seen { (other : List ℕ) → seen (ruleset_names rulesets.entry) (F.told shelf.new) other ≡ seen (ruleset_names rulesets.entry) (F.told shelf.old) other }
    ensures skips { OnOk result (AddsSkips (F.told shelf.old) (ruleset_names rulesets.entry) name.now skipped.old skipped.new) }
    ensures cause { IfErr result (IsFileCause (seen (ruleset_names rulesets.entry) (F.told shelf.old)) schema.now (F.asked shelf.old) (record { name = name.now; form = inputs.rules }) (F.asked shelf.new) (F.faults shelf.old) (F.faults shelf.new)) }
    ensures silent { OnOk result (N.told notes.new ≡ N.told notes.old) }
    ensures noted { IfErr result (λ fault. MayTell (IsNoteOn (seen (ruleset_names rulesets.entry) (F.told shelf.old)) schema.now name.now fault) (N.told notes.old) (N.told notes.new)) }
{
    let text = match text_of(alloc, shelf, notes, rulesets, skipped, name) {
        Ok(text) => text,
        Err(fault) => return Err(fault),
    };
    let bytes = text.as_slice();
    match read_rules(alloc, schema, bytes) {
        Ok(chains) => Ok(RulesFile { name, text, chains }),
        Err(FormError::Bad { line, reason }) => {
            let found = rule_chain::bad_token(alloc, schema, bytes);
            let sets = ScriptSets { schema, skipped };
            tell_bad(alloc, notes, TextKind::Rules, sets, name, bytes, found);
            Err(FileFault::Bad(Flaw::Rules { line, reason }))
        }
        Err(FormError::Memory) => Err(FileFault::Memory),
    }
}

/// The plan of the file with this name, for the sets of a script.
pub fn plan_of<'a, F: Shelf, N: Notes>(
    alloc: Global,
    shelf: &mut F,
    notes: &mut N,
    rulesets: Rulesets<'_>,
    skipped: &mut Skips,
    schema: &Schema,
    name: &'a str,
) -> Result<Plan, FileFault<'a>>
    requires asked { length (F.asked shelf.old) ≤ 3 }
    requires sets { length schema.now ≤ most_sets }
    ensures fits { IfOk result (All (IsPlanned schema.now)) }
    ensures read { IfOk result (λ plan. ReadsAs (seen (ruleset_names rulesets.entry) (F.told shelf.old)) name.now (λ text. IsPlanText schema.now text plan)) }
    ensures quiet { OnOk result ((F.asked shelf.new ≡ F.asked shelf.old ++ name.now ∷ []) × (F.faults shelf.new ≡ F.faults shelf.old)) }
    ensures whole { OnOk result (ReadsToEnd (F.is_picked shelf.old) (F.is_picked shelf.new) (F.left shelf.new)) }
    ensures kept { KeepsLeft (F.is_picked shelf.old) (F.is_picked shelf.new) (F.left shelf.old) (F.left shelf.new) }
    ensures told { (other : List ℕ) → F.told shelf.new other ≡ F.told shelf.old other }
    ensures seen { (other : List ℕ) → seen (ruleset_names rulesets.entry) (F.told shelf.new) other ≡ seen (ruleset_names rulesets.entry) (F.told shelf.old) other }
    ensures skips { OnOk result (AddsSkips (F.told shelf.old) (ruleset_names rulesets.entry) name.now skipped.old skipped.new) }
    ensures cause { IfErr result (IsFileCause (seen (ruleset_names rulesets.entry) (F.told shelf.old)) schema.now (F.asked shelf.old) (record { name = name.now; form = inputs.plan }) (F.asked shelf.new) (F.faults shelf.old) (F.faults shelf.new)) }
    ensures silent { OnOk result (N.told notes.new ≡ N.told notes.old) }
    ensures noted { IfErr result (λ fault. MayTell (IsNoteOn (seen (ruleset_names rulesets.entry) (F.told shelf.old)) schema.now name.now fault) (N.told notes.old) (N.told notes.new)) }
{
    let text = match text_of(alloc, shelf, notes, rulesets, skipped, name) {
        Ok(text) => text,
        Err(fault) => return Err(fault),
    };
    let bytes = text.as_slice();
    match read_plan(alloc, schema, bytes) {
        Ok(plan) => Ok(plan),
        Err(FormError::Bad { line, reason }) => {
            let found = pcap_keys::bad_token(alloc, schema, bytes);
            let sets = ScriptSets { schema, skipped };
            tell_bad(alloc, notes, TextKind::Plan, sets, name, bytes, found);
            Err(FileFault::Bad(Flaw::Plan { line, reason }))
        }
        Err(FormError::Memory) => Err(FileFault::Memory),
    }
}

/// The frames of the capture with this name.
pub fn capture_of<'a, F: Shelf, N: Notes>(
    alloc: Global,
    shelf: &mut F,
    notes: &mut N,
    rulesets: Rulesets<'_>,
    skipped: &mut Skips,
    name: &'a str,
) -> Result<Frames, FileFault<'a>>
    requires { length (F.asked shelf.old) ≤ 3 }
    ensures values { IfOk result (All HasValues) }
    ensures read { IfOk result (λ frames. ReadsAs (seen (ruleset_names rulesets.entry) (F.told shelf.old)) name.now (λ text. captured text ≡ Ok frames)) }
    ensures quiet { OnOk result ((F.asked shelf.new ≡ F.asked shelf.old ++ name.now ∷ []) × (F.faults shelf.new ≡ F.faults shelf.old)) }
    ensures whole { OnOk result (ReadsToEnd (F.is_picked shelf.old) (F.is_picked shelf.new) (F.left shelf.new)) }
    ensures kept { KeepsLeft (F.is_picked shelf.old) (F.is_picked shelf.new) (F.left shelf.old) (F.left shelf.new) }
    ensures told { (other : List ℕ) → F.told shelf.new other ≡ F.told shelf.old other }
    ensures seen { (other : List ℕ) → seen (ruleset_names rulesets.entry) (F.told shelf.new) other ≡ seen (ruleset_names rulesets.entry) (F.told shelf.old) other }
    ensures skips { OnOk result (AddsSkips (F.told shelf.old) (ruleset_names rulesets.entry) name.now skipped.old skipped.new) }
    ensures cause { (sets : List Declared) → IfErr result (IsFileCause (seen (ruleset_names rulesets.entry) (F.told shelf.old)) sets (F.asked shelf.old) (record { name = name.now; form = inputs.capture }) (F.asked shelf.new) (F.faults shelf.old) (F.faults shelf.new)) }
    ensures silent { OnOk result (N.told notes.new ≡ N.told notes.old) }
    ensures noted { (sets : List Declared) → IfErr result (λ fault. MayTell (IsNoteOn (seen (ruleset_names rulesets.entry) (F.told shelf.old)) sets name.now fault) (N.told notes.old) (N.told notes.new)) }
{
    let text = match text_of(alloc, shelf, notes, rulesets, skipped, name) {
        Ok(text) => text,
        Err(fault) => return Err(fault),
    };
    let bytes = text.as_slice();
    match read_capture(alloc, bytes) {
        Ok(capture) => Ok(capture),
        Err(CaptureError::Bad { byte, reason }) => {
            tell_capture(alloc, notes, name, bytes, byte, reason);
            Err(FileFault::Bad(Flaw::Capture { byte, reason }))
        }
        Err(CaptureError::Memory) => Err(FileFault::Memory),
    }
}
