//! What a command sees of its files, of which some are rulesets.
ghost use Rattle.std.specs.Prelude.{◌≡◌, ◌++◌, ◌||◌, true, IfOk, OnOk};
ghost use Rattle.std.specs.List.{list_any};
ghost use Rattle.ruleset_sets.specs.RulesetText.{leaves_out};
ghost use Rattle.skip_notes.specs.Skips.{skips_text};
ghost use Rattle.input_files.specs.Seen.{KeepsAll, is_ruleset, kept_if, leaves_if, ruleset_names, skips_if};

use ruleset_sets::{Sieved, Skipped, leaves_sets_out, sieve_ruleset};
use set_model::{Listed, Memory};
use skip_notes::{SievedRuleset, SkipsNote, skips_note};
use std::alloc::Global;

/// The files of a command that are rulesets, by their names. A command reads what is kept of them.
#[derive(Clone, Copy)]
pub enum Rulesets<'a> {
    /// No file is one.
    NoFile,
    /// The file of this name is one.
    OneFile(&'a str),
    /// The files of these names are.
    TwoFiles(&'a str, &'a str),
}

impl<'a> Rulesets<'a> {
    /// Whether the file of this name is a ruleset.
    pub fn has(self, name: &str) -> bool
        ensures { result ≡ is_ruleset (ruleset_names self.entry) name.now }
    {
        match self {
            Rulesets::NoFile => false,
            Rulesets::OneFile(one) => one == name,
            Rulesets::TwoFiles(one, other) => one == name || other == name,
        }
    }
}

/// What isn't kept of the rulesets of a command.
#[derive(Drop)]
pub struct Skips {
    /// A line for each item and each part that isn't kept.
    pub lines: SkipsNote,
    /// Whether a set, or a statement on one, is left out.
    pub leaves_sets_out: bool,
    /// The last ruleset that was read.
    pub ruleset: Option<SievedRuleset>,
}

impl Skips {
    /// All is kept. It takes no memory.
    pub fn new(alloc: Global) -> Skips
        ensures { KeepsAll result }
    {
        Skips {
            lines: SkipsNote::new(alloc),
            leaves_sets_out: false,
            ruleset: None,
        }
    }

    /// Adds what isn't kept of a ruleset with this text.
    fn add(
        &mut self,
        alloc: Global,
        name: &str,
        text: Vec<u8>,
        skips: Listed<Skipped>,
    ) -> Result<(), Memory>
        ensures lines { OnOk result (self.new.lines.bytes.items ≡ self.old.lines.bytes.items ++ skips_text name.now text.items skips) }
        ensures sets { OnOk result (self.new.leaves_sets_out ≡ (self.old.leaves_sets_out || list_any (λ s. leaves_out s.why) skips)) }
    {
        let lines = skips_note(alloc, name, text.as_slice(), skips.as_slice())?;
        self.lines.join(&lines)?;
        self.leaves_sets_out = self.leaves_sets_out || leaves_sets_out(skips.as_slice());
        self.ruleset = Some(SievedRuleset::new(alloc, name, text, skips)?);
        Ok(())
    }
}

/// What is kept of a ruleset. The rest is added to `skipped`.
#[tactic(auto, using(ruleset_sets::proofs::KeptLaws::kept_is))]
fn kept_of(alloc: Global, skipped: &mut Skips, name: &str, text: Vec<u8>) -> Result<Vec<u8>, Memory>
    ensures kept { IfOk result (λ kept. kept.items ≡ kept_if true text.items) }
    ensures lines { OnOk result (skipped.new.lines.bytes.items ≡ skipped.old.lines.bytes.items ++ skips_if true name.now text.items) }
    ensures sets { OnOk result (skipped.new.leaves_sets_out ≡ (skipped.old.leaves_sets_out || leaves_if true text.items)) }
{
    let Sieved { text: kept, skips } = sieve_ruleset(alloc, text.as_slice())?;
    skipped.add(alloc, name, text, skips)?;
    Ok(kept)
}

/// What is read of a text: of a ruleset what is kept of it. The rest of a ruleset is added to `skipped`.
///
/// # Errors
///
/// `Memory` if memory runs out.
pub fn read_of(
    alloc: Global,
    skipped: &mut Skips,
    is_ruleset: bool,
    name: &str,
    text: Vec<u8>,
) -> Result<Vec<u8>, Memory>
    ensures kept { IfOk result (λ kept. kept.items ≡ kept_if is_ruleset text.items) }
    ensures lines { OnOk result (skipped.new.lines.bytes.items ≡ skipped.old.lines.bytes.items ++ skips_if is_ruleset name.now text.items) }
    ensures sets { OnOk result (skipped.new.leaves_sets_out ≡ (skipped.old.leaves_sets_out || leaves_if is_ruleset text.items)) }
{
    if is_ruleset {
        kept_of(alloc, skipped, name, text)
    } else {
        Ok(text)
    }
}
