//! The note on tests that no packet can meet.
ghost use Rattle.std.specs.Prelude.{◌≡◌, ◌++◌, List, ℕ, IfOk, OnOk, take, flat_map};
ghost use Rattle.rule_chain.specs.Unmet.{key_types};
ghost use Rattle.unmet_tests.specs.UnmetText.{most_told, rest_text, test_lines, tests_text, unmet_text};

use crate::words::{append_rest, append_words, mark_of};
use rule_chain::{Chains, Test};
use set_model::{Memory, SetDecl};
use std::alloc::Global;
use token_notes::Note;

/// The most tests that have lines of their own.
const MOST_TOLD: usize = 10;

/// A rules file: its name and its text. Its sets, and the types of the packets' keys.
#[derive(Clone, Copy)]
struct Source<'a> {
    name: &'a [u8],
    text: &'a [u8],
    schema: &'a [SetDecl],
    types: &'a [u32],
}

/// Adds the lines on a test.
fn add_test(note: &mut Note, alloc: Global, of: Source<'_>, test: Test) -> Result<(), Memory>
    ensures { OnOk result (note.new.bytes.items ≡ note.old.bytes.items ++ test_lines of.entry.name.now of.entry.text.now of.entry.schema.now of.entry.types.now test) }
{
    let mut words = Vec::new(alloc);
    append_words(of.schema, of.types, test, &mut words)?;
    note.add_marked(of.name, of.text, mark_of(test), words.as_slice())
}

/// Adds the lines on tests, one after the other.
fn add_tests(note: &mut Note, alloc: Global, of: Source<'_>, tests: &[Test]) -> Result<(), Memory>
    ensures { OnOk result (note.new.bytes.items ≡ note.old.bytes.items ++ flat_map (test_lines of.entry.name.now of.entry.text.now of.entry.schema.now of.entry.types.now) tests.now) }
{
    for test in tests {
        match add_test(note, alloc, of, *test) {
            Ok(()) => {}
            Err(_) => return Err(Memory),
        }
    }
    Ok(())
}

/// The first tests, as many as have lines of their own.
fn first_of(tests: &[Test]) -> &[Test]
    ensures { result.now ≡ take most_told tests.now }
{
    &tests[..tests.len().min(MOST_TOLD)]
}

/// Adds how many tests have no lines of their own, if there are any.
fn add_rest(note: &mut Note, alloc: Global, name: &[u8], count: u64) -> Result<(), Memory>
    ensures { OnOk result (note.new.bytes.items ≡ note.old.bytes.items ++ rest_text name.now count) }
{
    if count == 0 {
        return Ok(());
    }
    let mut words = Vec::new(alloc);
    append_rest(name, count, &mut words)?;
    note.add_line(words.as_slice())
}

/// The note on tests.
#[tactic(auto, using(std::proofs::Common::append_assoc))]
fn tests_note(alloc: Global, of: Source<'_>, tests: &[Test]) -> Result<Note, Memory>
    ensures { IfOk result (λ note. note.bytes.items ≡ tests_text of.entry.name.now of.entry.text.now of.entry.schema.now of.entry.types.now tests.now) }
{
    let mut note = Note::new(alloc);
    add_tests(&mut note, alloc, of, first_of(tests))?;
    let more = tests.len().saturating_sub(MOST_TOLD) as u64;
    add_rest(&mut note, alloc, of.name, more)?;
    Ok(note)
}

/// The note on the tests of a rules file that no packet can meet. It is empty if there are none. `types` are the
/// types of the packets' keys. For each of the first ten tests it has the test's place and set, the types of the
/// keys, and the test's line with carets under its first word. Then it says how many more there are.
///
/// # Errors
///
/// `Memory` if memory runs out.
pub fn unmet_note(
    alloc: Global,
    name: &str,
    text: &[u8],
    chains: &Chains,
    types: &[u32],
) -> Result<Note, Memory>
    ensures { (sets : List ℕ) → types.now ≡ key_types chains.now.schema sets → IfOk result (λ note. note.bytes.items ≡ unmet_text name.now text.now chains.now.schema sets chains.now.chains) }
{
    let tests = chains.unmet(alloc, types)?;
    let of = Source {
        name: name.as_bytes(),
        text,
        schema: chains.schema.as_slice(),
        types,
    };
    tests_note(alloc, of, tests.as_slice())
}
