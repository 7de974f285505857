//! What the note says of a test.
ghost use Rattle.std.specs.Prelude.{◌≡◌, ◌++◌, OnOk, decimal, codes};
ghost use Rattle.unmet_tests.specs.UnmetText.{mark_of as mark_on, more_words as words_on_more, test_word as word_of_test, words_on};

use crate::types::{append_first_types, append_set, append_type};
use rule_chain::Test;
use set_model::{Memory, SetDecl};
use text_pieces::Piece::{Number, Word};
use text_pieces::{append, append_pieces};
use token_notes::Marked;

fn test_word(inside: bool) -> &'static [u8]
    ensures { result.now ≡ word_of_test inside }
{
    if inside { b"in" } else { b"out" }
}

/// The first word of a test, with its place.
pub fn mark_of(test: Test) -> Marked
    ensures { result ≡ mark_on test }
{
    Marked {
        at: test.at,
        length: test_word(test.inside).len() as u64,
        line: test.line,
    }
}

/// Appends what is said of a test.
#[tactic(auto, using(std::proofs::Common::append_assoc))]
pub fn append_words(
    schema: &[SetDecl],
    types: &[u32],
    test: Test,
    out: &mut Vec<u8>,
) -> Result<(), Memory>
    ensures { OnOk result (out.new.items ≡ out.old.items ++ words_on schema.now types.now test) }
{
    append(b"'", out)?;
    append(test_word(test.inside), out)?;
    append(b"' is never met: no packet has a key for ", out)?;
    append_set(schema, test.set, out)?;
    append(b" (", out)?;
    append_type(schema, test.set, out)?;
    append(b"); the keys here are of ", out)?;
    append_first_types(schema, types, out)
}

fn more_words(count: u64) -> &'static [u8]
    ensures { result.now ≡ words_on_more count }
{
    if count == 1 {
        b" more test is never met"
    } else {
        b" more tests are never met"
    }
}

/// Appends how many more tests there are.
pub fn append_rest(name: &[u8], count: u64, out: &mut Vec<u8>) -> Result<(), Memory>
    ensures { OnOk result (out.new.items ≡ out.old.items ++ (name.now ++ codes ": " ++ decimal count ++ words_on_more count)) }
{
    append_pieces(
        &[
            Word(name),
            Word(b": "),
            Number(count),
            Word(more_words(count)),
        ],
        out,
    )
}
