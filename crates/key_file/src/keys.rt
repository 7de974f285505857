ghost use Rattle.std.specs.Prelude.{◌≡◌, ◌≤◌, List, ℕ, All, IfOk, Err, length};
ghost use Rattle.token_forms.specs.Gives.{Gives, IsReadAs};
ghost use Rattle.token_forms.specs.TextTokens.{text_tokens};
ghost use Rattle.token_forms.specs.Faults.{IsFault};
ghost use Rattle.token_forms.specs.Fronts.{AreFrontsClosed, IsRefusedOnce};
ghost use Rattle.token_forms.specs.BadTokens.{HasOneBadToken, IsBadTokenOf};
ghost use Rattle.token_forms.specs.declared.token.Reason.{Reason};
ghost use Rattle.token_forms.specs.declared.error.ReadError.TheVariants.{Bad};
ghost use Rattle.set_model.specs.declared.packet.Packet.{Packet};
ghost use Rattle.set_script.specs.Limits.{most_sets};
ghost use Rattle.key_file.specs.KeysReading as reading;
ghost use Rattle.key_file.specs.Keys.{key_file};
ghost use Rattle.key_file.specs.KeysText.{IsKeysText};
ghost use Rattle.set_model.specs.Runnable.{IsFitting};

use crate::lines::{begin_section, key_lines};
use set_model::{Keys, Memory, Schema, SetDecl};
use std::alloc::Global;
use token_forms::{BadToken, ReadError, Reader, bad_token_before};

/// Why a text wasn't read as a key file.
pub type KeyError = ReadError;

/// Reads all before the end of the text.
#[tactic(auto, using(token_forms::proofs::Refusals::refusals), unfolding(crate::specs::KeysReading::body))]
fn body(reader: &mut Reader, alloc: Global, schema: &[SetDecl]) -> Result<Keys, ReadError>
    requires { length schema.now ≤ most_sets }
    ensures { Gives (λ x. x) result reader.new (reading.body schema.now reader.old) }
{
    let (mut d, _) = key_lines(reader, alloc, schema)?;
    begin_section(alloc, &mut d)?;
    Ok(d.sections)
}

#[tactic(auto, using(token_forms::proofs::Refusals::refusals), unfolding(crate::specs::KeysReading::key_file))]
fn whole(reader: &mut Reader, alloc: Global, schema: &[SetDecl]) -> Result<Keys, ReadError>
    requires { length schema.now ≤ most_sets }
    ensures { Gives (λ x. x) result reader.new (reading.key_file schema.now reader.old) }
{
    let keys = body(reader, alloc, schema)?;
    reader.the_end()?;
    Ok(keys)
}

/// The key file that a text means, for the sets of a schema.
///
/// # Errors
///
/// `Bad` exactly if the text isn't in the grammar, with the line of its first token that doesn't fit
/// and the reason. `Memory` if memory runs out.
pub fn read_keys(alloc: Global, schema: &Schema, text: &[u8]) -> Result<Keys, KeyError>
    // There are no more sets than a script may declare.
    requires { length schema.now ≤ most_sets }
    // What is read is the key file that the text means.
    ensures found { IfOk result (IsKeysText schema.now text.now) }
    // A text that means a key file is read as that one, unless memory runs out. So it means at most one
    // key file.
    ensures only { (keys : List (List Packet)) → IsKeysText schema.now text.now keys → IsReadAs (λ x. x) result keys }
    // A refused text means no key file. The line is its bad token's, and the reason is the first that
    // applies.
    ensures bad { (line : ℕ) (reason : Reason) → result ≡ Err (Bad line reason) → IsFault (key_file schema.now) (text_tokens text.now) line reason }
    // Each packet's set is declared, and its key fits the set's kinds.
    ensures fits { IfOk result (All (All (IsFitting schema.now))) }
{
    let mut reader = Reader::new(text);
    whole(&mut reader, alloc, schema.as_slice())
}

/// The bad token of a text, for the sets of a schema, with its place and its reason. It is `None`
/// exactly if the text is in the grammar. `read_keys` reports the line and the reason of the same
/// token.
///
/// # Errors
///
/// `Memory` if memory runs out.
pub fn bad_token(alloc: Global, schema: &Schema, text: &[u8]) -> Result<Option<BadToken>, Memory>
    requires { length schema.now ≤ most_sets }
    ensures { IfOk result (IsBadTokenOf (key_file schema.now) text.now) }
{
    let mut reader = Reader::new(text);
    match whole(&mut reader, alloc, schema.as_slice()) {
        Ok(_) => return Ok(None),
        Err(ReadError::Memory) => return Err(Memory),
        Err(ReadError::Bad { reason, .. }) => {
            return Ok(bad_token_before(text, reader, reason));
        }
    }
}

/// A text means at most one key file.
pub fn one_key_file_law(_schema: &Schema, _text: &[u8])
    ensures { (keys other : List (List Packet)) → IsKeysText _schema.now _text.now keys → IsKeysText _schema.now _text.now other → keys ≡ other }
{}

/// The tokens before any place of a key file's front are a front of a key file, too.
pub fn key_file_fronts_law(_schema: &Schema)
    ensures { AreFrontsClosed (key_file _schema.now) }
{}

/// A text that is no key file is refused at one line, for one reason, and for one token.
pub fn one_key_file_fault_law(_schema: &Schema, _text: &[u8])
    ensures refused { IsRefusedOnce (key_file _schema.now) (text_tokens _text.now) }
    ensures token { HasOneBadToken (key_file _schema.now) _text.now }
{}
