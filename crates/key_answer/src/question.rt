//! The key that words ask for.
ghost use Rattle.std.specs.Prelude.{◌≡◌, ◌≤◌, ◌∷◌, [], List, ℕ, map, IfOk, IfSome, None, Err, length};
ghost use Rattle.set_model.specs.declared.packet.Packet.{Packet as Asked};
ghost use Rattle.std.specs.String.{string_bytes};
ghost use Rattle.set_model.specs.Runnable.{IsFitting};
ghost use Rattle.set_script.specs.Limits.{most_sets};
ghost use Rattle.token_forms.specs.declared.token.Reason.{Reason};
ghost use Rattle.key_answer.specs.Question.{key_text as text_of_words, IsKey, IsBadKey};
ghost use Rattle.token_forms.specs.declared.error.ReadError.TheVariants.{Bad};
ghost use Rattle.token_forms.specs.declared.bad_token.BadToken.{BadToken as Token};
ghost use Rattle.set_model.specs.declared.script.SetDecl.{SetDecl as Declared};
ghost use Rattle.std.specs.Prelude.{Option};
ghost use Rattle.key_answer.specs.declared.question.AnswerError.TheVariants.{BadKey};

use key_file::{BadToken, KeyError, Reason, bad_token, read_keys};
use set_model::{Keys, Memory, Packet, Schema, Script};
use std::alloc::Global;

/// Why a key has no answer.
#[derive(Drop)]
pub enum AnswerError {
    /// The words are no key: the line of the first token that doesn't fit, and the reason. For a note it has the token, if there
    /// is one and memory sufficed to find it, and the sets of the script.
    BadKey {
        line: u64,
        reason: Reason,
        bad: Option<BadToken>,
        schema: Schema,
    },
    /// Memory ran out.
    Memory,
}

impl From<Memory> for AnswerError {
    ghost use Rattle.std.specs.Prelude.{◌≡◌};
    ghost use Rattle.key_answer.specs.declared.question.AnswerError.TheVariants.{Memory as no_memory};

    ghost from_gives = { λ _ e. e ≡ no_memory };

    fn from(_: Memory) -> AnswerError {
        AnswerError::Memory
    }
}

/// The words as one text, with a blank after each.
///
/// # Errors
///
/// `Memory` if memory runs out.
pub fn key_text(alloc: Global, words: &[String]) -> Result<Vec<u8>, Memory>
    ensures { IfOk result (λ text. text.items ≡ text_of_words (map string_bytes words.now)) }
{
    let mut text = Vec::new(alloc);
    'words: for word in words {
        text.extend_from_slice(word.as_bytes())?;
        text.extend_from_slice(b" ")?;
    }
    Ok(text)
}

/// The one packet of a key file, if it has one and nothing else.
fn only_packet(mut keys: Keys) -> Option<Packet>
    ensures some { IfSome result (λ packet. keys ≡ (packet ∷ []) ∷ []) }
    ensures none { result ≡ None → (packet : Asked) → keys ≡ (packet ∷ []) ∷ [] → ⊥ }
{
    if keys.len() != 1 {
        return None;
    }
    let mut packets = keys.remove(0);
    if packets.len() != 1 {
        return None;
    }
    Some(packets.remove(0))
}

/// The packet that words ask for, read as one line of a key file.
///
/// # Errors
///
/// `Bad` if they are no key. `Memory` if memory runs out.
pub fn packet_of(alloc: Global, schema: &Schema, words: &[String]) -> Result<Packet, KeyError>
    requires { length schema.now ≤ most_sets }
    ensures found { IfOk result (IsKey schema.now (map string_bytes words.now)) }
    ensures fits { IfOk result (IsFitting schema.now) }
    ensures bad { (line : ℕ) (reason : Reason) → result ≡ Err (Bad line reason) → IsBadKey schema.now (map string_bytes words.now) line reason }
{
    let text = key_text(alloc, words)?;
    let keys = match read_keys(alloc, schema, text.as_slice()) {
        Ok(keys) => keys,
        Err(error) => return Err(error),
    };
    match only_packet(keys) {
        Some(packet) => Ok(packet),
        None => Err(KeyError::Bad {
            line: 1,
            reason: Reason::Statement,
        }),
    }
}

/// The bad token of words that are no key, if there is one.
fn bad_word(alloc: Global, schema: &Schema, words: &[String]) -> Result<Option<BadToken>, Memory>
    requires { length schema.now ≤ most_sets }
{
    let text = key_text(alloc, words)?;
    bad_token(alloc, schema, text.as_slice())
}

/// Why words have no answer in a script's sets, with what a note on them needs.
pub fn no_key(alloc: Global, script: Script, words: &[String], error: KeyError) -> AnswerError
    requires { length script.schema ≤ most_sets }
    ensures { (line : ℕ) (reason : Reason) (bad : Option Token) (schema : List Declared) → result ≡ BadKey line reason bad schema → error ≡ Bad line reason }
{
    match error {
        KeyError::Bad { line, reason } => {
            let Script { schema, .. } = script;
            let bad = match bad_word(alloc, &schema, words) {
                Ok(bad) => bad,
                Err(_) => None,
            };
            AnswerError::BadKey {
                line,
                reason,
                bad,
                schema,
            }
        }
        KeyError::Memory => AnswerError::Memory,
    }
}
