ghost use Rattle.std.specs.Prelude.{◌≡◌, IfOk};
ghost use Rattle.token_forms.specs.View.{lexeme_of};
ghost use Rattle.ruleset_sets.specs.RoleTokens.{word_of, role_token_of, role_tokens};

use crate::role::{Role, role_of_token};
use set_model::Memory;
use set_script::{ExpressionWord, read_expression_word};
use std::alloc::Global;
use token_forms::{Reader, Seen};

/// A token of a ruleset.
#[derive(Clone, Copy, Debug)]
pub struct RoleToken {
    /// What it is to the ruleset.
    pub role: Role,
    /// The word of an expression that it is, if it is one.
    pub word: Option<ExpressionWord>,
    /// 1 plus the number of line feeds before its first byte.
    pub line: u64,
    /// The place of its first byte in the text.
    pub from: u64,
    /// How many bytes it has.
    pub size: u64,
}

fn word_of_token(t: &Seen) -> Option<ExpressionWord>
    ensures { result ≡ word_of (lexeme_of t.now) }
{
    if t.is_word() {
        read_expression_word(t.bytes)
    } else {
        None
    }
}

/// A token by its role and its place.
fn with_role(t: &Seen) -> RoleToken
    ensures { result ≡ role_token_of (lexeme_of t.now) }
{
    RoleToken {
        role: role_of_token(t),
        word: word_of_token(t),
        line: t.line,
        from: t.from,
        size: t.bytes.len() as u64,
    }
}

/// The tokens of a text. The end of the text is the last one.
pub fn tokens_of(alloc: Global, text: &[u8]) -> Result<Vec<RoleToken>, Memory>
    ensures { IfOk result (λ all. all.items ≡ role_tokens text.now) }
{
    let mut reader = Reader::new(text);
    let mut all = Vec::new(alloc);
    'tokens: while let Some(t) = reader.take() {
        all.push(with_role(&t))?;
    }
    Ok(all)
}
