use crate::lexer::Lexer;
use crate::token::Token;
use std::marker::Model;

/// The tokens of a text with their lines and places, one after another. Every line break is a token,
/// and the end of the text is the last one. It takes no memory.
#[derive(Drop)]
pub struct Tokens<'a> {
    lexer: Lexer<'a>,
}

impl<'a> Model for Tokens<'a> {
    ghost use Rattle.std.specs.Prelude.{List, map};
    ghost use Rattle.token_forms.specs.declared.token.Token.{Token};
    ghost use Rattle.token_forms.specs.Token.{token_of};

    ghost Value = { List Token };

    ghost view = { λ a. map token_of a.lexer };
}

impl<'a> Tokens<'a> {
    ghost use Rattle.std.specs.Prelude.{◌≡◌};
    ghost use Rattle.token_forms.specs.TextTokens.{placed_tokens};

    /// All tokens of a text. It takes no memory.
    pub fn new(text: &'a [u8]) -> Self
        ensures { result ≡ placed_tokens text.now }
    {
        Tokens {
            lexer: Lexer::new(text),
        }
    }
}

impl<'a> Iterator for Tokens<'a> {
    ghost use Rattle.std.specs.Iterator.{YieldsFirst, item_count};

    type Item = Token;

    ghost next_gives = { YieldsFirst (λ s. s) };

    ghost remaining = { item_count (λ s. s) };

    fn next(&mut self) -> Option<Token> {
        match self.lexer.next_token() {
            None => None,
            Some(t) => Some(Token {
                kind: t.kind,
                line: t.line,
                from: t.from,
                to: t.from + t.bytes.len() as u64,
            }),
        }
    }
}
