//! Cuts a text into tokens, reads it along a grammar's forms, and finds the first token that doesn't fit.
//!
//! A key file may have the line `ip t p 10.0.0.5 . 1024`, a key that element 0 of docs/architecture.md
//! holds. It has seven tokens. Each has a kind, a line that counts from 1, and two places: of its first
//! byte, and after its last.
//!
//!     token       ip     t      p      10.0.0.5   .        1024     the end
//!     kind        Word   Word   Word   Word       Word     Word     End
//!     places      0, 2   3, 4   5, 6   7, 15      16, 17   18, 22   22, 22
//!
//! Blanks and comments are gaps between tokens. Line feeds, marks such as `{` and strings in quotes are
//! tokens of their own.
//!
//! A form describes lists of tokens. It says which of them are whole and what value they mean, which
//! are *fronts*, and which sorts of words may come next after a list. A front is how a text of the form
//! may begin. Small forms make larger ones: `>>=` puts one after the other, `either_form` is a choice,
//! and `many` is a repetition. A grammar is one such form. A [`Reader`] reads along it from left to
//! right, looks one token ahead, and takes no memory.
//!
//! Say that the line has `1o24` in place of `1024`. The five tokens before it are a front, and with it
//! they are none. So `1o24` is the bad token. Its place is 18, its length 4, its line 1 and its column
//! 19. Its reason is the first of [`Reason`] that applies: its place asks for a value, so the reason is
//! `Value`. If the text breaks off after the `.`, the bad token is the end: its place is 17, its length
//! 0, and its reason `End`. [`bad_token_before`] and [`plain_bad_token_before`] find all this from the
//! tokens that the reader has left and the reason that it reported.
//!
//! **Definitions:** `specs/Bytes.antt`, `Token.antt`, `Tokens.antt` and `TextTokens.antt` cut a text
//! into tokens. `Form.antt` and `Words.antt` are the forms. `Faults.antt`, `Reasons.antt` and
//! `BadTokens.antt` say which token is bad and why. `Fronts.antt` says what holds of every grammar.
//! **Theory:** docs/formats.md, "Tokens" and "The place and reason of a refusal". **Proofs:**
//! docs/proofs.md, "Grammars (`token_forms`)".
#![tactic(auto)]

mod bad_token;
mod error;
mod lexer;
mod piece;
mod reader;
mod reasons;
mod seen;
mod token;
mod tokens;

pub use bad_token::{BadToken, bad_token_before, plain_bad_token_before};
pub use error::ReadError;
pub use reader::{Reader, is_a_name};
pub use seen::Seen;
pub use token::{Reason, Token, TokenKind};
pub use tokens::Tokens;
