//! Reads scripts: statements of nft(8) that declare sets and change their elements, with transactions
//! and sections.
//!
//! The script
//!
//!     add set ip t p { type ipv4_addr . inet_service ; flags interval ; }
//!     add element ip t p { 10.0.0.5 . 1024, 192.168.1.0-192.168.2.1 . 2048 }
//!     commit
//!     round
//!     at 60000
//!     delete element ip t p { 10.0.0.5 . 1024 }
//!
//! declares one set, number 0, and has two sections:
//!
//!     section 0    add, line 2, set 0, 10.0.0.5 . 1024                     moment 0
//!                  add, line 2, set 0, 192.168.1.0-192.168.2.1 . 2048      moment 0
//!                  commit                                                  moment 0
//!     section 1    delete, line 6, set 0, 10.0.0.5 . 1024                  moment 60000
//!                  commit                                                  moment 60000
//!
//! Each element of a list is a step of its own, with the line of its first interval. The end of a
//! section commits an open transaction that has a change. After the first `commit`, `abort` or `round`
//! no set may be declared. A range needs the flag `interval`. [`read_script`] returns the script that a
//! text means. If the text isn't in the grammar, it returns the line of the bad token and the first
//! reason that applies. [`bad_token`] finds that token's place.
//!
//! **Definitions:** `specs/Script.antt` is the grammar as a table of forms. `Names.antt`, `Values.antt`
//! and `Limits.antt` say which words fit at its places, and `Expressions.antt` which expressions a set's
//! type may name. `Changes.antt` says what each statement does,
//! and `ScriptText.antt` what a text means. **Theory:** docs/formats.md, "Scripts". **Proofs:**
//! docs/proofs.md, "Grammars (`token_forms`)".
#![tactic(auto)]

mod clock;
mod declared;
mod draft;
mod elements;
mod expression;
mod kinds;
mod parts;
mod place;
mod script;
mod sets;
mod values;
mod words;

pub use expression::{Expression, ExpressionWord, read_expression_word};
pub use kinds::expressions_law;
pub use place::{place_of_set, table_place, used_set};
pub use script::{
    ScriptError, bad_token, one_script_fault_law, one_script_law, read_script, script_fronts_law,
};
pub use token_forms::{BadToken, Reason, Token, TokenKind, Tokens};
pub use values::read_moment;
pub use words::read_family;
