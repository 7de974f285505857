//! Reads key files: the packets that are looked up in the sets of a script.
//!
//! For a script with the set `ip t p` of addresses and ports, which is set number 0, the key file
//!
//!     ip t p 10.0.0.5 . 1024
//!     at 60000
//!     t p 192.168.1.5 . 2048
//!     round
//!     ip t p 10.0.0.5 . 80
//!
//! has two sections. Each packet has its set, one value for each field, and its moment in milliseconds:
//!
//!     section 1    packet 0    set 0    10.0.0.5 . 1024       moment 0
//!                  packet 1    set 0    192.168.1.5 . 2048    moment 60000
//!     section 2    packet 2    set 0    10.0.0.5 . 80         moment 60000
//!
//! The family is `ip` if it is left out. A `round` doesn't change the moment, and an `at` may set it
//! back. [`read_keys`] returns the packets of a text. If the text isn't in the grammar, it returns the
//! line of the bad token and the first reason that applies. [`bad_token`] finds that token's place.
//! Each packet's set is declared, and its key fits the set's kinds.
//!
//! **Definitions:** `specs/Keys.antt` is the grammar as a table of forms. `KeyNames.antt` has its
//! words, and `KeysText.antt` says what a text means. **Theory:** docs/formats.md, "Key files".
//! **Proofs:** docs/proofs.md, "Grammars (`token_forms`)".
#![tactic(auto)]

mod draft;
mod keys;
mod lines;
mod packets;

pub use keys::{
    KeyError, bad_token, key_file_fronts_law, one_key_file_fault_law, one_key_file_law, read_keys,
};
pub use token_forms::{BadToken, Reason};
