//! What to do about the bad token of a script, and the script without it.
//!
//! One walk over the tokens before the bad one finds what surrounds it: the braces, the statement, the element so far, and
//! the sets that are declared. Here it finds the set `ip t p`, its flags, and that the token is in an element of it:
//!
//!     allow.nft:3:25: 'timeout' needs a set with the flag timeout
//!     add element ip t p { 80 timeout 5s }
//!                             ^^^^^^^
//!     help: declare the set with 'flags interval, timeout'
//!
//! [`explain_script`] makes the words after the token and after `help:`. After the first bad token the rest of the script is
//! read again, without the statement of that token, or without the item of a set ([`without_statement`]). Of a key file the
//! lines after the bad token's are read again ([`without_key_line`]). So one call shows several errors.
//! [`is_caused`] says of a further error whether an earlier one may have caused it.
//!
//! It is proved that the rest is the text with one part blanked out: its line feeds stay, and so does the place of each other
//! byte. The other functions are proved to be safe. Tests check the words.
//!
//! **Definitions:** `specs/Blanked.antt` says what a text with a part blanked out is.
//! **Theory:** docs/formats.md, "The standard error".
#![tactic(auto)]

mod around;
mod expressions;
mod fault;
mod held;
mod lists;
mod other_tools;
mod rest;
mod script;
mod sets;
mod shell;
mod syntax;
mod times;
mod types;
mod values;

pub use rest::{is_caused, without_key_line, without_statement};
pub use script::explain_script;
