//! What to do about the bad token of a text beside a script: a key file, the words of a `get`, a plan or a rules file.
//!
//! The sets that the script declares decide. In a key for `ip filter allowed`, whose fields are an address and a port, a
//! prefix is no value, since a packet has one address:
//!
//!     packets:1:19: '192.0.2.0/24' is a prefix
//!     ip filter allowed 192.0.2.0/24 . 80
//!                       ^^^^^^^^^^^^
//!     help: write a single value: a key describes one packet
//!
//! [`explain_in_key`] makes the words after the token and after `help:`, for a line of a key file or for the words of a
//! `get` ([`KeyPlace`]). [`explain_other_text`] makes them for each text beside a script.
//!
//! The functions are proved to be safe. Tests check the words.
//! **Theory:** docs/formats.md, "The standard error".
#![tactic(auto)]

mod beside;
mod chains;
mod key_places;
mod key_values;
mod keys;
mod other_texts;
mod plans;
mod rules;

pub use key_places::KeyPlace;
pub use other_texts::{explain_in_key, explain_other_text};
