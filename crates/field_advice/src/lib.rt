//! What to do about a word that is no value of its field, no declared set and no family.
//!
//! Scripts, key files, plans and rules files all name sets and have words for fields. In a set of ports `443-70000` means no
//! interval, since 70000 is greater than the last port ([`wrong_value`]). The note on it then says so, with the number and the
//! type of the field ([`say_misfit`], [`explain_wrong_value`]):
//!
//!     allow.nft:2:22: '443-70000' doesn't fit field 1 (inet_service): 70000 is greater than 65535, the last port
//!     add element ip t p { 443-70000 }
//!                          ^^^^^^^^^
//!     help: write a number from 0 to 65535
//!
//! The type of a field is found in the set's item `type` or `typeof` ([`kind_at`]). A name that no set has leads to the set of
//! a similar name ([`suggest_set`]), and a word in the place of a family to the family that is meant ([`explain_family`]).
//! Words of nft's rules and of Wireshark lead to the type or the selector of the field that they name ([`tell_replaced`]).
//!
//! The functions are proved to be safe. Tests check the words.
//! **Theory:** docs/formats.md, "The standard error".
#![tactic(auto)]

mod families;
mod kinds;
mod replaced;
mod selectors;
mod set_names;
mod set_words;
mod values;

pub use families::{explain_family, family_meant};
pub use kinds::{expression_at, grown, is_typeof, kind_at};
pub use replaced::{Wanted, begins_with_replaced, has_further_replaced, tell_replaced, type_meant};
pub use selectors::{field_named, selector_of, selectors_of};
pub use set_names::{add_set, explain_unknown, suggest_set};
pub use set_words::{SetWords, is_same, set_named, words_of};
pub use values::{
    Field, WrongValue, address_kind, explain_fields, explain_port, explain_string,
    explain_wrong_value, first_end, is_joined, is_range, mask_bits, port_of, say_misfit,
    say_no_value, types_of, unquoted, word_of, wrong_value,
};
