//! Explains refused texts, unreadable files and refused changes to a person, on the standard error.
//!
//! Line 2 of the script `allow.nft` adds `443-70000` to a set of ports. The note on it begins with the
//! file's name and the token's place. Then it says what is wrong, shows the line with a caret under each
//! byte of the token, and says what to do:
//!
//!     allow.nft:2:22: '443-70000' doesn't fit field 1 (inet_service): 70000 is greater than 65535, the last port
//!     add element ip t p { 443-70000 }
//!                          ^^^^^^^^^
//!     help: write a number from 0 to 65535
//!
//! `script_advice` says what is wrong with the bad token of a script and what to do ([`bad_script_note`]), and `key_advice`
//! says it of the texts beside a script ([`bad_text_note`], [`bad_key_note`]). The parts of a note are in `token_notes`.
//!
//! After the first bad token of a script the rest is read again, without the statement of that token, or
//! without the item of a set ([`without_statement`], [`further_note`]). Of a key file the lines after the bad token's are read
//! again ([`without_key_line`], [`further_key_note`]). So one call shows several errors.
//!
//! It is proved that a note on a file begins with its name, and with the place of the bad token or byte
//! if there is one. A note on a bad token shows its line with carets under it. Exactly if the text has the
//! marks of another kind, the note says so instead ([`is_other_kind`]). A note on refused changes has a
//! line for each of the first ones, with its place, and then how many more there are. Tests check the
//! words. A byte of a text or a name that isn't printable ASCII appears as its number, as `\x1b` does. So
//! no file can move a terminal.
//!
//! **Definitions:** `specs/Refusals.antt` has the note on refused changes, and `Hidden.antt` the line on errors that aren't
//! shown. `Told.antt` says that one note is printed, or nothing. `token_notes` and `script_advice` have the others.
//! **Theory:** docs/formats.md, "The standard error".
#![tactic(auto)]

mod bad;
mod captures;
mod hidden;
mod left_out;
mod refusals;
mod refused;
mod told;

pub use bad::{bad_key_note, bad_script_note, bad_text_note, further_key_note, further_note};
pub use captures::capture_note;
pub use hidden::hidden_note;
pub use left_out::{LeftOut, left_out_note, names_set_at};
pub use pcap_keys::CaptureReason;
pub use refusals::refusals_note;
pub use refused::{Met, RefusedChange, RefusedChanges};
pub use script_advice::{without_key_line, without_statement};
pub use token_forms::BadToken;
pub use token_notes::{
    Explained, Note, TextKind, explained_note, is_other_kind, output_fault_note, read_fault_note,
    too_large_note, too_many_clerks_note,
};
pub use told::tell_note;
