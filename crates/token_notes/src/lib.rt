//! What a note to a person is made of: its bytes, the line of a token with carets, and the words around a token.
//!
//! Line 2 of the script `allow.nft` adds `443-70000` to a set of ports. The note on it begins with the file's name and the
//! token's place. Then it says what is wrong, shows the line with a caret under each byte of the token, and says what
//! to do:
//!
//!     allow.nft:2:22: '443-70000' doesn't fit field 1 (inet_service): 70000 is greater than 65535, the last port
//!     add element ip t p { 443-70000 }
//!                          ^^^^^^^^^
//!     help: write a number from 0 to 65535
//!
//! This crate has the parts. [`Note::place`] adds the name and the place. [`cut_at`] finds the line and the token in it, and
//! [`Note::source_line`] shows both. What is wrong and what to do grow together ([`Explained`]). A misspelt word is
//! compared with the words that may come there, and at most a third of its letters may differ ([`nearest`]): so
//! `intervall` gives `did you mean 'interval'?`. Words of a line are found by their numbers ([`word_at`]). The notes
//! on files that can't be read are here, too ([`read_fault_note`]), since they need no more than that.
//!
//! It is proved that a note has only printable ASCII, tabs and line feeds. A byte of a text or a name that isn't
//! printable ASCII appears as its number, as `\x1b` does. So no file can move a terminal. It is proved, too, which line is
//! shown and where its carets are, and exactly which texts have the marks of another kind ([`is_other_kind`]).
//!
//! **Definitions:** `specs/Shown.antt` says how a byte is shown and how a note begins. `Source.antt` has the line of a token
//! and its carets, and `OtherKind.antt` the marks of another kind. `Marked.antt` has what is said of a token that isn't bad.
//! **Theory:** docs/formats.md, "The standard error".
#![tactic(auto)]

mod content;
mod explained;
mod files;
mod help;
mod marked;
mod near;
mod note;
mod source;
mod words;

pub use content::{
    begins_a_statement, is_element_line, is_family, is_other_kind, other_kind, without_blanks,
    without_blanks_behind,
};
pub use explained::Explained;
pub use files::{
    explained_note, output_fault_note, read_fault_note, too_large_note, too_many_clerks_note,
};
pub use help::{
    LONG_KEY, NO_INTERFACE, RULES_FILE, SELECTORS, SIZE, TIME, TextKind, explain_plainly,
    explain_reference, explain_slashes, explain_slashes_in_list, is_slashes,
};
pub use marked::Marked;
pub use near::{is_same_in_lower_case, nearest};
pub use note::Note;
pub use source::{Cut, cut_at, first_line, first_of, last_line, shortened};
pub use words::{
    after_words, bytes_of, count_of, is_number, is_one_of, is_separator, item_of, last_word,
    last_words, word_at,
};
