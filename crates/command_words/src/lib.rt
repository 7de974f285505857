//! Reads the words of a command: which command they are, with its names, numbers and options.
//!
//!     words                                     meaning
//!     run allow.nft packets.keys                a run, with 1 packet thread
//!     run --threads 4 allow.nft packets.keys    the same with 4 packet threads
//!     list - --keep-going                       a listing of the script on the standard input
//!     run allow.nft                             no command: a name is missing
//!     run - -                                   no command: the standard input is named twice
//!     drill 1 20001                             no command: more than 20,000 elements
//!     get --at 500 allow.nft ip t p 10.0.0.5    a question for the key `ip t p 10.0.0.5` at moment 500
//!     get allow.nft ip t p 10.0.0.5 --at 500    no command: an option comes after the script
//!     run --threads=4 allow.nft packets.keys    the same as with `--threads 4`
//!     run --sets rules.nft packets.keys         a run, whose script is what is kept of a ruleset
//!     run allow.nft packets.keys --elements     a run, whose lines have the elements that packets find
//!     list allow.nft --elements                 no command: a listing has no lines of packets
//!     list allow.nft --json                     a listing as JSON
//!     help run                                  the page of help on `run`
//!     -V                                        the page of the version
//!
//! The first word is the command. Names and options follow in any order. The options of `get` come
//! before the script, since all words after it are the key. [`command_of`] returns the
//! command that the words are, or says that they are none. Before that, [`take_forms`] takes out the options `--sets`,
//! `--elements` and `--json`, which say in which form scripts are given and the answer is written. [`page_of`] returns the page of help that
//! they ask for, and [`Page::text`] its text. To refuse words takes no memory.
//!
//! **Definitions:** `specs/Words.antt` says which words are a command and which ask for help.
//! `GetWords.antt` has those of `get`. `WordForms.antt` says how the shape of the others is tested, and `FormOptions.antt` which
//! options of forms a command takes. **Theory:** docs/formats.md, "Words, statuses and fault lines". **Proofs:**
//! docs/proofs.md, "Words (`command_words`)".
#![tactic(auto)]

mod asked;
mod form;
mod help;
mod page;
mod shape;
mod words;

pub use asked::LAST_MOMENT;
pub use form::{AnswerForm, FormOption, Forms, ScriptForm, take_forms};
pub use page::{Page, page_of};
pub use shape::{MOST_ELEMENTS, MOST_THREADS, Verb, number_of};
pub use words::{Command, Task, WordsError, command_of};
