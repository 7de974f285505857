//! Carries out the words of the command `pipapo`, writes its output and returns the exit status.
//!
//! # Theory of operation
//!
//! [`call::words_behind`] returns the words after the program's name. [`call::call`] reads the files of a command, runs
//! it, writes its output in one piece, and returns the status. Take `x.nft` with element 0 at 10.0.0.5 . 1024 and
//! element 1 at 192.168.1.0-192.168.2.1 . 2048. In `overlap.nft` a later transaction adds 192.168.1.128 . 2048:
//!
//! ```text
//! list x.nft         0: the report of the commit, and the listing of both elements.
//! list overlap.nft   1: the reports of the commit and of the refused change, and the listing of both elements.
//! list               2: the usage line.
//! list missing.nft   5: a line that ends with missing.nft.
//! ```
//!
//! **Files.** A command asks for its files in the order of its words. It asks for a file only if it accepted all files
//! before it. Words that are no command, or that ask for a page, ask for no file.
//!
//! **Output.** All of the output is made before its first byte is written. So if memory runs out, the status is 7 and
//! the sink took nothing. If the sink fails, the status is 6, and the sink may have a front of the text.
//!
//! **Notes.** A note for a person explains words that are no command or no key, a bad file, refused changes or what isn't kept
//! of a ruleset. Of a `judge` the lines on tests that no packet can meet come before it. Neither changes status or output.
//!
//! **Outside.** The files, the output, the notes and the gate are traits. Tests use files in memory, and the program
//! (`pipapo_cli`) uses the system's.
//!
//! **Definitions:** `specs/Promises.antt` has the promises, one clause each, and `Calls.antt` what a call shows.
//! `Texts.antt`, `Transcript.antt`, `Lines.antt` and `Answers.antt` say what is written with which status. `Exactly.antt` says which
//! status comes when, `Names.antt` which files are opened, `Noted.antt` which notes are due, and `Unmet.antt` which
//! lines on tests come first. docs/definitions.md lists what they lead to. **Theory:** docs/architecture.md, "The way of
//! a run". **Proofs:** docs/proofs.md, "Causes and counts (`pip_base`, `input_files`, `pipapo_cli`)".
#![tactic(auto)]

pub mod call;
mod command;
mod delivery;
mod fault;
mod key_told;
mod output;
mod refusals;
mod sets;
mod unmet;
mod words_told;
