//! Reads the files of a command, each whole and by its form, or reports why it can't.
//!
//! For `run allow.nft packets.keys`, [`work_of`] reads the script and then the key file, for the sets
//! that the script declares. It opens a file only after the one before is read and accepted. So the
//! first file that fails decides the answer:
//!
//!     allow.nft is missing                        ReadFault: allow.nft       packets.keys isn't opened
//!     line 5 of allow.nft has a bad token         Bad: Script, line 5        packets.keys isn't opened
//!     packets.keys has 67,108,865 bytes           TooLarge: packets.keys
//!     line 1 of packets.keys has a bad token      Bad: Keys, line 1
//!     both are accepted                           the work: a script and its packets
//!
//! A script comes first, and after it a key file, or a plan and a capture, or a second script. A rules file may
//! come before the key file or the plan. With `sets` a ruleset comes alone. A script may also be given as a ruleset, of
//! which the sets are read ([`Rulesets`]). [`FileFault`] says why a file fails. A note about it goes to the person at
//! the terminal.
//!
//! **Definitions:** `specs/Inputs.antt` lists the files of each command and the form of each.
//! `Seen.antt` says what is read of a ruleset. `Reads.antt` says how far they were read, `Given.antt` and `Works.antt` what their texts mean, and
//! `Noted.antt` what is printed for a person. **Theory:** docs/architecture.md, "The way of a run".
//! **Proofs:** docs/proofs.md, "Causes and counts (`pip_base`, `input_files`, `pipapo_cli`)".
#![tactic(auto)]

mod fault;
mod files;
mod keys_told;
mod left_out;
mod rulesets;
mod script_told;
mod seen;
mod told;
mod work;

pub use fault::{FileFault, Flaw};
pub use files::RulesFile;
pub use left_out::ScriptSets;
pub use seen::{Rulesets, Skips};
pub use work::{Work, work_of};
