//! Compares two scripts: for each set, whether both decide alike on every key.
//!
//! Say that line 3 of old.nft adds 192.0.2.0/24 . 443 to a set, and that new.nft adds both halves of that network, without the
//! last address. It also declares a set `extra`:
//!
//!     differs ip filter allowed: 192.0.2.255 . 443 is in element 0 of old.nft (line 3) and in no element of new.nft
//!     only in new.nft: ip filter extra
//!
//! [`compare_scripts`] runs both scripts to their ends and notes the lines of their additions. Then it reports on each set of
//! the first script, in the order of the declarations. For each it finds the second script's set of the same family, table and
//! name. It compares both by their tables, each at its script's last moment. Last come the sets that only the second script has.
//!
//! **Definitions:** `specs/Ending.antt` has a script's end, `Verdict.antt` what is said of two sets, and `Compared.antt` the whole
//! text. `Plain.antt` relates the code's values to them. **Theory:** docs/architecture.md, "What two sets decide differently".
//! **Proofs:** docs/proofs.md, "The comparison of two sets (`set_compare`)".
#![tactic(auto)]

mod comparison;
mod report;
mod side;
mod verdict;

pub use comparison::{Side, compare_scripts};
