//! Reads the sets of a ruleset as nft(8) prints it, and notes what it skips.
//!
//! The ruleset
//!
//!     table inet filter {
//!         set blocked {
//!             type ipv4_addr
//!             flags interval
//!             auto-merge
//!         }
//!         set open {
//!             type inet_service
//!             counter
//!             elements = { 22 counter packets 5 bytes 6, 80 }
//!         }
//!         chain input {
//!             type filter hook input priority filter; policy drop;
//!             log prefix "a } b " drop
//!         }
//!     }
//!
//! has three items in its table. Of these, the set `open` is kept without its counters:
//!
//!     line 2     set blocked      left out: auto-merge
//!     line 9     counter          dropped, once for the set
//!     line 12    chain input      skipped
//!
//! What is kept is a text of the same length. Every byte of a token that isn't kept is a blank in it, and
//! every other byte is the ruleset's own. Line feeds stay, so every place has its line and its column in the
//! ruleset ([`same_lines_law`]).
//! It is a script if the ruleset's braces are balanced, no skipped item has another item in its braces, and
//! its sets are in the grammar. [`read_ruleset`] returns that script, with the notes. [`bad_token`] finds the
//! place of a refusal.
//!
//! **Definitions:** `specs/Roles.antt` and `RoleTokens.antt` say what a token is to a ruleset. `Items.antt` cuts
//! a ruleset into items, and `Inner.antt` finds items in the braces of others. `Sieve.antt` says which of the items
//! are kept, and what is dropped of these.
//! `Kept.antt` has the text and the notes, and `RulesetText.antt` the script that a ruleset means.
//! **Theory:** docs/formats.md, "Rulesets". **Proofs:** docs/proofs.md, "Rulesets (`ruleset_sets`)".
#![tactic(auto)]

mod blanks;
mod inner;
mod item;
mod reading;
mod role;
mod role_token;
mod sieve;
mod sieved;
mod skipped;

pub use reading::{Ruleset, bad_token, leaves_sets_out, read_ruleset};
pub use role::Role;
pub use role_token::RoleToken;
pub use sieve::SkipReason;
pub use sieved::{Sieved, same_lines_law, sieve_ruleset};
pub use skipped::{Skipped, Skips};
