//! Names what isn't kept of a ruleset to a person, on the standard error.
//!
//! Of the ruleset `rules.nft` the set in line 2 is left out, a counter in line 9 is dropped, and the chain in
//! line 12 is skipped. The note has a line for each:
//!
//!     rules.nft:2:2: 'set blocked' is left out: 'auto-merge' isn't read here
//!     rules.nft:9:3: 'counter' is dropped: no verdict depends on it
//!     rules.nft:12:2: 'chain input' is skipped: it isn't a set
//!
//! A line has the place of an item or a part, the item's first two tokens, and the reason, with the token that is
//! the reason if one is. It is proved that the note is exactly this text ([`skips_note`]). A byte that isn't
//! printable ASCII appears as its number, as `\x1b` does, so no ruleset can move a terminal.
//!
//! A key or another text beside the ruleset may name a set that is left out. [`SievedRuleset`] keeps what the note on that
//! needs, and makes it:
//!
//!     key:1:13: 'blocked' is left out: 'auto-merge' isn't read here
//!     inet filter blocked 192.0.2.1
//!                 ^^^^^^^
//!     help: name another set, or change the ruleset at rules.nft:5:3
//!
//! **Definitions:** `specs/Skips.antt`. **Theory:** docs/formats.md, "The standard error".
#![tactic(auto)]

mod line;
mod note;
mod sets;

pub use note::{SkipsNote, skips_note};
pub use sets::SievedRuleset;
