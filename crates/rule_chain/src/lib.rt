//! Judges packets by chains of rules, whose tests look the packet up in sets of one generation.
//!
//! Say that the set `ip t bad` has 10.0.0.5 . 1024 and `ip t ok` has 192.168.1.0-192.168.2.1 . 2048,
//! and that the rules are
//!
//!     chain block { in ip t bad drop }              # rule 0
//!     chain main { jump block ; in ip t ok accept } # rules 1 and 2
//!     policy drop
//!
//! Rules are numbered from 0 through the file, and the last chain is the base chain. So each packet
//! begins at rule 1:
//!
//!     10.0.0.5 . 1024       rule 1 jumps, rule 0 fits                            rule 0 drop
//!     192.168.1.5 . 2048    rule 1 jumps, rule 0 doesn't fit, rule 2 fits        rule 2 accept
//!     192.168.1.5 . 80      no rule fits that accepts or drops                   policy drop
//!
//! A test looks for an element that is live at the packet's moment and holds its key. `in` asks for
//! one, `out` for none. A jump leads to an earlier chain. If that chain decides nothing, the next rule
//! follows. A walk visits each chain at most once and takes no memory. [`read_rules`] reads a rules
//! file, [`Chains::decide`] gives the verdict on one packet, and [`write_judged`] writes the lines of
//! packets. A packet meets no test of a set whose kinds aren't those of its own set. [`Chains::unmet`]
//! finds the tests that no packet can meet for this reason.
//!
//! **Definitions:** `specs/Rules.antt` is the grammar as a table of forms. `RuleNames.antt` has its
//! words, `RulesText.antt` says what a text means, and `Chains.antt` what holds of it. `Judged.antt`
//! says what chains decide on a packet, `JudgedText.antt` is its line, and `Unmet.antt` has the tests that
//! no packet can meet. **Theory:** docs/formats.md, "Rules files". **Proofs:** docs/proofs.md, "Grammars
//! (`token_forms`)".
#![tactic(auto)]

mod blocks;
mod chains;
mod decide;
mod draft;
mod file;
mod lines;
mod lookups;
mod rules;
mod unmet;
mod words;

pub use chains::{Act, Chain, ChainList, Chains, Rule, RuleList, Test, Tests};
pub use file::{
    RulesError, bad_token, one_rules_fault_law, one_rules_law, read_rules, rules_fronts_law,
};
pub use lines::{judged_rules_law, write_judged};
pub use lookups::Lookups;
pub use token_forms::{BadToken, Reason};
pub use unmet::{add_type, key_types, unmet_law};
