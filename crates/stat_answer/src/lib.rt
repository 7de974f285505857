//! Counts what a script's last generation has: elements, expiries, rules and bytes of tables.
//!
//! Say that a set has 10.0.0.5 . 1024 and 192.168.1.0-192.168.2.1 . 2048, and that the second expires in 5 minutes:
//!
//!     set ip filter s elements 2 expired 0 expiring 1 next 5m
//!     field 0 width 8 rules 3 bytes 8192
//!     field 1 width 8 rules 2 bytes 4096
//!     total bytes 12288
//!
//! The address field has three rules, since 192.168.1.0-192.168.2.1 is the blocks 192.168.1.0/24 and 192.168.2.0/31. Its four
//! groups of eight bits have 256 buckets each. A bucket has a bit for each rule, in whole words of eight bytes: 4 * 256 * 8 bytes.
//!
//! [`stat`] runs the script to its end. The moment is the script's last, as of a listing. The figures of fields are those of the
//! tables that `dump` shows.
//!
//! **Definitions:** `specs/Figures.antt` has what is counted, and `StatText.antt` the text. **Theory:** docs/architecture.md, "The
//! classifier, by one example". **Proofs:** docs/proofs.md, "A work on sets (`set_space`), text piece by piece (`set_report`)".
#![tactic(auto)]

mod ages;
mod figures;
mod report;
mod text;

pub use report::stat;
