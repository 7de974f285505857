//! A summary of a field's rules: marks of the words of 64 rules that a lookup must look at.
//!
//! For each byte of a field's value and each value of that byte, a word has a mark if one of its
//! rules agrees with the byte. Say that word 0 has the rule 10.0.0.5, and word 1 the rules
//! 192.168.1.0/24 and 192.168.2.0/31. For 192.168.1.5 these marks are set:
//!
//! ```text
//! byte 0, 192   word 1
//! byte 1, 168   word 1
//! byte 2, 1     word 1
//! byte 3, 5     words 0, 1      10.0.0.5 has this byte, and 192.168.1.0/24 leaves it free
//! ```
//!
//! A lookup ANDs the lines of the last four bytes. In a longer field the other bytes follow only
//! until at most one word is left. Here word 1 is left, and the lookup visits it alone. A word that
//! is left may have no match: 192.168.2.200 leaves word 1, since two different rules agree with its
//! last two bytes. No word with a match is left out.
//!
//! The marks of 64 words are a page of 64-bit words, which copies share. Line `g * 256 + v` is for
//! value `v` of byte `g`, and its bit `k` is for word `k`. Pages may have tops, which are pages of
//! the same form. Bit `k` of a line of a top says whether page `k` has a mark in that line.
//!
//! **Definitions:** `specs/Marks.antt`. That no word with a match is left out is in `lookup_table`,
//! `specs/Summary.antt` and `Candidates.antt`. **Theory:** docs/architecture.md, "The classifier,
//! by one example". **Proofs:** docs/proofs.md, "Tables (`field_groups`, `lookup_table`)".
#![tactic(auto)]

mod marks;

pub use marks::{candidates, mark_block, mark_line, mark_page, mark_run, new_page, shared_words};
