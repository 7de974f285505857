//! Bitmaps of rules: rows of bits that grow at their end, and bits with ranks.
//!
//! A [`BitRow`] has one bit for each rule of a field. Contracts see the list of bools, and how many
//! places fit without taking memory. A row is kept in words of 64 bits, with the first place in the
//! lowest bit. In a row of 700 rules, rule 600 is bit 24 of word 9. Memory is taken in steps of 512
//! bits, so this row has room for 1,024 rules.
//!
//! [`RankedBits`] are bits that don't change. They return how many places before a place are set.
//! For each whole page of 512 places they keep the count up to its end, so a rank reads at most
//! eight words.
//!
//! **Definitions:** `specs/Row.antt`, `Words.antt` and `Ranked.antt`. **Theory:**
//! docs/architecture.md, "The classifier, by one example". **Proofs:** docs/proofs.md, "Words of
//! bits (`bit_rows`)".
#![tactic(auto)]

mod lanes;
mod ranked;
mod row;
mod storage;
mod words;

pub use ranked::RankedBits;
pub use row::BitRow;
pub use words::{joined, merged};
