//! Appends lines of text, piece by piece: words, numbers, times and sets.
//!
//! A set is its family, its table's name and its own name. So the pieces `Word("list ")`, `Set` of the
//! set `ip t p`, `Word(" after ")` and `Time(5_400_000)` append
//!
//!     list ip t p after 1h30m
//!
//! [`append_pieces`] appends them one after another. If memory runs out, it has appended a front of
//! their text, and the bytes before it are as they were.
//!
//! **Definitions:** `specs/Pieces.antt` and `Appends.antt`. **Theory:** docs/formats.md, "The
//! transcript". **Proofs:** docs/proofs.md, "A work on sets (`set_space`), text piece by piece
//! (`set_report`)".
#![tactic(auto)]

mod piece;

pub use piece::{Piece, append, append_pieces, family_word};
