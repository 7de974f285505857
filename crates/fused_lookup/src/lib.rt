//! The lookup in one field, fused with the way to the next field or to the ends.
//!
//! The textbook lookup matches a whole row and stores it, and then refills the next row from it.
//! This one takes a word of 64 rules at a time, and stores no matched rule. In the example set of
//! docs/architecture.md, 192.168.1.5 . 2048 is looked up so:
//!
//! ```text
//! address field, word 0   111 AND the four buckets of 192.168.1.5   =  010
//! rule 1 is left          its span sets port rule 1: row 10, window word 0
//! port field, word 0      10 taken out of the row, AND the buckets of 2048   =  10
//! port rule 1 is left     its end is live and has place 1
//! ```
//!
//! A row between two fields is clear but for a window of its words. The window has its first and
//! last word. It also knows which blocks of eight words were touched, in 64 bits: bit k is for
//! block k and each 64th block after it. The walk takes each word out of the row, and so leaves the
//! row clear for the field after the next.
//!
//! Neighbouring rules lead to neighbouring rules: those of one element to the same span, and those of
//! the next element to the span after it. So a run of ones in a word is one run in the next row. Say
//! that all 64 rules of a word are left, and that rule 0 has the span from 10, 2 rules, and rule 63
//! the span from 100, 3 rules. Then the word sets rules 10 to 102 in one step.
//!
//! If no field has more than 128 rules, a row is a number of 128 bits. It then goes from field to field
//! in registers, without rows of scratch and windows ([`refill_small_first`], [`refill_small`],
//! [`lead_small`]).
//!
//! The buckets of a value's last four groups are ANDed first, since they tell most rules apart. If
//! no rule of the word is left, the other groups aren't looked up.
//!
//! **Definitions:** `specs/Filled.antt` (the next field's row), `Led.antt` (the ends),
//! `Window.antt`. **Theory:** docs/architecture.md, "The classifier, by one example". **Proofs:**
//! docs/proofs.md, "The fused lookup (`fused_lookup`)".
#![tactic(auto)]

mod bits;
mod first_field;
mod later_field;
mod led;
mod probe;
mod refill;
mod sieve;
mod small;
mod window;

pub use first_field::{lead_from_first, refill_from_first};
pub use later_field::{lead_from, refill_from};
pub use small::{lead_small, refill_small, refill_small_first};
pub use window::Window;
