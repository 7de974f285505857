//! Generates a workload from a seed: a script of elements, and packets for them.
//!
//! The workload of seed 1 with 2 elements has one set, `ip drill s` of addresses and ports, and these
//! elements and packets:
//!
//!     element 0    131.140.44.253-131.140.45.0 . 35031-35046        draws 0-3
//!     element 1    242.151.43.246-242.151.44.187 . 14839-14842      draws 4-7
//!     packet 0     242.151.44.45 . 14840                            draws 8-9, in element 1
//!     packet 1     21.122.99.191 . 18168                            draws 10-12
//!
//! A draw is a number from 0 to 65,535 from a linear congruential generator. The first thirteen draws
//! of seed 1 are 33676, 11517, 20227, 35031, 62103, 11254, 46021, 14839, 32425, 8173, 5498, 25535 and
//! 18168. Two draws make an element's first address, one the lengths of its ranges, and one its first
//! port. An even packet is in an element, and an odd one anywhere. The same seed gives the same
//! workload, so runs can be compared by one line.
//!
//! **Definitions:** `specs/Drill.antt` draws the workload, element by element and packet by packet.
//! `Drawing.antt` says how far it is drawn. **Theory:** docs/formats.md, "`drill`".
#![tactic(auto)]

mod draws;
mod target;
mod workload;

pub use workload::generate;
