//! Tests the top call over files in memory, by worked examples of each command.
//!
//! Faults of words, files and outputs come next, then notes, and packet threads that a gate holds for one
//! another.
//!
//! **Definitions:** none; this crate has only tests. **Theory:** docs/formats.md, and docs/architecture.md,
//! "The way of a run".
#![tactic(auto)]

#[cfg(test)]
mod answers;
#[cfg(test)]
mod calls;
#[cfg(test)]
mod comparisons;
#[cfg(test)]
mod desks;
#[cfg(test)]
mod elements;
#[cfg(test)]
mod faults;
#[cfg(test)]
mod json;
#[cfg(test)]
mod listings;
#[cfg(test)]
mod notes;
#[cfg(test)]
mod other_files;
#[cfg(test)]
mod reasons;
#[cfg(test)]
mod rulesets;
#[cfg(test)]
mod runs;
#[cfg(test)]
mod threads;
