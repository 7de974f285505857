//! Tests the texts that the program reads and writes, by tables of cases.
//!
//! The texts are addresses and times, scripts, rulesets, key files, rules files, captures and their plans, notes of
//! faults, and the words of a command. Files and outputs are real ones or in memory. Copies of elements have
//! tests here, too.
//!
//! Most cases are rows of tables, each a text and the reader's result (`cases.rt`).
//!
//! **Definitions:** none; this crate has only tests. **Theory:** docs/formats.md.
#![tactic(auto)]

#[cfg(test)]
mod addresses;
#[cfg(test)]
mod bytes;
#[cfg(test)]
mod captures;
#[cfg(test)]
mod cases;
#[cfg(test)]
mod copies;
#[cfg(test)]
mod files;
#[cfg(test)]
mod keys;
#[cfg(test)]
mod memory_files;
#[cfg(test)]
mod notes;
#[cfg(test)]
mod packets;
#[cfg(test)]
mod rules;
#[cfg(test)]
mod rulesets;
#[cfg(test)]
mod script_refusals;
#[cfg(test)]
mod scripts;
#[cfg(test)]
mod sets;
#[cfg(test)]
mod words;
