//! Tests readers, a writer and control threads beside each other, through the calls that a user makes.
//!
//! **Definitions:** none; this crate has only tests. **Theory:** docs/architecture.md, "Readers beside a
//! writer".
#![tactic(auto)]

#[cfg(test)]
mod asserts;
#[cfg(test)]
mod controls;
#[cfg(test)]
mod desks;
#[cfg(test)]
mod fixture;
#[cfg(test)]
mod kept_sets;
#[cfg(test)]
mod numbers;
#[cfg(test)]
mod packets;
#[cfg(test)]
mod races;
#[cfg(test)]
mod slots;
#[cfg(test)]
mod turns;
