//! Tests below the top call: held threads, gates, reports, listings, workloads, and the library's front door.
//!
//! Packet threads and control threads are held for one another. A gate and a terminal show a run, listings
//! are read again, and workloads are generated.
//!
//! **Definitions:** none; this crate has only tests. **Theory:** docs/architecture.md, "The way of a run";
//! docs/formats.md.
#![tactic(auto)]

#[cfg(test)]
mod beside;
#[cfg(test)]
mod desks;
#[cfg(test)]
mod elements;
#[cfg(test)]
mod front_door;
#[cfg(test)]
mod meters;
#[cfg(test)]
mod random;
#[cfg(test)]
mod reports;
#[cfg(test)]
mod round_trips;
#[cfg(test)]
mod scripts;
#[cfg(test)]
mod sections;
#[cfg(test)]
mod workloads;
