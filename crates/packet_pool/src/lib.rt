//! Runs a section: packet threads answer its packets in batches of sixteen, beside the control's steps.
//!
//! Say that generation 1 of the set `ip t p` has element 0 of docs/architecture.md alone, 10.0.0.5 .
//! 1024. The section has 40 packets, all with the key 192.168.1.5 . 2048, and two packet threads. Its
//! steps add element 1, 192.168.1.0-192.168.2.1 . 2048, and commit generation 2. The packets are three
//! batches: 0-15, 16-31 and 32-39. [`run_section`] opens a counter at 0. Each worker draws the number
//! of its next batch by one atomic addition of 1, which returns the old count:
//!
//!     control      add element 1 ..... commit: publish generation 2 .................................
//!     thread 0     draws 0: packets 0-15 in generation 1   | draws 2: packets 32-39 in 2 | draws 3: ends
//!     thread 1     draws 1: packets 16-19 in 1, 20-31 in 2 | draws 4: ends
//!
//! A worker that draws 0, 1 or 2 answers that batch, and no other worker does. A worker that draws 3 or
//! more ends. Before the batch's first enter the worker allocates room for its lines. Then each packet
//! takes one enter, one verdict and one leave:
//!
//!     packet 19 thread 1 generation 1 none
//!     packet 20 thread 1 generation 2 element 1
//!
//! The schedule decides which packets see generation 2. In every schedule a packet has one line, and
//! its verdict is right in the generation that the line names. Along one thread generations never fall.
//! At the end the lines of all threads are put into the order of their packets, batch by batch.
//!
//! A [`Judge`] gives the verdicts: [`LookupJudge`] by one lookup, [`ChainJudge`] by chains of rules.
//! [`run_steps`] does the steps without packets.
//!
//! **Definitions:** `specs/Section.antt` says what the lines of a section are, and `Work.antt` what
//! each worker has done. `Draws.antt` is the counter's rule, and `Running.antt` relates the control to
//! the definition's control. **Theory:** docs/architecture.md, "The way of a packet" and "One section,
//! step by step". **Proofs:** docs/proofs.md, "A run (`packet_pool`, `script_run`)" and "The counter
//! and the workers (`packet_pool`)".
#![tactic(auto)]

mod chain_judge;
mod changes;
mod counter;
mod filing;
mod gate;
mod judge;
pub mod laws;
mod lookup_judge;
mod readers;
mod section;
mod steps;
mod traffic;
mod worker;

pub use chain_judge::ChainJudge;
pub use gate::{Gate, OpenGate};
pub use judge::Judge;
pub use lookup_judge::LookupJudge;
pub use section::{SectionResult, run_section};
pub use steps::{count_commits, do_step, run_steps};
