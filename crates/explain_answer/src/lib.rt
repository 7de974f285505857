//! Explains the answer to each packet of a key file: the element that holds it, or which elements nearly do.
//!
//! [`explain`] runs the sections of a script and of a key file one after another. After each section it answers the packets of
//! this section, each at its own moment. For a set of five elements it may write
//!
//!     ip filter allowed 192.0.2.77 . 443
//!         element 0: 192.0.2.0/24 . 80-443 comment "web" (line 6), 5m left
//!         also in element 3: 192.0.0.0/16 . 443 (line 9)
//!
//! The crate `key_match` writes the explanation of one packet. The answer comes from the set's tables.
//!
//! **Definitions:** `specs/Explained.antt`. **Theory:** docs/architecture.md, "The way of a change". **Proofs:** docs/proofs.md,
//! "A run (`packet_pool`, `script_run`)".
#![tactic(auto)]

mod section;
mod whole;

pub use whole::explain;
