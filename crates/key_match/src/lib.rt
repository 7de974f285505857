//! Explains which element of a set answers a packet, and which elements nearly do.
//!
//! Say that a set has five elements. Line 6 of its script added element 0 with a comment, and line 9 added element 3:
//!
//!     ip filter allowed 192.0.2.77 . 443
//!         element 0: 192.0.2.0/24 . 80-443 comment "web" (line 6), 5m left
//!         also in element 3: 192.0.0.0/16 . 443 (line 9)
//!     ip filter allowed 192.0.2.77 . 444
//!         no element
//!         192.0.2.77 is in 2 of 5 elements, 444 in 1
//!         nearest: element 0: 192.0.2.0/24 . 80-443 (line 6), but for 444
//!
//! The answer is the first element that is live and holds the key. Its line has its comment and the time until it expires.
//! The later elements that hold the key follow, the first eight of them. If there is no answer, each value of the key has a
//! count of the live elements that hold it. The nearest element is the first of those that hold the most values. An element
//! that held the key before it expired is named, too.
//!
//! Each count and each search is a walk over all elements of the set. So an explanation takes time in the number of elements,
//! and no memory besides the text.
//!
//! **Definitions:** `specs/Holders.antt` has the elements, and `Matched.antt` the text. **Proofs:** docs/proofs.md, "A run
//! (`packet_pool`, `script_run`)".
#![tactic(auto)]

mod asked;
mod explanation;
mod hit;
mod holders;
mod miss;
mod words;

pub use asked::Asked;
pub use explanation::write_packet;
