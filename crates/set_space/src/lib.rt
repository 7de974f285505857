//! Generations of sets, and the open transaction that changes them.
//!
//! A [`Work`] is the open transaction. It has a base generation and the sets that it changed. The
//! first change of a set copies it; the copy shares all pages that don't change. A commit
//! (`Work::seal`) makes the next [`Generation`]. It shares every set without expired elements. Of a
//! set with expired elements it makes a copy without them.
//!
//! To remove an element from the tables moves all later rules. So elements that leave a set stay in
//! its image for a while, and many leave it together. The moment `passed` is kept with the image:
//! the set has those elements that are live at `passed`. Take a set with the ports 80 until 1000,
//! 443, 8080 and 8443:
//!
//! ```text
//! commit at 500     passed: none   image: 80, 443, 8080, 8443   set: 80, 443, 8080, 8443
//! commit at 1000    passed: 1000   image: 80, 443, 8080, 8443   set: 443, 8080, 8443
//! ```
//!
//! A set of a generation, a [`KeptSet`], has one bit per element of the image, which says whether it
//! left. The image finds port 443 at place 1. One element before it left, so the set returns place
//! 0. A deletion gives its element the expiry 0, which is live at no moment. A walk asks the other way round: the element
//! at place 0 of the set is at place 1 of the image, and a search over these bits finds it (`KeptSet::element`).
//!
//! If more than a quarter of the image has left, the tables are made anew without the elements that
//! left. Comments call this closing the rule numbers up.
//!
//! A set counts its own elements, and compares that count with its size. With `size 3` the set above
//! is full after the second commit. If another port then replaces one of its ports, the image has
//! five ports and the set three. So such a replacement costs no pass over the tables.
//!
//! A change without effect copies nothing, such as a refused addition or the deletion of a missing
//! element. There are two exceptions, both in a set whose image has elements that left:
//!
//! - The rules of a field refuse an addition. Rules of elements that left count towards their limit.
//! - An addition's expiry isn't after `passed`. The image would take its element for one that left.
//!
//! In both cases the numbers close up in a copy, and the transaction goes on with the copy.
//!
//! **Definitions:** `specs/Open.antt` and `Answers.antt` say what a change returns and leaves, and
//! `OpenSets.antt` what one set of the open transaction is. `LazyImage.antt`, `KeptSet.antt` and
//! `Copies.antt` say which set an image represents, `Tables.antt` which tables a set of a generation
//! has, and `Unchanged.antt` what a commit leaves as it is. **Theory:** docs/architecture.md, "The
//! way of a change". **Proofs:** docs/proofs.md, "A work on sets (`set_space`), text piece by piece
//! (`set_report`)".
#![tactic(auto)]

mod gap_search;
mod generation;
mod kept_set;
mod laws;
mod lazy_image;
mod open_set;
mod sets;
mod work;

pub use generation::Generation;
pub use kept_set::KeptSet;
pub use laws::unchanged_law;
pub use sets::Sets;
pub use work::Work;
