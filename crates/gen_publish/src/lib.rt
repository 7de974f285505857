//! Commits generations of sets by one control, while up to sixteen readers look keys up in them without waiting.
//!
//! # Theory of operation
//!
//! A *generation* is all sets at the moment of a commit, and the commit's number. It never changes. Take one set of
//! ports, a control and two readers:
//!
//! ```text
//! control               committed     reader 0                 reader 1
//! start                 0
//!                                     enter: holds 0
//! insert 80, commit     0 1           lookup 80: none
//!                                                              enter: holds 1
//! insert 443, commit    0 1 2         lookup 80: none          lookup 80: id 0
//! insert 22, abort      0 1 2         leave, enter: holds 2    lookup 443: none
//!                                     lookup 443: id 1
//!                                     lookup 22: none
//! ```
//!
//! **Changes.** `insert`, `create`, `delete`, `destroy` and `flush` change open sets that no reader sees. Port 443 is in
//! the open set at once, and in no generation before the commit. An `abort` takes all open changes back, here port 22.
//!
//! **Commit.** The next generation is the open sets, without the elements that are expired at the commit's moment. An
//! unchanged set is shared with the generation before. A commit first takes all its memory: for what it has to copy, and
//! for each reader a pointer to the new generation. It puts these pointers into a slot that no reader holds, and
//! publishes the slot by one atomic step. If memory runs out, nothing has changed.
//!
//! **Enter and leave.** An enter counts the reader into the published slot by one atomic addition. It takes the
//! reader's own pointer out of the slot. A leave puts the pointer back, and counts the reader out by another addition.
//! In between, the reader holds its generation, whatever is committed. So reader 0 finds no port 80 until it enters
//! again. Neither call takes memory, copies, waits or writes what other readers read. A lookup takes no memory either.
//! It returns the earliest inserted element that is live at the packet's moment and holds the key.
//!
//! **Slots.** There are two more slots than readers. Each reader holds at most one, and one is published. So a commit
//! always finds a free slot, and looks at none twice. It drops the old pointers that it finds there; a reader frees no
//! memory. A `Held` that is dropped without a leave keeps its slot for good, and commits find another.
//!
//! **Notes.** The committed generations are one list, and a reader has seen a front of it, which never gets shorter. If
//! an enter and a commit come at once, either may be first. After `meet` with a note of the control, an enter is no
//! older than the last commit before that note. By `hear` the control learns that a reader has seen a front of the
//! control's own list.
//!
//! **Definitions:** `specs/Publish.antt` has what contracts see of a control, a reader and a note. `specs/Entering.antt`
//! says which generation an enter gets. `set_space` says what a change does (`specs/Open.antt`, `Answers.antt`), and
//! `set_model` what a set is. **Theory:** docs/architecture.md, "Readers beside a writer". **Proofs:** docs/proofs.md,
//! "Control and readers (`gen_publish`)".
#![tactic(auto)]

mod berth;
mod control;
mod laws;
mod note;
mod reader;
mod receipt;
mod starting;

pub use control::Control;
pub use gen_slots::Steps;
pub use laws::enter_law;
pub use note::Note;
pub use reader::{Held, Reader};
pub use receipt::Receipt;
pub use starting::start;
