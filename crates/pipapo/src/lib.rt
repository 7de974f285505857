//! Looks packets up in filter sets by up to sixteen readers, while one control changes the sets.
//!
//! A set has fields, such as an address and a port (`Kind`), and elements of one interval per field. A key has one value
//! per field. A lookup of a key returns the earliest inserted element that is live and holds the key, as nft's sets of
//! concatenated ranges are meant to.
//!
//! # The model
//!
//! `start` takes the declared sets (`Schema`) and the number of readers. It makes generation 0, in which all sets are
//! empty.
//!
//! - A **generation** is all sets at the moment of a commit. It has a number and never changes.
//! - The **`Control`** changes the open sets, which no reader sees: `insert`, `create`, `delete`, `destroy`,
//!   `flush`. `commit` makes them the next generation, without the elements that are expired. `abort` takes all
//!   open changes back.
//! - A **`Reader`** enters the last generation and becomes a **`Held`**. A `Held` looks keys up in that generation,
//!   whatever is committed meanwhile. `leave` makes it a `Reader` again. A reader never enters an older generation
//!   than one that it has seen.
//! - A **`Note`** has the generations that one thread has seen. A reader that has met a note of the control enters
//!   no generation older than the last of these.
//!
//! **What waits:** nothing. An enter and a leave are one atomic addition each, and a commit finds a free place for its
//! generation within readers + 1 looks. A `Held` that is never left keeps its generation, and blocks nobody.
//!
//! **What takes memory:** `start`, the five changes and `commit`. Each of them leaves everything as it was if memory
//! runs out. `enter`, `lookup`, `leave`, `abort` and notes take none. A set is copied at its first change in a
//! transaction, and at a commit if an element of it has expired. A copy shares all whole pages, and a change copies only
//! the pages that it changes. Deleted elements may stay in a set's tables for a while, unseen, and are removed together.
//! The control frees older generations, and a reader frees no memory.
//!
//! **What calls require:** a declared set, and intervals and values of its kinds. `Control::fits` and `Held::fits` test
//! this, and no other call tests it again. Sets and fields are numbered from 0, and moments are milliseconds.
//!
//! # How a set is looked up
//!
//! A set of addresses and ports has two elements:
//!
//! ```text
//! element 0:  10.0.0.5                    . 1024
//! element 1:  192.168.1.0-192.168.2.1     . 2048
//! ```
//!
//! Each interval is split into blocks whose values differ in their lowest bits alone. Each block is a rule of its field.
//! The addresses have three: rule 0, 10.0.0.5, of element 0, and rules 1 and 2, 192.168.1.0/24 and 192.168.2.0/31, of
//! element 1. For each byte of a field, each of its 256 values has a bitmap of the rules that agree with it. A lookup
//! ANDs one bitmap per byte. For 192.168.1.5 these are 011, 011, 010 and 110, with rule 0 first, so 010 is left: rule 1.
//! Each rule leads to the rules of its element in the next field, here the port. In the last field each rule leads to
//! its element. A lookup compares no intervals. The lowest rule that is left belongs to the earliest element.
//!
//! # A set by itself
//!
//! A thread that needs no generations has a `Set`: `insert`, `delete`, `purge` and `find`. A lookup works in the rows of
//! a `Scratch`, which is made once. A `Transaction` is what a `Control` has open: the sets of a `Generation`, and the
//! changes to them. `compare` finds the least keys on which two sets decide differently.
//!
//! # Texts
//!
//! `read_script` reads a script of nft(8), `read_ruleset` the sets of a ruleset as nft prints it, and `read_keys` the
//! packets of a key file. They refuse a text that isn't in its grammar, with its line and the reason. `run_steps` does a
//! script's steps on a control, `write_events` writes their events, and `write_list` a generation as a script again.
//! `transcript`, `listing` and `dump` return what the commands `run`, `list` and `dump` write.
//! `transcript_with_elements` returns a transcript that names the elements that were found.
//!
//! **Each call's promise and cost:** docs/library.md. **Definitions:** docs/definitions.md. The contracts of controls
//! and readers are in `gen_publish`, those of a transaction in `set_space`, and those of a set in `pipapo_image`.
//! **Theory:** the first page of `gen_publish`, and docs/architecture.md: "The way of a packet" and "The way of a
//! change", and "The classifier, by one example" for how a set is looked up.
//!
//! # Example
//!
//! A packet thread beside the control. `services` declares one set, of the kinds `Ipv4` and `Service`. A test in
//! `run_tests` (`front_door.rt`) has the same code, and is proved.
//!
//! ```text
//! /// Inserts the services of 192.0.2.0/24 at ports from `low` to `high`.
//! fn open(rt: &impl Abort, alloc: Global, control: &mut Control, low: u128, high: u128) {
//!     let hosts = Interval {
//!         low: 0xc000_0200,
//!         high: 0xc000_02ff,
//!     };
//!     let mut parts = Parts::new(alloc);
//!     parts.push(hosts).expect(rt, "memory");
//!     parts.push(Interval { low, high }).expect(rt, "memory");
//!     assert!(rt; control.fits(0, &parts));
//!     let element = NewElement {
//!         parts,
//!         expiry: None,
//!         comment: Comment::new(alloc),
//!     };
//!     let _ = control.insert(0, &element, 0).expect(rt, "room");
//! }
//!
//! /// Whether a packet to a port of 192.0.2.7 finds an element.
//! fn is_open(rt: &impl Abort, alloc: Global, held: &mut Held, port: u128) -> bool {
//!     let mut key = Key::new(alloc);
//!     key.push(0xc000_0207).expect(rt, "memory");
//!     key.push(port).expect(rt, "memory");
//!     assert!(rt; held.fits(0, &key));
//!     held.lookup(0, &key, 0).is_some()
//! }
//!
//! fn example<R: Threads + Abort + Sync>(rt: &R, alloc: Global) -> (bool, bool) {
//!     let schema = services(alloc).expect(rt, "memory");
//!     let (mut control, mut readers) = start(alloc, schema, 1).expect(rt, "memory");
//!     let reader = readers.pop().expect(rt, "a reader");
//!     open(rt, alloc, &mut control, 80, 443);
//!     assert!(rt; control.number() == 0);
//!     let receipt = control.commit(0).expect(rt, "memory");
//!     assert!(rt; receipt.generation == 1);
//!     let packets = move || {
//!         let mut held = reader.enter();
//!         let found = (
//!             is_open(rt, alloc, &mut held, 443),
//!             is_open(rt, alloc, &mut held, 22),
//!         );
//!         held.leave();
//!         found
//!     };
//!     let second_thought = move || {
//!         open(rt, alloc, &mut control, 22, 22);
//!         control.abort();
//!     };
//!     join(rt, packets, second_thought).0
//! }
//! ```
#![tactic(auto)]

pub use element_lines::transcript_with_elements;
pub use gen_publish::{Control, Held, Note, Reader, Receipt, start};
pub use key_file::{KeyError, Reason, read_keys};
pub use packet_pool::{Gate, OpenGate, count_commits, run_steps};
pub use pipapo_image::{Added, ChangeError, Scratch, SetImage as Set};
pub use ruleset_sets::{
    RoleToken, Ruleset, SkipReason, Skipped, Skips, leaves_sets_out, read_ruleset,
};
pub use script_run::{Output, Refusal, dump, has_numbers, listing, transcript};
pub use set_compare::{Difference, Lack, compare, first_missing, have_same_kinds};
pub use set_model::{
    Comment, Duplicate, Event, Events, Family, Found, Interval, Key, Keys, Kind, Kinds, Memory,
    Name, NewElement, Packet, Packets, Parts, Schema, Script, Sections, SetDecl, Step, Steps, Verb,
    Why, fits, parts_fit,
};
pub use set_report::{write_events, write_list};
pub use set_script::{ScriptError, read_script};
pub use set_space::{Generation, KeptSet, Sets, Work as Transaction};
