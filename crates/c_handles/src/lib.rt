//! What a C program holds of a control and its readers, and its calls on them. The static library `pipapo_c` exports these
//! calls, and `pipapo.h` declares them.
//!
//! C holds a `Handle` for the control and one for each reader: a pointer to a box, or null. Each call takes the box out of
//! the handle, works on what it holds, and puts it back. So a call refuses an empty handle, and a handle of the other
//! kind. A handle may go to another thread (`Send` is proved). One call at a time may use it.
//!
//! Each refusal has one cause, and the first that applies: a lookup of 5 bytes in a set of an address and a port (6 bytes) is
//! refused as `Length`, and in a set that isn't there as `Set`. A refused call changes nothing.
//!
//! **Definitions:** `specs/Holding.antt` has what a handle owns, `specs/Seats.antt` where a reader is, `specs/Calls.antt` what
//! a lookup, a change and a commit through a handle do, `specs/Causes.antt` why one is refused, `specs/Codes.antt` the numbers
//! that C gets.
#![tactic(auto)]

mod answer;
mod changes;
mod control_calls;
mod declared_set;
mod describing;
mod element_calls;
mod element_shape;
mod elements;
mod fault;
mod front;
mod handle;
mod key_room;
mod listing;
mod loose;
mod notes;
mod object;
mod place;
mod reader_calls;
mod script_fault;
mod scripting;
mod seat;
mod shapes;
mod sizes;
mod starting;

pub use answer::Answer;
pub use control_calls::{abort, commit, create, delete, destroy, flush, insert, number};
pub use declared_set::DeclaredSet;
pub use describing::describe;
pub use element_calls::{element_at, elements_of};
pub use element_shape::ElementShape;
pub use elements::Elements;
pub use fault::{DONE, Fault};
pub use handle::{Handle, Opaque};
pub use listing::list_into;
pub use notes::{hear, meet, note};
pub use object::Object;
pub use reader_calls::{enter, generation, leave, lookup, lookup_many};
pub use script_fault::ScriptFault;
pub use scripting::start_script;
pub use shapes::SetShape;
pub use starting::{free, start};
