//! Values as packets have them: the bytes of each field in network byte order, one field after the other.
//!
//! **Definitions:** `specs/Packed.antt` says which values bytes stand for.
#![tactic(auto)]

mod kind_width;
mod numbers;
mod pack;
mod unpack;

pub use kind_width::width;
pub use pack::write_bounds;
pub use unpack::{PartsError, has_length, key_length, read_key, read_parts};
