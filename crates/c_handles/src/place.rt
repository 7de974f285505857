//! Where a reader is.
use gen_publish::{Held, Reader};

/// A reader that holds nothing, or one that holds a generation.
#[derive(Drop)]
pub enum Place {
    Out(Reader),
    In(Held),
    Nowhere,
}
