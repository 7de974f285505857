/// What C reads of an element beside its bounds and its comment: the id, the expiry (the largest number if it has none), and how
/// many bytes the bounds and the comment have.
#[repr(C)]
#[derive(Clone, Copy)]
pub struct ElementShape {
    pub id: u64,
    pub expiry: u64,
    pub bounds_length: u64,
    pub comment_length: u64,
}
