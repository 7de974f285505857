/// A declared set: the kind of each field, and zeros; how many fields there are; the family of its table; whether elements may be
/// intervals, whether they may expire, and whether a shared key refuses an addition (1, or 0); the most elements that it may have
/// (0 for as many as there is room for); the life of an element without a timeout of its own (0 for no end); and the names of its
/// table and its own, and zeros.
#[repr(C)]
#[derive(Clone, Copy)]
pub struct DeclaredSet {
    pub kinds: [u32; 16],
    pub fields: u32,
    pub family: u32,
    pub interval: u32,
    pub timed: u32,
    pub disjoint: u32,
    pub size: u32,
    pub timeout: u64,
    pub table: [u8; 128],
    pub name: [u8; 128],
}
