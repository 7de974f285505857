/// The values from `base` on, 2 to the power `free_bits` of them. It is a prefix: `10.0.0.0/8` has
/// 24 free bits.
#[derive(Clone, Copy, Debug, PartialEq, Eq)]
pub struct Block {
    /// The lowest value. It is a multiple of the number of values.
    pub base: u128,
    /// How many of the lowest bits may have any value.
    pub free_bits: u32,
}
