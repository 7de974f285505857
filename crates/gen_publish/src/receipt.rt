/// The result of a commit.
#[derive(Clone, Copy, Debug, PartialEq, Eq)]
pub struct Receipt {
    /// The new generation's number.
    pub generation: u64,
    /// How many elements of all sets were expired. The new generation doesn't have them.
    pub purged: u64,
}
