use set_model::{Family, Keys, Packets};

/// What has been read of a key file.
#[derive(Drop)]
pub struct KeyDraft {
    /// The key sections before this one.
    pub sections: Keys,
    /// The packets of this section.
    pub packets: Packets,
    /// The moment of the lines that follow, in milliseconds.
    pub moment: u64,
}

/// The first word of a line.
#[derive(Clone, Copy, Debug, PartialEq, Eq)]
pub enum KeyWord {
    /// A family.
    Family(Family),
    /// The word `at`, which is also the name of a table.
    At,
    /// The word `round`, which is also the name of a table.
    Round,
    /// The name of a table of the family `ip`.
    Table,
}

/// What follows the word `at`.
#[derive(Clone, Copy, Debug, PartialEq, Eq)]
pub enum AtWord {
    /// A moment.
    Moment(u64),
    /// A set of the table `at`, by its place among the declared sets.
    Set(u32),
}
