use set_model::{Memory, Why};

/// What an insertion did.
#[derive(Clone, Copy, Debug, PartialEq, Eq)]
pub enum Added {
    /// The element is new.
    New { id: u64 },
    /// An element of the same intervals is there, and nothing changed.
    Already { id: u64 },
    /// An element of the same intervals is there, and now has another expiry.
    Renewed { id: u64 },
}

/// Why a change wasn't made. The set is unchanged.
///
/// If several causes apply, the call returns the first in this order:
///
/// - an insertion: `Overlap`, `Full`, `RulesFull`
/// - a creation: `Exists`, `Overlap`, `Full`, `RulesFull`
/// - a deletion: `Missing`
///
/// Each call may also run out of memory.
#[derive(Clone, Copy, Debug, PartialEq, Eq)]
pub enum ChangeError {
    /// The set's elements and limits don't allow it.
    Refused(Why),
    /// Memory ran out.
    Memory,
}

impl From<Memory> for ChangeError {
    ghost use Rattle.std.specs.Prelude.{◌≡◌};
    ghost use Rattle.pipapo_image.specs.declared.answers.ChangeError.TheVariants.{Memory as no_memory};

    ghost from_gives = { λ _ e. e ≡ no_memory };

    fn from(_: Memory) -> ChangeError {
        ChangeError::Memory
    }
}
