//! Why a call was refused.
ghost use Rattle.std.specs.Prelude.{◌≡◌, ◌<◌};
ghost use Rattle.c_handles.specs.Codes.{fault_of as the_fault_of};

use pipapo_image::ChangeError;
use set_model::{Memory, Why};
use std::alloc::{AllocError, AllocFailed};

/// The number of a call that was done.
pub const DONE: u32 = 0;

/// Why a call did nothing.
#[derive(Clone, Copy)]
pub enum Fault {
    /// Out of memory.
    Memory,
    /// The handle holds nothing.
    Empty,
    /// The handle is a reader's where a control's is wanted, or the other way round.
    Handle,
    /// A set has no fields or more than 16, or a field is of no kind, or a family is none.
    Schema,
    /// Not 1 to 16 readers.
    Readers,
    /// No such set.
    Set,
    /// The bytes are too few or too many for the set's fields.
    Length,
    /// An interval falls.
    Interval,
    /// The reader holds a generation already, or holds none.
    Turn,
    /// There are no numbers for further generations.
    Numbers,
    /// The text isn't in the grammar of scripts.
    Script,
    /// A change of a script was refused.
    Change,
    /// The buffer has no room for the text.
    Room,
    /// There is no element at this place.
    Place,
    /// The generation of a note isn't there yet.
    Note,
    /// The change was refused.
    Refused(Why),
}

impl Fault {
    ghost use Rattle.c_handles.specs.Codes.{code_of};

    /// Its number in `pipapo.h`.
    pub fn code(self) -> u32
        ensures code { result ≡ code_of self }
        ensures some { 0 < result }
    {
        match self {
            Fault::Memory => 1,
            Fault::Empty => 2,
            Fault::Handle => 3,
            Fault::Schema => 4,
            Fault::Readers => 5,
            Fault::Set => 6,
            Fault::Length => 7,
            Fault::Interval => 8,
            Fault::Turn => 9,
            Fault::Numbers => 10,
            Fault::Script => 11,
            Fault::Change => 12,
            Fault::Room => 13,
            Fault::Place => 14,
            Fault::Note => 15,
            Fault::Refused(why) => match why {
                Why::Overlap { id: _ } => 16,
                Why::Exists { id: _ } => 17,
                Why::Full => 18,
                Why::RulesFull { field: _ } => 19,
                Why::Missing => 20,
            },
        }
    }
}

impl From<Memory> for Fault {
    ghost use Rattle.std.specs.Prelude.{◌≡◌};
    ghost use Rattle.c_handles.specs.declared.fault.Fault.TheVariants.{Memory};

    ghost from_gives = { λ _ e. e ≡ Memory };

    fn from(_: Memory) -> Fault {
        Fault::Memory
    }
}

impl From<AllocError> for Fault {
    ghost use Rattle.std.specs.Prelude.{◌≡◌};
    ghost use Rattle.c_handles.specs.declared.fault.Fault.TheVariants.{Memory};

    ghost from_gives = { λ _ e. e ≡ Memory };

    fn from(_: AllocError) -> Fault {
        Fault::Memory
    }
}

impl<T: Drop> From<AllocFailed<T>> for Fault {
    ghost use Rattle.std.specs.Prelude.{◌≡◌};
    ghost use Rattle.c_handles.specs.declared.fault.Fault.TheVariants.{Memory};

    ghost from_gives = { λ _ e. e ≡ Memory };

    fn from(_: AllocFailed<T>) -> Fault {
        Fault::Memory
    }
}

/// The fault of a change that the library refuses.
pub(crate) fn fault_of(error: ChangeError) -> Fault
    ensures { result ≡ the_fault_of error }
{
    match error {
        ChangeError::Refused(why) => Fault::Refused(why),
        ChangeError::Memory => Fault::Memory,
    }
}
