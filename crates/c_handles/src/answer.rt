//! What a change answers, as C has it.
ghost use Rattle.std.specs.Prelude.{◌≡◌};
ghost use Rattle.c_handles.specs.Codes.{added_as, created_as, removed_as, destroyed_as, refused_as};

use crate::fault::Fault;
use pipapo_image::Added;
use set_model::Why;

/// What a change did: the element's id, or the id of the element in the way; the field that is full; and whether the
/// element is new (1), was there already (2), was renewed (3), was removed (4), or wasn't there (5).
#[repr(C)]
#[derive(Clone, Copy)]
pub struct Answer {
    pub id: u64,
    pub field: u32,
    pub outcome: u32,
}

impl Answer {
    pub(crate) fn added(added: Added) -> Answer
        ensures { result ≡ added_as added }
    {
        match added {
            Added::New { id } => Answer {
                id,
                field: 0,
                outcome: 1,
            },
            Added::Already { id } => Answer {
                id,
                field: 0,
                outcome: 2,
            },
            Added::Renewed { id } => Answer {
                id,
                field: 0,
                outcome: 3,
            },
        }
    }

    pub(crate) fn created(id: u64) -> Answer
        ensures { result ≡ created_as id }
    {
        Answer {
            id,
            field: 0,
            outcome: 1,
        }
    }

    pub(crate) fn removed(id: u64) -> Answer
        ensures { result ≡ removed_as id }
    {
        Answer {
            id,
            field: 0,
            outcome: 4,
        }
    }

    pub(crate) fn destroyed(removed: Option<u64>) -> Answer
        ensures { result ≡ destroyed_as removed }
    {
        match removed {
            Some(id) => Answer::removed(id),
            None => Answer {
                id: 0,
                field: 0,
                outcome: 5,
            },
        }
    }

    /// The id of the element in the way, and the field that is full; else zeros.
    pub(crate) fn refused(fault: Fault) -> Answer
        ensures { result ≡ refused_as fault }
    {
        let (id, field) = match fault {
            Fault::Refused(Why::Overlap { id }) => (id, 0),
            Fault::Refused(Why::Exists { id }) => (id, 0),
            Fault::Refused(Why::RulesFull { field }) => (0, field),
            _ => (0, 0),
        };
        Answer {
            id,
            field,
            outcome: 0,
        }
    }
}
