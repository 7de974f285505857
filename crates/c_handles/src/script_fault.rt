//! Where and why a script starts nothing, as C has it.
ghost use Rattle.std.specs.Prelude.{◌≡◌};
ghost use Rattle.c_handles.specs.ScriptCodes.{number_of, no_place, place_of as the_place_of, fault_of_start as the_fault_of};

use crate::answer::Answer;
use crate::fault::Fault;
use script_start::StartError;
use token_forms::Reason;

/// The place of a bad token, or of a refused change. Lines and columns count from 1, and columns count bytes.
///
/// Of a bad token it has the line, the column and the reason. Of a refused change it has the line, the set, the number of
/// the cause, and what the change would have answered: the id of the element in the way, and the field that is full. All
/// else is 0.
#[repr(C)]
#[derive(Clone, Copy)]
pub struct ScriptFault {
    pub line: u64,
    pub column: u64,
    pub id: u64,
    pub reason: u32,
    pub cause: u32,
    pub set: u32,
    pub field: u32,
}

/// The number of a reason in `pipapo.h`.
fn reason_number(reason: Reason) -> u32
    ensures { result ≡ number_of reason }
{
    match reason {
        Reason::Character => 1,
        Reason::End => 2,
        Reason::LeftOut => 3,
        Reason::TypeWord => 4,
        Reason::Value => 5,
        Reason::Time => 6,
        Reason::Moment => 7,
        Reason::Set => 8,
        Reason::Number => 9,
        Reason::Statement => 10,
    }
}

impl ScriptFault {
    /// No place.
    pub(crate) fn none() -> ScriptFault
        ensures { result ≡ no_place }
    {
        ScriptFault {
            line: 0,
            column: 0,
            id: 0,
            reason: 0,
            cause: 0,
            set: 0,
            field: 0,
        }
    }

    pub(crate) fn of(error: StartError) -> ScriptFault
        ensures { result ≡ the_place_of error }
    {
        match error {
            StartError::Bad(token) => ScriptFault {
                line: token.line,
                column: token.column,
                id: 0,
                reason: reason_number(token.reason),
                cause: 0,
                set: 0,
                field: 0,
            },
            StartError::Refused { line, set, why } => {
                let fault = Fault::Refused(why);
                let answer = Answer::refused(fault);
                ScriptFault {
                    line,
                    column: 0,
                    id: answer.id,
                    reason: 0,
                    cause: fault.code(),
                    set,
                    field: answer.field,
                }
            }
            StartError::Memory => ScriptFault::none(),
        }
    }
}

/// The fault of a text that starts nothing.
pub(crate) fn fault_of_start(error: StartError) -> Fault
    ensures { result ≡ the_fault_of error }
{
    match error {
        StartError::Bad(_) => Fault::Script,
        StartError::Refused { .. } => Fault::Change,
        StartError::Memory => Fault::Memory,
    }
}
