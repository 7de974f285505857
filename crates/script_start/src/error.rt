//! Why a script's text starts nothing.
ghost use Rattle.std.specs.Prelude.{◌≡◌};
ghost use Rattle.script_start.specs.Refusals.{refusal_in};

use set_model::{Event, Memory, Why};
use token_forms::BadToken;

/// Why a text starts nothing.
#[derive(Clone, Copy, Debug, PartialEq, Eq)]
pub enum StartError {
    /// The text isn't a script. This is its bad token.
    Bad(BadToken),
    /// A change is refused, the first of the script. Lines count from 1, sets from 0 in the order of the schema.
    Refused { line: u64, set: u32, why: Why },
    /// There is no memory left.
    Memory,
}

impl From<Memory> for StartError {
    ghost use Rattle.std.specs.Prelude.{◌≡◌};
    ghost use Rattle.script_start.specs.declared.error.StartError.TheVariants.{Memory};

    ghost from_gives = { λ _ e. e ≡ Memory };

    fn from(_: Memory) -> StartError {
        StartError::Memory
    }
}

/// The first refused change that events report.
pub(crate) fn first_refusal(events: &[Event]) -> Option<StartError>
    ensures { result ≡ refusal_in events.now }
{
    'events: for event in events {
        if let Event::Refused { line, set, why } = *event {
            return Some(StartError::Refused { line, set, why });
        }
    }
    None
}
