ghost use Rattle.std.specs.Prelude.{◌≡◌, ◌∷◌, [], IfOk};
ghost use Rattle.token_forms.specs.Gives.{Gives};
ghost use Rattle.set_script.specs.ScriptReading as reading;
ghost use Rattle.set_script.specs.Values.{part_of};

use addr_text::read_interval;
use set_model::{Interval, Kind, Memory, Parts};
use std::alloc::Global;
use token_forms::{ReadError, Reader, Reason};

/// The interval of a text. Unless the set is `wide`, the interval has one value.
fn read_part(wide: bool, kind: Kind, text: &[u8]) -> Option<Interval>
    ensures { result ≡ part_of wide kind text.now }
{
    match read_interval(kind, text) {
        Ok(part) if wide || part.high == part.low => Some(part),
        _ => None,
    }
}

/// The first interval of an element, and its line.
#[tactic(auto, unfolding(token_forms::specs::Gives::Refuses))]
fn first_part(reader: &mut Reader, wide: bool, kind: Kind) -> Result<(u64, Interval), ReadError>
    ensures { Gives (λ x. (x.0, x.1)) result reader.new (reading.first_part wide kind reader.old) }
{
    let t = reader.next()?;
    match read_part(wide, kind, t.bytes) {
        Some(part) if t.is_word() => Ok((t.line, part)),
        _ => Err(t.refused(&[Reason::Value])),
    }
}

#[tactic(auto, unfolding(token_forms::specs::Gives::Refuses))]
fn part(reader: &mut Reader, wide: bool, kind: Kind) -> Result<Interval, ReadError>
    ensures { Gives (λ x. x) result reader.new (reading.part wide kind reader.old) }
{
    let t = reader.next()?;
    match read_part(wide, kind, t.bytes) {
        Some(part) if t.is_word() => Ok(part),
        _ => Err(t.refused(&[Reason::Value])),
    }
}

/// `.` and the next interval, for each of these kinds.
#[tactic(auto, using(token_forms::proofs::Refusals::refusals), unfolding(crate::specs::ScriptReading::more_parts))]
fn more_parts(
    reader: &mut Reader,
    wide: bool,
    kinds: &[Kind],
    parts: &mut Parts,
) -> Result<(), ReadError>
    ensures { Gives (λ _. parts.new) result reader.new (reading.more_parts wide kinds.now parts.old reader.old) }
{
    match kinds {
        [] => Ok(()),
        [kind, others @ ..] => {
            reader.breaks();
            reader.word(b".")?;
            reader.breaks();
            let next = part(reader, wide, *kind)?;
            parts.push(next)?;
            more_parts(reader, wide, others, parts)
        }
    }
}

/// A list of one interval, with room for exactly so many more.
fn begun(alloc: Global, first: Interval, more: usize) -> Result<Parts, Memory>
    ensures { IfOk result (λ parts. parts ≡ first ∷ []) }
{
    let mut items = Vec::with_capacity(alloc, more.saturating_add(1))?;
    items.push(first)?;
    Ok(Parts::from_vec(alloc, items))
}

#[tactic(auto, using(token_forms::proofs::Refusals::refusals))]
fn some_parts(
    reader: &mut Reader,
    alloc: Global,
    wide: bool,
    kind: Kind,
    others: &[Kind],
) -> Result<(u64, Parts), ReadError>
    ensures { Gives (λ x. (x.0, x.1)) result reader.new (reading.some_parts wide kind others.now reader.old) }
{
    let (line, first) = first_part(reader, wide, kind)?;
    let mut parts = begun(alloc, first, others.len())?;
    more_parts(reader, wide, others, &mut parts)?;
    Ok((line, parts))
}

/// One interval for each kind, and the line of the first.
#[tactic(auto, using(token_forms::proofs::Refusals::refusals), unfolding(crate::specs::ScriptReading::all_parts))]
pub fn all_parts(
    reader: &mut Reader,
    alloc: Global,
    wide: bool,
    kinds: &[Kind],
) -> Result<(u64, Parts), ReadError>
    ensures { Gives (λ x. (x.0, x.1)) result reader.new (reading.all_parts wide kinds.now reader.old) }
{
    match kinds {
        [] => Err(reader.refuse()),
        [kind, others @ ..] => some_parts(reader, alloc, wide, *kind, others),
    }
}
