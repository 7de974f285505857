ghost use Rattle.std.specs.Prelude.{◌≡◌, ◌≤◌, length};
ghost use Rattle.token_forms.specs.Gives.{Gives};
ghost use Rattle.set_script.specs.Limits.{most_sets};
ghost use Rattle.key_file.specs.KeysReading as reading;

use crate::draft::KeyDraft;
use addr_text::read_value;
use set_model::{Family, Key, Kind, Listed, Packet, SetDecl};
use set_script::used_set;
use std::alloc::Global;
use token_forms::{ReadError, Reader, Reason};

#[tactic(auto, unfolding(token_forms::specs::Gives::Refuses))]
fn value(reader: &mut Reader, kind: Kind) -> Result<u128, ReadError>
    ensures { Gives (λ x. x) result reader.new (reading.value kind reader.old) }
{
    let t = reader.next()?;
    match read_value(kind, t.bytes) {
        Ok(value) if t.is_word() => Ok(value),
        _ => Err(t.refused(&[Reason::Value])),
    }
}

/// `.` and the next value, for each of these kinds.
#[tactic(auto, using(token_forms::proofs::Refusals::refusals), unfolding(crate::specs::KeysReading::more_values))]
fn more_values(reader: &mut Reader, kinds: &[Kind], key: &mut Key) -> Result<(), ReadError>
    ensures { Gives (λ _. key.new) result reader.new (reading.more_values kinds.now key.old reader.old) }
{
    match kinds {
        [] => Ok(()),
        [kind, others @ ..] => {
            reader.word(b".")?;
            let next = value(reader, *kind)?;
            key.push(next)?;
            more_values(reader, others, key)
        }
    }
}

#[tactic(auto, using(token_forms::proofs::Refusals::refusals))]
fn some_values(
    reader: &mut Reader,
    alloc: Global,
    kind: Kind,
    others: &[Kind],
) -> Result<Key, ReadError>
    ensures { Gives (λ x. x) result reader.new (reading.some_values kind others.now reader.old) }
{
    let first = value(reader, kind)?;
    let mut key = Listed::new(alloc);
    key.push(first)?;
    more_values(reader, others, &mut key)?;
    Ok(key)
}

/// One value for each kind.
#[tactic(auto, using(token_forms::proofs::Refusals::refusals), unfolding(crate::specs::KeysReading::all_values))]
fn all_values(reader: &mut Reader, alloc: Global, kinds: &[Kind]) -> Result<Key, ReadError>
    ensures { Gives (λ x. x) result reader.new (reading.all_values kinds.now reader.old) }
{
    match kinds {
        [] => Err(reader.refuse()),
        [kind, others @ ..] => some_values(reader, alloc, *kind, others),
    }
}

/// Reads a packet of the set at a place.
#[tactic(auto, using(token_forms::proofs::Refusals::refusals), unfolding(crate::specs::KeysReading::packet_of, token_forms::specs::Gives::Refuses))]
pub fn packet_at(
    reader: &mut Reader,
    alloc: Global,
    schema: &[SetDecl],
    d: &mut KeyDraft,
    set: u32,
) -> Result<(), ReadError>
    requires { length schema.now ≤ most_sets }
    ensures { Gives (λ _. d.new) result reader.new (reading.packet_at schema.now d.old set reader.old) }
{
    match schema.get(set as usize) {
        None => Err(reader.refuse()),
        Some(decl) => {
            let key = all_values(reader, alloc, decl.kinds.as_slice())?;
            d.packets.push(Packet {
                set,
                key,
                now: d.moment,
            })?;
            Ok(())
        }
    }
}

/// Reads the name of a set of this table, and a packet of that set.
#[tactic(auto, using(token_forms::proofs::Refusals::refusals), unfolding(crate::specs::KeysReading::packet))]
pub fn packet(
    reader: &mut Reader,
    alloc: Global,
    schema: &[SetDecl],
    d: &mut KeyDraft,
    family: Family,
    table: &[u8],
) -> Result<(), ReadError>
    requires { length schema.now ≤ most_sets }
    ensures { Gives (λ _. d.new) result reader.new (reading.packet schema.now d.old (family, table.now) reader.old) }
{
    let set = used_set(reader, schema, family, table)?;
    packet_at(reader, alloc, schema, d, set)
}
