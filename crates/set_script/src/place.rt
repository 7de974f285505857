ghost use Rattle.std.specs.Prelude.{◌≡◌, ◌<◌, ◌≤◌, length, IfSome, IfOk};
ghost use Rattle.token_forms.specs.Gives.{Gives};
ghost use Rattle.set_script.specs.Limits.{most_sets};
ghost use Rattle.set_script.specs.Names.{family_number, is_set, set_place};
ghost use Rattle.set_script.specs.ScriptReading as reading;

use crate::words::read_family;
use set_model::{Family, SetDecl};
use token_forms::{ReadError, Reader, Reason};

fn number_of_family(family: Family) -> u8
    ensures { result ≡ family_number family }
{
    match family {
        Family::Ip => 0,
        Family::Ip6 => 1,
        Family::Inet => 2,
        Family::Arp => 3,
        Family::Bridge => 4,
        Family::Netdev => 5,
    }
}

fn is_the_set(family: Family, table: &[u8], name: &[u8], decl: &SetDecl) -> bool
    ensures { result ≡ is_set family table.now name.now decl.now }
{
    number_of_family(decl.family) == number_of_family(family)
        && decl.table.as_slice() == table
        && decl.name.as_slice() == name
}

fn index_of_set(schema: &[SetDecl], family: Family, table: &[u8], name: &[u8]) -> Option<usize>
    ensures place { result ≡ set_place schema.now family table.now name.now }
    ensures within { IfSome result (λ i. i < length schema.now) }
{
    schema
        .iter()
        .position(|decl| is_the_set(family, table, name, decl))
}

/// The place of a set among the declared sets. This is the set's number.
pub fn place_of_set(schema: &[SetDecl], family: Family, table: &[u8], name: &[u8]) -> Option<u32>
    requires { length schema.now ≤ most_sets }
    ensures place { result ≡ set_place schema.now family table.now name.now }
    ensures within { IfSome result (λ i. i < length schema.now) }
{
    match index_of_set(schema, family, table, name) {
        Some(index) => Some(index as u32),
        None => None,
    }
}

#[tactic(auto, using(token_forms::proofs::Refusals::refusals), unfolding(crate::specs::ScriptReading::table_behind))]
fn table_behind<'a>(
    reader: &mut Reader<'a>,
    word: &'a [u8],
    family: Option<Family>,
) -> Result<(Family, &'a [u8]), ReadError>
    ensures { Gives (λ x. (x.0, x.1.now)) result reader.new (reading.table_behind word.now family reader.old) }
{
    match family {
        None => Ok((Family::Ip, word)),
        Some(family) => {
            let table = reader.name()?;
            Ok((family, table))
        }
    }
}

/// Reads a set's family and table. Without a family it is `ip`.
#[tactic(auto, using(token_forms::proofs::Refusals::refusals), unfolding(crate::specs::ScriptReading::table_place))]
pub fn table_place<'a>(reader: &mut Reader<'a>) -> Result<(Family, &'a [u8]), ReadError>
    ensures { Gives (λ x. (x.0, x.1.now)) result reader.new (reading.table_place reader.old) }
{
    let word = reader.name()?;
    table_behind(reader, word, read_family(word))
}

/// Reads the name of a declared set, and returns its place among the declared sets.
#[tactic(auto, unfolding(token_forms::specs::Gives::Refuses))]
pub fn used_set(
    reader: &mut Reader,
    schema: &[SetDecl],
    family: Family,
    table: &[u8],
) -> Result<u32, ReadError>
    requires { length schema.now ≤ most_sets }
    ensures gives { Gives (λ x. x) result reader.new (reading.used_set schema.now (family, table.now) reader.old) }
    ensures within { IfOk result (λ place. place < length schema.now) }
{
    let t = reader.next()?;
    match place_of_set(schema, family, table, t.bytes) {
        Some(place) if t.is_word() => Ok(place),
        _ => Err(t.refused(&[Reason::Set])),
    }
}
