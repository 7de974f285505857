//! The tables of a generation, each with its sets after it.
ghost use Rattle.std.specs.Prelude.{◌≡◌, ◌++◌, ◌≤◌, map, flat_map, length, take, IfOk, OnOk};
ghost use Rattle.std.specs.List.{zip, list_any};
ghost use Rattle.serde_json.specs.View.{view};
ghost use Rattle.set_report.specs.ListText.{same_table, sets_beside, first_sets};
ghost use Rattle.set_report.specs.Writes.{HaveDeclaredKinds};
ghost use Rattle.list_json.specs.JsonSets.{metainfo, set_data, table_data, table_and_sets, ruleset_data};
ghost use Rattle.list_json.specs.JsonListing.{ruleset_line};

use crate::build::{list_json, named_json, number_json, object_json};
use crate::sets::{place_json, set_json};
use pipapo_image::SetImage;
use serde_json::{Value, push};
use set_model::{Memory, Schema, SetDecl};
use set_space::{Generation, KeptSet};
use std::alloc::Global;
use text_pieces::family_word;

/// A set with the elements of an image.
fn image_json(
    alloc: Global,
    declared: &SetDecl,
    image: &SetImage,
    now: u64,
) -> Result<Value, Memory>
    requires { image.now.kinds ≡ declared.now.kinds }
    ensures { IfOk result (λ v. view v ≡ set_data now (declared.now, image.now)) }
{
    set_json(alloc, declared, image.elements(), now)
}

/// A set of a generation.
fn kept_json(alloc: Global, declared: &SetDecl, set: &KeptSet, now: u64) -> Result<Value, Memory>
    requires { set.now.kinds ≡ declared.now.kinds }
    ensures { IfOk result (λ v. view v ≡ set_data now (declared.now, set.now)) }
{
    let image = set.closed_up(alloc)?;
    image_json(alloc, declared, &image, now)
}

/// Whether two sets are in one table.
fn is_same_table(one: &SetDecl, other: &SetDecl) -> bool
    ensures { result ≡ same_table one.now other.now }
{
    family_word(one.family) == family_word(other.family)
        && one.table.as_slice() == other.table.as_slice()
}

/// Whether a set declared before this place is in the same table.
fn has_table(schema: &Schema, place: u64, set: &SetDecl) -> bool
    requires { place ≤ length schema.now }
    ensures { result ≡ list_any (λ other. same_table other set.now) (take place schema.now) }
{
    schema.as_slice()[..place as usize]
        .iter()
        .any(|other| is_same_table(other, set))
}

/// Adds the sets that are in the table of `first`.
fn push_sets(
    alloc: Global,
    schema: &Schema,
    generation: &Generation,
    first: &SetDecl,
    now: u64,
    values: &mut Vec<Value>,
) -> Result<(), Memory>
    requires { HaveDeclaredKinds schema.now generation.now.sets }
    ensures { OnOk result (map view values.new.items ≡ map view values.old.items ++ map (set_data now) (sets_beside first.now (zip schema.now generation.now.sets))) }
{
    'sets: for place in 0..schema.len() {
        let set = schema.at(place);
        if !is_same_table(first, set) {
            continue;
        }
        push(
            values,
            kept_json(alloc, set, generation.sets.at(place), now)?,
        )?;
    }
    Ok(())
}

/// The table of a set.
fn table_json(alloc: Global, set: &SetDecl) -> Result<Value, Memory>
    ensures { IfOk result (λ v. view v ≡ table_data set.now) }
{
    let place = place_json(alloc, "name", set)?;
    named_json(alloc, "table", object_json(place))
}

/// Adds the table of `first`, and then its sets.
fn push_table(
    alloc: Global,
    schema: &Schema,
    generation: &Generation,
    first: &SetDecl,
    now: u64,
    values: &mut Vec<Value>,
) -> Result<(), Memory>
    requires { HaveDeclaredKinds schema.now generation.now.sets }
    ensures { OnOk result (map view values.new.items ≡ map view values.old.items ++ table_and_sets (zip schema.now generation.now.sets) now first.now) }
{
    push(values, table_json(alloc, first)?)?;
    push_sets(alloc, schema, generation, first, now, values)
}

/// Adds all tables with their sets.
fn push_tables(
    alloc: Global,
    schema: &Schema,
    generation: &Generation,
    now: u64,
    values: &mut Vec<Value>,
) -> Result<(), Memory>
    requires { HaveDeclaredKinds schema.now generation.now.sets }
    ensures { OnOk result (map view values.new.items ≡ map view values.old.items ++ flat_map (table_and_sets (zip schema.now generation.now.sets) now) (first_sets schema.now)) }
{
    'tables: for place in 0..schema.len() {
        let set = schema.at(place);
        if has_table(schema, place, set) {
            continue;
        }
        push_table(alloc, schema, generation, set, now, values)?;
    }
    Ok(())
}

/// The version of the JSON's form.
fn metainfo_json(alloc: Global) -> Result<Value, Memory>
    ensures { IfOk result (λ v. view v ≡ metainfo) }
{
    let version = named_json(alloc, "json_schema_version", number_json(1))?;
    named_json(alloc, "metainfo", version)
}

/// The declared sets in a generation.
fn ruleset_json(
    alloc: Global,
    schema: &Schema,
    generation: &Generation,
    now: u64,
) -> Result<Value, Memory>
    requires { HaveDeclaredKinds schema.now generation.now.sets }
    ensures { IfOk result (λ v. view v ≡ ruleset_data schema.now generation.now.sets now) }
{
    let mut values = Vec::new(alloc);
    push(&mut values, metainfo_json(alloc)?)?;
    push_tables(alloc, schema, generation, now, &mut values)?;
    named_json(alloc, "nftables", list_json(values))
}

/// The declared sets in a generation on one line, at a moment in milliseconds.
///
/// # Errors
///
/// `Memory` if memory runs out.
#[tactic(auto, using(crate::proofs::FloatLaws::ruleset_plain))]
pub(crate) fn ruleset_text(
    alloc: Global,
    schema: &Schema,
    generation: &Generation,
    now: u64,
) -> Result<Vec<u8>, Memory>
    requires { HaveDeclaredKinds schema.now generation.now.sets }
    ensures { IfOk result (λ text. text.items ≡ ruleset_line schema.now generation.now.sets now) }
{
    let ruleset = ruleset_json(alloc, schema, generation, now)?;
    let mut text = ruleset.to_string(alloc)?.into_bytes();
    text.push(b'\n')?;
    Ok(text)
}
