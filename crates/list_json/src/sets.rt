//! A set: its declaration, and then its elements.
ghost use Rattle.std.specs.Prelude.{◌≡◌, ◌++◌, [], ◌∷◌, true, map, All, IfOk, OnOk, option_map};
ghost use Rattle.serde_json.specs.View.{view, members_view};
ghost use Rattle.set_model.specs.Key.{parts_fit};
ghost use Rattle.set_report.specs.KindText.{kind_text};
ghost use Rattle.set_report.specs.ListText.{flag_if};
ghost use Rattle.list_json.specs.JsonValues.{text_data};
ghost use Rattle.list_json.specs.JsonSets.{timeout_seconds as seconds_of_timeout, kind_data, type_data, with_list, with_number, flags_data, table_place, with_type, with_options, declaration, elements_data, declared_set_data};

use crate::build::{Members, list_json, named_json, number_json, object_json, text_json};
use crate::elements::{element_json, lasts, timeout_seconds};
use expiry_scan::TimedElements;
use serde_json::{Value, push, put};
use set_model::{Element, Kind, Memory, SetDecl};
use std::alloc::Global;
use text_pieces::family_word;

/// The name of a kind in nft(8).
fn kind_word(kind: Kind) -> &'static [u8]
    ensures { result.now ≡ kind_text kind }
{
    match kind {
        Kind::Ipv4 => b"ipv4_addr",
        Kind::Ipv6 => b"ipv6_addr",
        Kind::Ether => b"ether_addr",
        Kind::Proto => b"inet_proto",
        Kind::Service => b"inet_service",
        Kind::Mark => b"mark",
    }
}

/// The names of kinds.
fn kinds_json(alloc: Global, kinds: &[Kind]) -> Result<Vec<Value>, Memory>
    ensures { IfOk result (λ vs. map view vs.items ≡ map kind_data kinds.now) }
{
    let mut values = Vec::new(alloc);
    'kinds: for kind in kinds {
        push(&mut values, text_json(alloc, kind_word(*kind))?)?;
    }
    Ok(values)
}

/// The type of a set: the kind of its only field, or a list of kinds.
fn type_json(mut kinds: Vec<Value>) -> Value
    ensures { view result ≡ type_data (map view kinds.items) }
{
    if kinds.len() == 1 {
        return kinds.remove(0);
    }
    list_json(kinds)
}

/// Adds a flag, if a set has it.
fn push_flag(alloc: Global, has: bool, flag: &[u8], values: &mut Vec<Value>) -> Result<(), Memory>
    ensures { OnOk result (map view values.new.items ≡ map view values.old.items ++ map text_data (flag_if has flag.now)) }
{
    if has {
        push(values, text_json(alloc, flag)?)?;
    }
    Ok(())
}

/// The flags of a set that nft knows.
fn flags_json(alloc: Global, set: &SetDecl) -> Result<Vec<Value>, Memory>
    ensures { IfOk result (λ vs. map view vs.items ≡ flags_data set.now) }
{
    let mut values = Vec::new(alloc);
    push_flag(alloc, set.interval, b"interval", &mut values)?;
    push_flag(alloc, set.timed, b"timeout", &mut values)?;
    Ok(values)
}

/// Puts a list at a key, if it has items.
fn put_list(
    alloc: Global,
    key: &str,
    values: Vec<Value>,
    members: &mut Members,
) -> Result<(), Memory>
    ensures { OnOk result (members_view members.new.entries ≡ with_list key.now (map view values.items) (members_view members.old.entries)) }
{
    if values.len() > 0 {
        put(members, alloc, key, list_json(values))?;
    }
    Ok(())
}

/// Puts a number at a key, if there is one.
fn put_number(
    alloc: Global,
    key: &str,
    number: Option<u64>,
    members: &mut Members,
) -> Result<(), Memory>
    ensures { OnOk result (members_view members.new.entries ≡ with_number key.now number (members_view members.old.entries)) }
{
    if let Some(n) = number {
        put(members, alloc, key, number_json(n))?;
    }
    Ok(())
}

/// The most elements that a set may have.
fn size_of(set: &SetDecl) -> Option<u64>
    ensures { result ≡ set.now.size }
{
    match set.size {
        Some(most) => Some(u64::from(most)),
        None => None,
    }
}

/// The timeout of a set, in seconds.
fn timeout_of(set: &SetDecl) -> Option<u64>
    ensures { result ≡ option_map seconds_of_timeout set.now.timeout }
{
    match set.timeout {
        Some(timeout) => Some(timeout_seconds(timeout)),
        None => None,
    }
}

/// Where a set is: the family of its table, and the table's name at a key.
pub(crate) fn place_json(alloc: Global, key: &str, set: &SetDecl) -> Result<Members, Memory>
    ensures { IfOk result (λ members. members_view members.entries ≡ table_place key.now set.now) }
{
    let mut members = Members::new(alloc);
    put(
        &mut members,
        alloc,
        "family",
        text_json(alloc, family_word(set.family))?,
    )?;
    put(
        &mut members,
        alloc,
        key,
        text_json(alloc, set.table.as_slice())?,
    )?;
    Ok(members)
}

/// Puts the name and the type of a set.
fn put_type(alloc: Global, set: &SetDecl, members: &mut Members) -> Result<(), Memory>
    ensures { OnOk result (members_view members.new.entries ≡ with_type set.now (members_view members.old.entries)) }
{
    put(
        members,
        alloc,
        "name",
        text_json(alloc, set.name.as_slice())?,
    )?;
    let kinds = kinds_json(alloc, set.kinds.as_slice())?;
    put(members, alloc, "type", type_json(kinds))?;
    Ok(())
}

/// Puts the size, the flags and the timeout of a set, as far as it has them.
fn put_options(alloc: Global, set: &SetDecl, members: &mut Members) -> Result<(), Memory>
    ensures { OnOk result (members_view members.new.entries ≡ with_options set.now (members_view members.old.entries)) }
{
    put_number(alloc, "size", size_of(set), members)?;
    let flags = flags_json(alloc, set)?;
    put_list(alloc, "flags", flags, members)?;
    put_number(alloc, "timeout", timeout_of(set), members)
}

/// A set without its elements.
fn declaration_json(alloc: Global, set: &SetDecl) -> Result<Members, Memory>
    ensures { IfOk result (λ members. members_view members.entries ≡ declaration set.now) }
{
    let mut members = place_json(alloc, "table", set)?;
    put_type(alloc, set, &mut members)?;
    put_options(alloc, set, &mut members)?;
    Ok(members)
}

/// Adds an element, if it lasts.
fn push_element(
    alloc: Global,
    set: &SetDecl,
    now: u64,
    element: &Element,
    values: &mut Vec<Value>,
) -> Result<(), Memory>
    requires { parts_fit set.now.kinds element.now.parts ≡ true }
    ensures { OnOk result (map view values.new.items ≡ map view values.old.items ++ elements_data set.now now (element.now ∷ [])) }
{
    if lasts(now, element) {
        push(values, element_json(alloc, set, now, element)?)?;
    }
    Ok(())
}

/// The elements of a set that last.
fn elements_json(
    alloc: Global,
    set: &SetDecl,
    now: u64,
    elements: &TimedElements,
) -> Result<Vec<Value>, Memory>
    requires { All (λ e. parts_fit set.now.kinds e.parts ≡ true) elements.now }
    ensures { IfOk result (λ vs. map view vs.items ≡ elements_data set.now now elements.now) }
{
    let mut values = Vec::new(alloc);
    'elements: for i in 0..elements.len() {
        push_element(alloc, set, now, elements.at(i), &mut values)?;
    }
    Ok(values)
}

/// A set with its elements, at a moment in milliseconds.
///
/// # Errors
///
/// `Memory` if memory runs out.
pub(crate) fn set_json(
    alloc: Global,
    set: &SetDecl,
    elements: &TimedElements,
    now: u64,
) -> Result<Value, Memory>
    requires { All (λ e. parts_fit set.now.kinds e.parts ≡ true) elements.now }
    ensures { IfOk result (λ v. view v ≡ declared_set_data now set.now elements.now) }
{
    let mut members = declaration_json(alloc, set)?;
    let listed = elements_json(alloc, set, now, elements)?;
    put_list(alloc, "elem", listed, &mut members)?;
    named_json(alloc, "set", object_json(members))
}
