ghost use Rattle.std.specs.Prelude.{◌≡◌, ◌++◌, ◌<◌, ◌≤◌, true, All, length, take, OnOk, OnErr, slice_get, flat_map, codes};
ghost use Rattle.std.specs.List.{zip, join_by, list_any};
ghost use Rattle.set_model.specs.Key.{is_good, parts_fit};
ghost use Rattle.element_text.specs.ElementText.{intervals_text, comment_text};
ghost use Rattle.element_text.specs.Kept.{KeepsBytes};
ghost use Rattle.set_report.specs.KindText.{kind_text};
ghost use Rattle.set_report.specs.ListText.{expiry_text, element_text, type_line, size_line, flag_words, flags_line, timeout_line, elements_line, items_text, listed_set, same_table, sets_beside, listed_table, first_sets, list_text};
ghost use Rattle.text_pieces.specs.Pieces.{piece_text};
ghost use Rattle.set_report.specs.Writes.{HaveDeclaredKinds};
ghost use Rattle.text_pieces.specs.Appends.{AppendsPart};

use crate::kinds::kind_word;
use element_text::{write_comment, write_intervals};
use expiry_scan::TimedElements;
use pipapo_image::SetImage;
use set_model::{Element, Kind, Memory, Schema, SetDecl};
use set_space::{Generation, KeptSet};
use text_pieces::Piece::{Number, Time, Word};
use text_pieces::{Piece, append_pieces, family_word};

/// Appends pieces. After `Memory` the old bytes are still there, before what was appended. The same
/// holds of each writer in this file.
fn write(pieces: &[Piece], out: &mut Vec<u8>) -> Result<(), Memory>
    ensures ok { OnOk result (out.new.items ≡ out.old.items ++ flat_map piece_text pieces.now) }
    ensures kept { KeepsBytes out.old.items out.new.items }
{
    append_pieces(pieces, out)
}

/// Appends how long an element still lives.
fn write_expiry(
    set: &SetDecl,
    now: u64,
    expiry: Option<u64>,
    out: &mut Vec<u8>,
) -> Result<(), Memory>
    ensures ok { OnOk result (out.new.items ≡ out.old.items ++ expiry_text set.now now expiry) }
    ensures kept { KeepsBytes out.old.items out.new.items }
{
    match (expiry, set.timeout) {
        (Some(expiry), _) => write(&[Word(b" expires "), Time(expiry.saturating_sub(now))], out),
        (None, Some(life)) if life > 0 => write(&[Word(b" timeout 0s")], out),
        _ => Ok(()),
    }
}

/// Appends an element of a set as a listing has it at `now`, in milliseconds: its intervals, the rest of
/// its life if it expires, and its comment.
///
/// # Errors
///
/// `Memory` if memory runs out. The old bytes are still there, before what was appended.
pub fn write_element(
    set: &SetDecl,
    now: u64,
    element: &Element,
    out: &mut Vec<u8>,
) -> Result<(), Memory>
    requires { parts_fit set.now.kinds element.now.parts ≡ true }
    ensures ok { OnOk result (out.new.items ≡ out.old.items ++ element_text set.now now element.now) }
    ensures kept { KeepsBytes out.old.items out.new.items }
{
    write_intervals(set.kinds.as_slice(), element.parts.as_slice(), out)?;
    write_expiry(set, now, element.expiry, out)?;
    write_comment(element.comment.as_slice(), out)
}

/// Appends elements, one below another.
fn write_each(
    set: &SetDecl,
    now: u64,
    elements: &TimedElements,
    out: &mut Vec<u8>,
) -> Result<(), Memory>
    requires { All (λ e. parts_fit set.now.kinds e.parts ≡ true) elements.now }
    ensures ok { OnOk result (out.new.items ≡ out.old.items ++ join_by (element_text set.now now) (codes ",\n\t\t\t     ") elements.now) }
    ensures kept { KeepsBytes out.old.items out.new.items }
{
    let mut separator: &[u8] = b"";
    'elements: for i in 0..elements.len() {
        let element = elements.at(i);
        write(&[Word(separator)], out)?;
        write_element(set, now, element, out)?;
        separator = b",\n\t\t\t     ";
    }
    Ok(())
}

/// Appends the item `elements`, if there are any.
fn write_elements(
    set: &SetDecl,
    now: u64,
    elements: &TimedElements,
    out: &mut Vec<u8>,
) -> Result<(), Memory>
    requires { All (λ e. parts_fit set.now.kinds e.parts ≡ true) elements.now }
    ensures ok { OnOk result (out.new.items ≡ out.old.items ++ elements_line set.now now elements.now) }
    ensures kept { KeepsBytes out.old.items out.new.items }
{
    if elements.len() == 0 {
        return Ok(());
    }
    write(&[Word(b"\t\telements = { ")], out)?;
    write_each(set, now, elements, out)?;
    write(&[Word(b" }\n")], out)
}

fn write_kinds(kinds: &[Kind], out: &mut Vec<u8>) -> Result<(), Memory>
    ensures ok { OnOk result (out.new.items ≡ out.old.items ++ join_by kind_text (codes " . ") kinds.now) }
    ensures kept { KeepsBytes out.old.items out.new.items }
{
    let mut separator: &[u8] = b"";
    'kinds: for kind in kinds {
        write(&[Word(separator), Word(kind_word(*kind))], out)?;
        separator = b" . ";
    }
    Ok(())
}

/// Appends the item `type`.
fn write_type(set: &SetDecl, out: &mut Vec<u8>) -> Result<(), Memory>
    ensures ok { OnOk result (out.new.items ≡ out.old.items ++ type_line set.now) }
    ensures kept { KeepsBytes out.old.items out.new.items }
{
    write(&[Word(b"\t\ttype ")], out)?;
    write_kinds(set.kinds.as_slice(), out)?;
    write(&[Word(b"\n")], out)
}

/// Appends the item `size`, if a set has one.
fn write_size(size: Option<u32>, out: &mut Vec<u8>) -> Result<(), Memory>
    ensures ok { OnOk result (out.new.items ≡ out.old.items ++ size_line size) }
    ensures kept { KeepsBytes out.old.items out.new.items }
{
    match size {
        None => Ok(()),
        Some(most) => write(
            &[Word(b"\t\tsize "), Number(u64::from(most)), Word(b"\n")],
            out,
        ),
    }
}

/// Appends the item `flags`, if a set has one.
fn write_flags(set: &SetDecl, out: &mut Vec<u8>) -> Result<(), Memory>
    ensures ok { OnOk result (out.new.items ≡ out.old.items ++ flags_line (flag_words set.now)) }
    ensures kept { KeepsBytes out.old.items out.new.items }
{
    let flags: &[u8] = match (set.interval, set.timed, set.disjoint) {
        (false, false, false) => return Ok(()),
        (true, false, false) => b"interval",
        (false, true, false) => b"timeout",
        (false, false, true) => b"disjoint",
        (true, true, false) => b"interval,timeout",
        (true, false, true) => b"interval,disjoint",
        (false, true, true) => b"timeout,disjoint",
        (true, true, true) => b"interval,timeout,disjoint",
    };
    write(&[Word(b"\t\tflags "), Word(flags), Word(b"\n")], out)
}

/// Appends the item `timeout`, if a set has one.
fn write_timeout(timeout: Option<u64>, out: &mut Vec<u8>) -> Result<(), Memory>
    ensures ok { OnOk result (out.new.items ≡ out.old.items ++ timeout_line timeout) }
    ensures kept { KeepsBytes out.old.items out.new.items }
{
    match timeout {
        None => Ok(()),
        Some(life) => write(&[Word(b"\t\ttimeout "), Time(life), Word(b"\n")], out),
    }
}

/// Appends the items of a set.
fn write_items(set: &SetDecl, image: &SetImage, now: u64, out: &mut Vec<u8>) -> Result<(), Memory>
    requires { image.now.kinds ≡ set.now.kinds }
    ensures ok { OnOk result (out.new.items ≡ out.old.items ++ items_text now set.now image.now) }
    ensures kept { KeepsBytes out.old.items out.new.items }
{
    write_type(set, out)?;
    write_size(set.size, out)?;
    write_flags(set, out)?;
    write_timeout(set.timeout, out)?;
    write_elements(set, now, image.elements(), out)
}

/// Appends a set.
fn write_set(set: &SetDecl, image: &SetImage, now: u64, out: &mut Vec<u8>) -> Result<(), Memory>
    requires { image.now.kinds ≡ set.now.kinds }
    ensures ok { OnOk result (out.new.items ≡ out.old.items ++ listed_set now (set.now, image.now)) }
    ensures kept { KeepsBytes out.old.items out.new.items }
{
    write(
        &[Word(b"\tset "), Word(set.name.as_slice()), Word(b" {\n")],
        out,
    )?;
    write_items(set, image, now, out)?;
    write(&[Word(b"\t}\n")], out)
}

/// Appends a set of a generation.
fn write_kept_set(
    declared: &SetDecl,
    set: &KeptSet,
    now: u64,
    out: &mut Vec<u8>,
) -> Result<(), Memory>
    requires { set.now.kinds ≡ declared.now.kinds }
    ensures ok { OnOk result (out.new.items ≡ out.old.items ++ listed_set now (declared.now, set.now)) }
    ensures kept { KeepsBytes out.old.items out.new.items }
{
    let image = set.closed_up(*out.allocator())?;
    write_set(declared, &image, now, out)
}

/// Whether two sets are in one table.
fn is_same_table(one: &SetDecl, other: &SetDecl) -> bool
    ensures { result ≡ same_table one.now other.now }
{
    family_word(one.family) == family_word(other.family)
        && one.table.as_slice() == other.table.as_slice()
}

/// Appends the sets that are in the table of `first`.
fn write_sets(
    schema: &Schema,
    generation: &Generation,
    first: &SetDecl,
    now: u64,
    out: &mut Vec<u8>,
) -> Result<(), Memory>
    requires { HaveDeclaredKinds schema.now generation.now.sets }
    ensures ok { OnOk result (out.new.items ≡ out.old.items ++ join_by (listed_set now) (codes "\n") (sets_beside first.now (zip schema.now generation.now.sets))) }
    ensures kept { KeepsBytes out.old.items out.new.items }
{
    let mut separator: &[u8] = b"";
    'sets: for place in 0..schema.len() {
        let set = schema.at(place);
        if !is_same_table(first, set) {
            continue;
        }
        write(&[Word(separator)], out)?;
        write_kept_set(set, generation.sets.at(place), now, out)?;
        separator = b"\n";
    }
    Ok(())
}

/// Appends the table of `first`.
fn write_table(
    schema: &Schema,
    generation: &Generation,
    first: &SetDecl,
    now: u64,
    out: &mut Vec<u8>,
) -> Result<(), Memory>
    requires { HaveDeclaredKinds schema.now generation.now.sets }
    ensures ok { OnOk result (out.new.items ≡ out.old.items ++ listed_table (zip schema.now generation.now.sets) now first.now) }
    ensures kept { KeepsBytes out.old.items out.new.items }
{
    write(
        &[
            Word(b"table "),
            Word(family_word(first.family)),
            Word(b" "),
            Word(first.table.as_slice()),
            Word(b" {\n"),
        ],
        out,
    )?;
    write_sets(schema, generation, first, now, out)?;
    write(&[Word(b"}\n")], out)
}

/// Whether a set declared before this place is in the same table.
fn has_table(schema: &Schema, place: u64, set: &SetDecl) -> bool
    requires { place ≤ length schema.now }
    ensures { result ≡ list_any (λ other. same_table other set.now) (take place schema.now) }
{
    schema.as_slice()[..place as usize]
        .iter()
        .any(|other| is_same_table(other, set))
}

/// Appends all tables.
fn write_tables(
    schema: &Schema,
    generation: &Generation,
    now: u64,
    out: &mut Vec<u8>,
) -> Result<(), Memory>
    requires { HaveDeclaredKinds schema.now generation.now.sets }
    ensures ok { OnOk result (out.new.items ≡ out.old.items ++ list_text schema.now generation.now.sets now) }
    ensures kept { KeepsBytes out.old.items out.new.items }
{
    let mut separator: &[u8] = b"";
    'tables: for place in 0..schema.len() {
        let set = schema.at(place);
        if has_table(schema, place, set) {
            continue;
        }
        write(&[Word(separator)], out)?;
        write_table(schema, generation, set, now, out)?;
        separator = b"\n";
    }
    Ok(())
}

/// Appends the declared sets in a generation as nft(8) lists them: a table with its sets, and a set
/// with its items and its elements. An element that expires has the time from `now` to its expiry;
/// `now` is in milliseconds.
///
/// # Errors
///
/// `Memory` if memory runs out. At most a front of the text is then appended.
pub fn write_list(
    schema: &Schema,
    generation: &Generation,
    now: u64,
    out: &mut Vec<u8>,
) -> Result<(), Memory>
    requires { HaveDeclaredKinds schema.now generation.now.sets }
    ensures ok { OnOk result (out.new.items ≡ out.old.items ++ list_text schema.now generation.now.sets now) }
    ensures err { OnErr result (AppendsPart out.old.items out.new.items (list_text schema.now generation.now.sets now)) }
{
    let len = out.len();
    let written = write_tables(schema, generation, now, out);
    if written.is_err() {
        out.truncate(len);
    }
    written
}
