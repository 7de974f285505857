//! What is said of two sets of one name.
ghost use Rattle.std.specs.Prelude.{◌≡◌, ◌↔◌, ◌&&◌, ◌++◌, true, slice_get, is_none, IsTrue, IfSome, IfOk, OnOk};
ghost use Rattle.set_model.specs.Key.{key_fits};
ghost use Rattle.set_compare.specs.Missing.{AreDifferences, DecideAlike};
ghost use Rattle.element_text.specs.ElementText.{line_text};
ghost use Rattle.compare_answer.specs.Verdict.{differs_front, held_text, missed_text, lack_line, lack_text, IsVerdict};
ghost use Rattle.compare_answer.specs.Plain.{plain_set, Adds};

use crate::side::Compared;
use element_text::{write_key, write_line};
use pipapo_image::Scratch;
use set_compare::{Difference, Lack, compare, have_same_kinds};
use set_model::{Memory, SetDecl};
use std::alloc::Global;
use text_pieces::Piece::{Number, Set, Word};
use text_pieces::append_pieces;

/// Appends the element that holds a key, and the line that added it.
fn write_holder(set: &Compared<'_>, id: u64, out: &mut Vec<u8>) -> Result<(), Memory>
    ensures { OnOk result (out.new.items ≡ out.old.items ++ (held_text (plain_set set.now) id ++ line_text (slice_get set.now.lines.now id))) }
{
    append_pieces(
        &[
            Word(b" is in element "),
            Number(id),
            Word(b" of "),
            Word(set.file),
        ],
        out,
    )?;
    write_line(set.lines, id, out)
}

/// Appends the front of a line on a key.
fn write_front(set: &SetDecl, out: &mut Vec<u8>) -> Result<(), Memory>
    ensures { OnOk result (out.new.items ≡ out.old.items ++ differs_front set.now) }
{
    append_pieces(&[Word(b"differs "), Set(set), Word(b": ")], out)
}

/// Appends the end of a line on a key: the script in which no element holds it.
fn write_missed(file: &[u8], out: &mut Vec<u8>) -> Result<(), Memory>
    ensures { OnOk result (out.new.items ≡ out.old.items ++ missed_text file.now) }
{
    append_pieces(
        &[Word(b" and in no element of "), Word(file), Word(b"\n")],
        out,
    )
}

/// Appends the line on a key that one set finds and the other doesn't.
fn write_lack(
    held: &Compared<'_>,
    other: &Compared<'_>,
    lack: &Lack,
    out: &mut Vec<u8>,
) -> Result<(), Memory>
    requires { key_fits held.now.image.now.kinds lack.now.key ≡ true }
    ensures { OnOk result (out.new.items ≡ out.old.items ++ lack_line (plain_set held.now) (plain_set other.now) lack.now) }
{
    write_front(held.declared, out)?;
    write_key(held.image.kinds().as_slice(), lack.key.as_slice(), out)?;
    write_holder(held, lack.found.id, out)?;
    write_missed(other.file, out)
}

/// Appends the line on such a key, if there is one.
fn write_if_any(
    held: &Compared<'_>,
    other: &Compared<'_>,
    lack: &Option<Lack>,
    out: &mut Vec<u8>,
) -> Result<(), Memory>
    requires { IfSome lack.now (λ l. key_fits held.now.image.now.kinds l.key ≡ true) }
    ensures { OnOk result (out.new.items ≡ out.old.items ++ lack_text (plain_set held.now) (plain_set other.now) lack.now) }
{
    match lack {
        None => Ok(()),
        Some(lack) => write_lack(held, other, lack, out),
    }
}

/// Appends the verdict on two sets of one type, and returns whether they are the same.
fn write_difference(
    first: &Compared<'_>,
    second: &Compared<'_>,
    difference: &Difference,
    out: &mut Vec<u8>,
) -> Result<bool, Memory>
    requires kinds { first.now.image.now.kinds ≡ second.now.image.now.kinds }
    requires differences { AreDifferences first.now.image.now first.now.at second.now.image.now second.now.at difference.now }
    requires alike { IsTrue (is_none difference.now.in_first && is_none difference.now.in_second) ↔ DecideAlike first.now.image.now first.now.at second.now.image.now second.now.at }
    ensures { IfOk result (λ same. Adds (IsVerdict (plain_set first.now) (plain_set second.now) same) out.old.items out.new.items) }
{
    if difference.is_none() {
        append_pieces(&[Word(b"same "), Set(first.declared), Word(b"\n")], out)?;
        return Ok(true);
    }
    write_if_any(first, second, &difference.in_first, out)?;
    write_if_any(second, first, &difference.in_second, out)?;
    Ok(false)
}

/// Appends the verdict on two sets of one name, and returns whether they are the same.
///
/// # Errors
///
/// `Memory` if memory runs out.
pub(crate) fn write_verdict(
    alloc: Global,
    first: &Compared<'_>,
    second: &Compared<'_>,
    scratch: &mut Scratch,
    out: &mut Vec<u8>,
) -> Result<bool, Memory>
    ensures { IfOk result (λ same. Adds (IsVerdict (plain_set first.now) (plain_set second.now) same) out.old.items out.new.items) }
{
    if !have_same_kinds(first.image, second.image) {
        append_pieces(
            &[
                Word(b"differs "),
                Set(first.declared),
                Word(b": the types are different\n"),
            ],
            out,
        )?;
        return Ok(false);
    }
    let difference = compare(
        alloc,
        first.image,
        first.at,
        second.image,
        second.at,
        scratch,
    )?;
    write_difference(first, second, &difference, out)
}
