//! The reports on the sets of two scripts.
ghost use Rattle.std.specs.Prelude.{◌≡◌, ◌<◌, ◌≤◌, ◌++◌, length, IfOk, OnOk};
ghost use Rattle.std.specs.List.{list_any};
ghost use Rattle.set_report.specs.Writes.{AreSetsOf};
ghost use Rattle.compare_answer.specs.Compared.{only_line, IsReport, AreReports, is_alone, alone_text};
ghost use Rattle.compare_answer.specs.Verdict.{IsPairVerdict};
ghost use Rattle.compare_answer.specs.Plain.{plain_ending, Adds};

use crate::side::{Compared, Finished, place_in};
use crate::verdict::write_verdict;
use pipapo_image::Scratch;
use set_model::{Memory, Schema, SetDecl};
use std::alloc::Global;
use text_pieces::Piece::{Set, Word};
use text_pieces::append_pieces;

/// Appends the line that only one script has a set.
fn write_alone<'a>(file: &'a [u8], set: &'a SetDecl, out: &mut Vec<u8>) -> Result<(), Memory>
    ensures { OnOk result (out.new.items ≡ out.old.items ++ only_line file.now set.now) }
{
    append_pieces(
        &[
            Word(b"only in "),
            Word(file),
            Word(b": "),
            Set(set),
            Word(b"\n"),
        ],
        out,
    )
}

/// Appends the verdict on the first script's set at a place and the second's at another, and returns whether they are the same.
fn write_both(
    alloc: Global,
    first: &Finished<'_>,
    place: u32,
    second: &Finished<'_>,
    other: u32,
    scratch: &mut Scratch,
    out: &mut Vec<u8>,
) -> Result<bool, Memory>
    requires firsts { AreSetsOf first.now.trace.control.schema first.now.trace.control.work.base.sets }
    requires seconds { AreSetsOf second.now.trace.control.schema second.now.trace.control.work.base.sets }
    requires place { place < length first.now.trace.control.schema }
    requires other { other < length second.now.trace.control.schema }
    ensures { IfOk result (λ same. Adds (IsPairVerdict (plain_ending first.now) place (plain_ending second.now) other same) out.old.items out.new.items) }
{
    let declared = first.trace.control.schema().at(u64::from(place));
    let lines = first.trace.lines.of(place);
    let image = first.trace.image(alloc, place)?;
    let other_declared = second.trace.control.schema().at(u64::from(other));
    let other_lines = second.trace.lines.of(other);
    let other_image = second.trace.image(alloc, other)?;
    let set = Compared {
        file: first.file,
        declared,
        image: &image,
        at: first.at,
        lines,
    };
    let other_set = Compared {
        file: second.file,
        declared: other_declared,
        image: &other_image,
        at: second.at,
        lines: other_lines,
    };
    write_verdict(alloc, &set, &other_set, scratch, out)
}

/// Appends the report on the first script's set at a place, and returns whether the scripts have the same set.
fn write_report(
    alloc: Global,
    first: &Finished<'_>,
    place: u32,
    second: &Finished<'_>,
    scratch: &mut Scratch,
    out: &mut Vec<u8>,
) -> Result<bool, Memory>
    requires firsts { AreSetsOf first.now.trace.control.schema first.now.trace.control.work.base.sets }
    requires seconds { AreSetsOf second.now.trace.control.schema second.now.trace.control.work.base.sets }
    requires few { length second.now.trace.control.schema ≤ 64 }
    requires place { place < length first.now.trace.control.schema }
    ensures { IfOk result (λ same. Adds (λ text. IsReport (plain_ending first.now) (plain_ending second.now) place (record { same = same; text = text })) out.old.items out.new.items) }
{
    let declared = first.trace.control.schema().at(u64::from(place));
    match place_in(second.trace.control.schema().as_slice(), declared) {
        Some(other) => write_both(alloc, first, place, second, other as u32, scratch, out),
        None => {
            write_alone(first.file, declared, out)?;
            Ok(false)
        }
    }
}

/// Appends the reports on the first script's sets, and returns whether the second has the same sets.
///
/// # Errors
///
/// `Memory` if memory runs out.
pub(crate) fn write_reports(
    alloc: Global,
    first: &Finished<'_>,
    second: &Finished<'_>,
    out: &mut Vec<u8>,
) -> Result<bool, Memory>
    requires firsts { AreSetsOf first.now.trace.control.schema first.now.trace.control.work.base.sets }
    requires seconds { AreSetsOf second.now.trace.control.schema second.now.trace.control.work.base.sets }
    requires few { length first.now.trace.control.schema ≤ 64 }
    requires few_others { length second.now.trace.control.schema ≤ 64 }
    ensures { IfOk result (λ same. Adds (AreReports (plain_ending first.now) (plain_ending second.now) (length first.now.trace.control.schema) same) out.old.items out.new.items) }
{
    let mut scratch = Scratch::new(alloc)?;
    let mut same = true;
    let count = first.trace.control.schema().len() as u32;
    'places: for place in 0..count {
        let is_same = write_report(alloc, first, place, second, &mut scratch, out)?;
        same = same && is_same;
    }
    Ok(same)
}

/// Appends the lines on the sets of a script that have no set of their name among others, and returns whether there are any.
///
/// # Errors
///
/// `Memory` if memory runs out.
pub(crate) fn write_rest(
    file: &[u8],
    others: &Schema,
    schema: &Schema,
    out: &mut Vec<u8>,
) -> Result<bool, Memory>
    ensures any { IfOk result (λ any. any ≡ list_any (is_alone others.now) schema.now) }
    ensures text { OnOk result (out.new.items ≡ out.old.items ++ alone_text file.now others.now schema.now) }
{
    let mut any = false;
    'sets: for set in schema.as_slice() {
        if place_in(others.as_slice(), set).is_none() {
            write_alone(file, set, out)?;
            any = true;
        }
    }
    Ok(any)
}
