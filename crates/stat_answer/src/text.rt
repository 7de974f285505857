//! The lines of a set and of its fields.
ghost use Rattle.std.specs.Prelude.{◌≡◌, ◌<◌, ◌++◌, length, OnOk, IfOk};
ghost use Rattle.set_report.specs.Writes.{AreSetsOf};
ghost use Rattle.stat_answer.specs.Figures.{all_bytes, field_figures};
ghost use Rattle.stat_answer.specs.StatText.{next_end, set_front, set_line, field_line, field_lines, total_line, set_stat, sets_stat};

use crate::ages::ages_at;
use crate::figures::{FieldFigures, figures_of};
use expiry_scan::TimedElements;
use pipapo_image::SetImage;
use set_model::{Memory, Schema, SetDecl};
use set_space::{Generation, KeptSet};
use text_pieces::Piece::{Number, Set, Sum, Time, Word};
use text_pieces::append_pieces;

/// Appends the end of a set's line: the time until the next expiry.
fn write_next(now: u64, next: Option<u64>, out: &mut Vec<u8>) -> Result<(), Memory>
    ensures { OnOk result (out.new.items ≡ out.old.items ++ next_end now next) }
{
    match next {
        None => append_pieces(&[Word(b"none\n")], out),
        Some(expiry) => append_pieces(&[Time(expiry.saturating_sub(now)), Word(b"\n")], out),
    }
}

/// Appends the front of a set's line: how many elements it has, and how many of them are expired or expire later.
fn write_front(
    set: &SetDecl,
    elements: u64,
    expired: u64,
    expiring: u64,
    out: &mut Vec<u8>,
) -> Result<(), Memory>
    ensures { OnOk result (out.new.items ≡ out.old.items ++ set_front set.now elements expired expiring) }
{
    append_pieces(
        &[
            Word(b"set "),
            Set(set),
            Word(b" elements "),
            Number(elements),
            Word(b" expired "),
            Number(expired),
            Word(b" expiring "),
            Number(expiring),
            Word(b" next "),
        ],
        out,
    )
}

/// Appends the line of a set.
fn write_set_line(
    set: &SetDecl,
    elements: &TimedElements,
    now: u64,
    out: &mut Vec<u8>,
) -> Result<(), Memory>
    ensures { OnOk result (out.new.items ≡ out.old.items ++ set_line now set.now elements.now) }
{
    let ages = ages_at(elements, now);
    write_front(
        set,
        elements.len(),
        elements.count_expired(now),
        ages.expiring,
        out,
    )?;
    write_next(now, ages.next, out)
}

/// Appends the line of field `f`.
fn write_field(f: u64, figures: FieldFigures, out: &mut Vec<u8>) -> Result<(), Memory>
    ensures { OnOk result (out.new.items ≡ out.old.items ++ field_line f figures) }
{
    append_pieces(
        &[
            Word(b"field "),
            Number(f),
            Word(b" width "),
            Number(u64::from(figures.width)),
            Word(b" rules "),
            Number(u64::from(figures.rules)),
            Word(b" bytes "),
            Number(figures.bytes),
            Word(b"\n"),
        ],
        out,
    )
}

/// The figures of field `f` of a set.
fn figures_at(image: &SetImage, f: u64) -> FieldFigures
    requires { f < length image.now.kinds }
    ensures { result ≡ field_figures image.now.kinds image.now.elements f }
{
    figures_of(image.index().fields.at(f))
}

/// Appends the lines of a set's fields, and returns the bytes of all of them.
fn write_fields(image: &SetImage, out: &mut Vec<u8>) -> Result<u128, Memory>
    ensures text { OnOk result (out.new.items ≡ out.old.items ++ field_lines image.now.kinds image.now.elements (length image.now.kinds)) }
    ensures bytes { IfOk result (λ bytes. bytes ≡ all_bytes image.now.kinds image.now.elements) }
{
    let mut bytes = 0;
    'fields: for f in 0..image.kinds().len() {
        let figures = figures_at(image, f);
        write_field(f, figures, out)?;
        bytes += u128::from(figures.bytes);
    }
    Ok(bytes)
}

/// Appends a set's figures.
fn write_set(set: &SetDecl, image: &SetImage, now: u64, out: &mut Vec<u8>) -> Result<(), Memory>
    ensures { OnOk result (out.new.items ≡ out.old.items ++ set_stat now (set.now, image.now)) }
{
    write_set_line(set, image.elements(), now, out)?;
    let bytes = write_fields(image, out)?;
    append_pieces(&[Word(b"total bytes "), Sum(bytes), Word(b"\n")], out)
}

/// Appends the figures of a set of a generation.
fn write_kept_set(
    declared: &SetDecl,
    set: &KeptSet,
    now: u64,
    out: &mut Vec<u8>,
) -> Result<(), Memory>
    ensures { OnOk result (out.new.items ≡ out.old.items ++ set_stat now (declared.now, set.now)) }
{
    let image = set.closed_up(*out.allocator())?;
    write_set(declared, &image, now, out)
}

/// Appends the figures of the declared sets in a generation, at a moment in milliseconds.
///
/// # Errors
///
/// `Memory` if memory runs out.
pub(crate) fn write_sets(
    schema: &Schema,
    generation: &Generation,
    now: u64,
    out: &mut Vec<u8>,
) -> Result<(), Memory>
    requires { AreSetsOf schema.now generation.now.sets }
    ensures { OnOk result (out.new.items ≡ out.old.items ++ sets_stat now schema.now generation.now.sets) }
{
    'sets: for i in 0..schema.len() {
        write_kept_set(schema.at(i), generation.sets.at(i), now, out)?;
    }
    Ok(())
}
