ghost use Rattle.std.specs.Prelude.{◌≡◌, ◌<◌, ◌++◌, List, length, slice_get, Some, OnOk, OnErr};
ghost use Rattle.std.specs.List.{flat_map, enumerate_from};
ghost use Rattle.set_model.specs.declared.kind.Kind.{Kind as OneKind};
ghost use Rattle.set_model.specs.declared.element.Element.{Element};
ghost use Rattle.pipapo_image.specs.Index.{IsIndexOf};
ghost use Rattle.set_report.specs.DumpText.{span_text, end_text, heading_text, ways_text, field_text, set_tables_text, dump_text};
ghost use Rattle.set_report.specs.DumpBuckets.{all_buckets_text};
ghost use Rattle.set_report.specs.Writes.{AreSetsOf};
ghost use Rattle.text_pieces.specs.Appends.{AppendsPart};

mod bitmap;
mod buckets;

use crate::kinds::kind_word;
use buckets::write_buckets;
use lookup_table::FieldTable;
use mapping_table::{EndTable, MapTable};
use pipapo_image::{Index, SetImage};
use set_model::{Kind, Memory, Schema, SetDecl};
use set_space::{Generation, KeptSet};
use set_tables::{End, Span};
use text_pieces::Piece::{Number, Set, Word};
use text_pieces::append_pieces;

/// Appends the first line of field `f`.
fn write_heading(f: u64, kind: Kind, table: &FieldTable, out: &mut Vec<u8>) -> Result<(), Memory>
    ensures ok { OnOk result (out.new.items ≡ out.old.items ++ heading_text f kind table.now.width table.now.rules) }
    ensures err { OnErr result (AppendsPart out.old.items out.new.items (heading_text f kind table.now.width table.now.rules)) }
{
    append_pieces(
        &[
            Word(b"field "),
            Number(f),
            Word(b" "),
            Word(kind_word(kind)),
            Word(b" width "),
            Number(u64::from(table.width)),
            Word(b" rules "),
            Number(u64::from(table.rules)),
            Word(b"\n"),
        ],
        out,
    )
}

fn write_span(span: &Span, out: &mut Vec<u8>) -> Result<(), Memory>
    ensures ok { OnOk result (out.new.items ≡ out.old.items ++ span_text span.now) }
    ensures err { OnErr result (AppendsPart out.old.items out.new.items (span_text span.now)) }
{
    append_pieces(
        &[
            Word(b"map "),
            Number(u64::from(span.first)),
            Word(b" "),
            Number(u64::from(span.count)),
            Word(b"\n"),
        ],
        out,
    )
}

fn write_end(end: &End, out: &mut Vec<u8>) -> Result<(), Memory>
    ensures ok { OnOk result (out.new.items ≡ out.old.items ++ end_text end.now) }
    ensures err { OnErr result (AppendsPart out.old.items out.new.items (end_text end.now)) }
{
    append_pieces(&[Word(b"end "), Number(end.place), Word(b"\n")], out)
}

#[tactic(auto, using(text_pieces::proofs::PartLaws::item_part))]
fn write_spans(map: &MapTable, out: &mut Vec<u8>) -> Result<(), Memory>
    ensures ok { OnOk result (out.new.items ≡ out.old.items ++ flat_map span_text map.now.items) }
    ensures err { OnErr result (AppendsPart out.old.items out.new.items (flat_map span_text map.now.items)) }
{
    'rules: for i in 0..map.len() {
        write_span(map.at(i), out)?;
    }
    Ok(())
}

#[tactic(auto, using(text_pieces::proofs::PartLaws::item_part))]
fn write_ends(ends: &EndTable, out: &mut Vec<u8>) -> Result<(), Memory>
    ensures ok { OnOk result (out.new.items ≡ out.old.items ++ flat_map end_text ends.now.items) }
    ensures err { OnErr result (AppendsPart out.old.items out.new.items (flat_map end_text ends.now.items)) }
{
    'rules: for i in 0..ends.len() {
        write_end(ends.at(i), out)?;
    }
    Ok(())
}

/// Appends the rules or elements to which the rules of field `f` lead.
fn write_ways(index: &Index, f: u64, out: &mut Vec<u8>) -> Result<(), Memory>
    ensures ok { (kinds : List OneKind) (es : List Element) → IsIndexOf kinds es index.now → f < length kinds
        → OnOk result (out.new.items ≡ out.old.items ++ ways_text kinds es f) }
    ensures err { (kinds : List OneKind) (es : List Element) → IsIndexOf kinds es index.now → f < length kinds
        → OnErr result (AppendsPart out.old.items out.new.items (ways_text kinds es f)) }
{
    if f < index.maps.len() {
        write_spans(index.maps.at(f), out)
    } else {
        write_ends(&index.ends, out)
    }
}

/// Appends a field's table: its first line, and the lines of its buckets.
#[tactic(auto, using(text_pieces::proofs::TwoParts::two_parts))]
fn write_table(f: u64, kind: Kind, table: &FieldTable, out: &mut Vec<u8>) -> Result<(), Memory>
    ensures ok { OnOk result (out.new.items ≡ out.old.items ++ (heading_text f kind table.now.width table.now.rules ++ all_buckets_text table.now)) }
    ensures err { OnErr result (AppendsPart out.old.items out.new.items (heading_text f kind table.now.width table.now.rules ++ all_buckets_text table.now)) }
{
    write_heading(f, kind, table, out)?;
    write_buckets(table, out)
}

/// Appends field `f`, which is of this kind.
fn write_field(set: &SetImage, f: u64, kind: Kind, out: &mut Vec<u8>) -> Result<(), Memory>
    requires { slice_get set.now.kinds f ≡ Some kind }
    ensures ok { OnOk result (out.new.items ≡ out.old.items ++ field_text set.now.kinds set.now.elements (record { 0 = f; 1 = kind })) }
    ensures err { OnErr result (AppendsPart out.old.items out.new.items (field_text set.now.kinds set.now.elements (record { 0 = f; 1 = kind }))) }
{
    let index = set.index();
    write_table(f, kind, index.fields.at(f), out)?;
    write_ways(index, f, out)
}

/// Appends a set's fields.
fn write_fields(set: &SetImage, out: &mut Vec<u8>) -> Result<(), Memory>
    ensures ok { OnOk result (out.new.items ≡ out.old.items ++ flat_map (field_text set.now.kinds set.now.elements) (enumerate_from 0 set.now.kinds)) }
    ensures err { OnErr result (AppendsPart out.old.items out.new.items (flat_map (field_text set.now.kinds set.now.elements) (enumerate_from 0 set.now.kinds))) }
{
    let kinds = set.kinds();
    'fields: for f in 0..kinds.len() {
        write_field(set, f, *kinds.at(f), out)?;
    }
    Ok(())
}

/// Appends a set's tables.
fn write_tables(declared: &SetDecl, set: &SetImage, out: &mut Vec<u8>) -> Result<(), Memory>
    ensures ok { OnOk result (out.new.items ≡ out.old.items ++ set_tables_text declared.now set.now) }
    ensures err { OnErr result (AppendsPart out.old.items out.new.items (set_tables_text declared.now set.now)) }
{
    append_pieces(&[Word(b"set "), Set(declared), Word(b"\n")], out)?;
    write_fields(set, out)
}

/// Appends the tables of a set of a generation.
fn write_kept_tables(declared: &SetDecl, set: &KeptSet, out: &mut Vec<u8>) -> Result<(), Memory>
    ensures ok { OnOk result (out.new.items ≡ out.old.items ++ set_tables_text declared.now set.now) }
    ensures err { OnErr result (AppendsPart out.old.items out.new.items (set_tables_text declared.now set.now)) }
{
    let image = set.closed_up(*out.allocator())?;
    write_tables(declared, &image, out)
}

/// Appends the tables of the declared sets in a generation. They show the tables that lookups read.
///
/// Each field has a line for each longest run of neighbouring buckets with the same bitmap that isn't
/// all zeros, such as `row 3 6-255 02`. Then it has one line per rule. The line is `map` with the first
/// rule and the number of rules of the next field to which the rule leads. In the last field it is
/// `end` with the place of the rule's element.
///
/// # Errors
///
/// `Memory` if memory runs out. A front of the text is then appended.
pub fn write_dump(schema: &Schema, generation: &Generation, out: &mut Vec<u8>) -> Result<(), Memory>
    requires { AreSetsOf schema.now generation.now.sets }
    ensures ok { OnOk result (out.new.items ≡ out.old.items ++ dump_text schema.now generation.now.sets) }
    ensures err { OnErr result (AppendsPart out.old.items out.new.items (dump_text schema.now generation.now.sets)) }
{
    'sets: for i in 0..schema.len() {
        write_kept_tables(schema.at(i), generation.sets.at(i), out)?;
    }
    Ok(())
}
