ghost use Rattle.std.specs.Prelude.{◌≡◌, ◌++◌, ◌<◌, All, length, OnOk, OnErr};
ghost use Rattle.set_model.specs.Text.{event_text};
ghost use Rattle.set_model.specs.declared.report.Event.TheVariants.{Refused};
ghost use Rattle.set_report.specs.Remarks.{told_text};
ghost use Rattle.set_report.specs.Writes.{NamesSet};
ghost use Rattle.text_pieces.specs.Appends.{AppendsPart};

use set_model::{Event, Events, Memory, Schema, SetDecl, Why};
use text_pieces::Piece::{Number, Set, Word};
use text_pieces::{append, append_pieces};

/// Appends the line of a refused change.
fn write_refusal(
    schema: &Schema,
    line: u64,
    set: u32,
    why: Why,
    out: &mut Vec<u8>,
) -> Result<(), Memory>
    requires { set < length schema.now }
    ensures ok { OnOk result (out.new.items ≡ out.old.items ++ event_text schema.now (Refused line set why)) }
    ensures err { OnErr result (AppendsPart out.old.items out.new.items (event_text schema.now (Refused line set why))) }
{
    let line = Number(line);
    let set = Set(schema.at(u64::from(set)));
    match why {
        Why::Overlap { id } => append_pieces(
            &[
                Word(b"line "),
                line,
                Word(b" refused overlap "),
                set,
                Word(b" element "),
                Number(id),
                Word(b"\n"),
            ],
            out,
        ),
        Why::Exists { id } => append_pieces(
            &[
                Word(b"line "),
                line,
                Word(b" refused exists "),
                set,
                Word(b" element "),
                Number(id),
                Word(b"\n"),
            ],
            out,
        ),
        Why::Full => append_pieces(
            &[
                Word(b"line "),
                line,
                Word(b" refused full "),
                set,
                Word(b"\n"),
            ],
            out,
        ),
        Why::RulesFull { field } => append_pieces(
            &[
                Word(b"line "),
                line,
                Word(b" refused rules "),
                set,
                Word(b" field "),
                Number(u64::from(field)),
                Word(b"\n"),
            ],
            out,
        ),
        Why::Missing => append_pieces(
            &[
                Word(b"line "),
                line,
                Word(b" refused missing "),
                set,
                Word(b"\n"),
            ],
            out,
        ),
    }
}

/// Appends the line of an event.
fn write_event(schema: &Schema, event: &Event, out: &mut Vec<u8>) -> Result<(), Memory>
    requires { NamesSet (length schema.now) event.now }
    ensures ok { OnOk result (out.new.items ≡ out.old.items ++ event_text schema.now event.now) }
    ensures err { OnErr result (AppendsPart out.old.items out.new.items (event_text schema.now event.now)) }
{
    match *event {
        Event::Refused { line, set, why } => write_refusal(schema, line, set, why, out),
        Event::Committed { generation, purged } => append_pieces(
            &[
                Word(b"commit generation "),
                Number(generation),
                Word(b" purged "),
                Number(purged),
                Word(b"\n"),
            ],
            out,
        ),
        Event::Aborted { generation } => append_pieces(
            &[Word(b"abort generation "), Number(generation), Word(b"\n")],
            out,
        ),
        Event::Dropped { generation } => append_pieces(
            &[Word(b"fail generation "), Number(generation), Word(b"\n")],
            out,
        ),
    }
}

/// Appends the line of an event after a prefix.
#[tactic(auto, using(text_pieces::proofs::TwoParts::two_parts))]
fn write_behind(
    schema: &Schema,
    event: &Event,
    prefix: &[u8],
    out: &mut Vec<u8>,
) -> Result<(), Memory>
    requires { NamesSet (length schema.now) event.now }
    ensures ok { OnOk result (out.new.items ≡ out.old.items ++ (prefix.now ++ event_text schema.now event.now)) }
    ensures err { OnErr result (AppendsPart out.old.items out.new.items (prefix.now ++ event_text schema.now event.now)) }
{
    append(prefix, out)?;
    write_event(schema, event, out)
}

/// Appends the lines of events, in their order, such as `commit generation 1 purged 0`, each after a
/// prefix.
///
/// # Errors
///
/// `Memory` if memory runs out. A front of the text is then appended.
#[tactic(auto, using(text_pieces::proofs::PartLaws::item_part))]
pub fn write_events(
    schema: &Schema,
    events: &Events,
    prefix: &[u8],
    out: &mut Vec<u8>,
) -> Result<(), Memory>
    requires { All (NamesSet (length schema.now)) events.now }
    ensures ok { OnOk result (out.new.items ≡ out.old.items ++ told_text prefix.now schema.now events.now) }
    ensures err { OnErr result (AppendsPart out.old.items out.new.items (told_text prefix.now schema.now events.now)) }
{
    for event in events.as_slice() {
        write_behind(schema, event, prefix, out)?;
    }
    Ok(())
}
