//! The answer to a key, and its text.
ghost use Rattle.std.specs.List.{list_any};
ghost use Rattle.std.specs.Prelude.{◌≡◌, ◌||◌, not, ◌++◌, true, All, filter, length, map, is_some, slice_get, Some, Err, List, Option, IfOk, IfSome, OnOk, ℕ, option_map, false};
ghost use Rattle.std.specs.String.{string_bytes};
ghost use Rattle.set_model.specs.Key.{key_fits, parts_fit};
ghost use Rattle.set_model.specs.SetState.{first};
ghost use Rattle.set_model.specs.Control.{mode_of, is_refusal as refuses};
ghost use Rattle.set_model.specs.Runnable.{IsRunnable, IsFitting};
ghost use Rattle.set_report.specs.Writes.{AreSetsOf, NamesSet};
ghost use Rattle.packet_pool.specs.Running.{run, StandsAt};
ghost use Rattle.script_laws.specs.Reports.{IsReportOn};
ghost use Rattle.token_forms.specs.declared.token.Reason.{Reason};
ghost use Rattle.key_answer.specs.Answer.{answer_in, answer_text, origin_text, GivesAnswer};
ghost use Rattle.key_answer.specs.Origin.{lines_of};
ghost use Rattle.key_answer.specs.Question.{IsBadKey, IsKey};
ghost use Rattle.token_forms.specs.declared.bad_token.BadToken.{BadToken as Token};
ghost use Rattle.set_model.specs.declared.script.SetDecl.{SetDecl as Declared};
ghost use Rattle.key_answer.specs.declared.question.AnswerError.TheVariants.{BadKey};
ghost use Rattle.set_report.specs.Remarks.{remarks_text};

use crate::question::{AnswerError, no_key, packet_of};
use crate::trace::{Trace, trace_script};
use element_text::write_line;
use packet_pool::Gate;
use pipapo_image::{Scratch, SetImage};
use script_laws::{Output, add_refusals, tells_refusal};
use set_model::{Element, Event, Memory, Packet, Script, SetDecl};
use set_report::write_element;
use std::alloc::Global;
use text_pieces::Piece::{Number, Word};
use text_pieces::append_pieces;

/// Appends an element by its id, as a listing has it, and the line that added it.
fn write_origin(
    set: &SetDecl,
    now: u64,
    lines: &[u64],
    element: &Element,
    out: &mut Vec<u8>,
) -> Result<(), Memory>
    requires { parts_fit set.now.kinds element.now.parts ≡ true }
    ensures { OnOk result (out.new.items ≡ out.old.items ++ origin_text set.now now lines.now element.now) }
{
    append_pieces(&[Word(b"element "), Number(element.id), Word(b": ")], out)?;
    write_element(set, now, element, out)?;
    write_line(lines, element.id, out)
}

/// The element of a set that answers a packet: the first one that is live and holds the key. The set's tables find it.
pub fn element_for<'a>(
    image: &'a SetImage,
    packet: &Packet,
    scratch: &mut Scratch,
) -> Option<&'a Element>
    requires { key_fits image.now.kinds packet.now.key ≡ true }
    ensures first { option_map (λ e. e.now) result ≡ first image.now packet.entry.now.key packet.entry.now.now }
    ensures fits { IfSome result (λ e. parts_fit image.now.kinds e.now.parts ≡ true) }
{
    match image.find(&packet.key, packet.now, scratch) {
        None => None,
        Some(found) => Some(image.elements().at(found.place)),
    }
}

/// Appends the answer to a packet, an element of a set or none, and returns whether there is one.
fn write_answer(
    declared: &SetDecl,
    now: u64,
    lines: &[u64],
    answer: Option<&Element>,
    out: &mut Vec<u8>,
) -> Result<bool, Memory>
    requires { IfSome answer (λ e. parts_fit declared.now.kinds e.now.parts ≡ true) }
    ensures text { OnOk result (out.new.items ≡ out.old.items ++ answer_text (Some declared.now) now lines.now (option_map (λ e. e.now) answer.entry)) }
    ensures found { IfOk result (λ found. found ≡ is_some (option_map (λ e. e.now) answer.entry)) }
{
    match answer {
        None => {
            append_pieces(&[Word(b"none\n")], out)?;
            Ok(false)
        }
        Some(element) => {
            write_origin(declared, now, lines, element, out)?;
            append_pieces(&[Word(b"\n")], out)?;
            Ok(true)
        }
    }
}

/// Appends the answer to a packet in the last generation of a run, and returns whether an element answers it.
fn write_found(
    alloc: Global,
    trace: &Trace,
    packet: &Packet,
    out: &mut Vec<u8>,
) -> Result<bool, Memory>
    requires sets { AreSetsOf trace.now.control.schema trace.now.control.work.base.sets }
    requires fits { IsFitting trace.now.control.schema packet.now }
    ensures text { OnOk result (out.new.items ≡ out.old.items ++ answer_text (slice_get trace.now.control.schema packet.entry.now.set) packet.entry.now.now (lines_of trace.now.lines packet.entry.now.set) (answer_in trace.now.control.work.base packet.entry.now)) }
    ensures found { IfOk result (λ found. found ≡ is_some (answer_in trace.now.control.work.base packet.entry.now)) }
{
    let image = trace.image(alloc, packet.set)?;
    let mut scratch = Scratch::new(alloc)?;
    let answer = element_for(&image, packet, &mut scratch);
    write_answer(
        trace.control.schema().at(u64::from(packet.set)),
        packet.now,
        trace.lines.of(packet.set),
        answer,
        out,
    )
}

/// Appends the refused changes of a run as comments, and then the answer to a packet. Returns whether
/// an element answers it.
fn write_all(
    alloc: Global,
    trace: &Trace,
    packet: &Packet,
    out: &mut Vec<u8>,
) -> Result<bool, Memory>
    requires named { All (NamesSet (length trace.now.control.schema)) trace.now.events }
    requires sets { AreSetsOf trace.now.control.schema trace.now.control.work.base.sets }
    requires fits { IsFitting trace.now.control.schema packet.now }
    ensures text { OnOk result (out.new.items ≡ out.old.items ++ (remarks_text trace.now.control.schema (filter refuses trace.now.events) ++ answer_text (slice_get trace.now.control.schema packet.entry.now.set) packet.entry.now.now (lines_of trace.now.lines packet.entry.now.set) (answer_in trace.now.control.work.base packet.entry.now))) }
    ensures found { IfOk result (λ found. found ≡ is_some (answer_in trace.now.control.work.base packet.entry.now)) }
{
    trace.write_refusals(alloc, b"# ", out)?;
    write_found(alloc, trace, packet, out)
}

/// Whether a change was refused, or no element was found.
fn fails(events: &[Event], found: bool) -> bool
    ensures { result ≡ (list_any refuses events.now || not found) }
{
    tells_refusal(events) || !found
}

/// Answers a packet in the last generation of a script, as [`get`] does. Its words are those of a key.
fn answer_to<G: Gate>(
    alloc: Global,
    script: Script,
    words: &[String],
    asked: Packet,
    moment: Option<u64>,
    keep_going: bool,
    gate: &G,
) -> Result<Output, Memory>
    requires script { IsRunnable script }
    requires key { IsKey script.schema (map string_bytes words.now) asked }
    requires fits { IsFitting script.schema asked }
    ensures answer { IfOk result (λ out. GivesAnswer (mode_of keep_going) script (map string_bytes words.now) moment out.refused out.text.items) }
    ensures report { IfOk result (IsReportOn (mode_of keep_going) script) }
    ensures failed { IfOk result (λ out. out.failed ≡ false) }
{
    let packet = Packet {
        now: moment.unwrap_or(script.last),
        ..asked
    };
    let trace = trace_script(alloc, &script, keep_going, gate)?;
    let mut output = Output::new(alloc);
    let found = write_all(alloc, &trace, &packet, &mut output.text)?;
    let events = trace.events.as_slice();
    add_refusals(0, events, &mut output.refusals)?;
    output.refused = fails(events, found);
    output.script = Some(script);
    Ok(output)
}

/// Answers the key of words, which are one line of a key file, in the last generation of a script. The
/// moment is in milliseconds; without one it is the script's last. The text is the element and the line
/// that added it, or `none`, after the refused changes. `refused` is true if a change was refused or no
/// element answers.
///
/// # Errors
///
/// `BadKey` if the words are no key. `Memory` if memory runs out.
pub fn get<G: Gate>(
    alloc: Global,
    script: Script,
    words: &[String],
    moment: Option<u64>,
    keep_going: bool,
    gate: &G,
) -> Result<Output, AnswerError>
    requires script { IsRunnable script }
    ensures answer { IfOk result (λ out. GivesAnswer (mode_of keep_going) script (map string_bytes words.now) moment out.refused out.text.items) }
    ensures report { IfOk result (IsReportOn (mode_of keep_going) script) }
    ensures failed { IfOk result (λ out. out.failed ≡ false) }
    ensures bad { (line : ℕ) (reason : Reason) (bad : Option Token) (schema : List Declared) → result ≡ Err (BadKey line reason bad schema) → IsBadKey script.schema (map string_bytes words.now) line reason }
{
    match packet_of(alloc, &script.schema, words) {
        Ok(asked) => Ok(answer_to(alloc, script, words, asked, moment, keep_going, gate)?),
        Err(error) => Err(no_key(alloc, script, words, error)),
    }
}
