ghost use Rattle.std.specs.Prelude.{◌≡◌, ◌<◌, ◌++◌, codes, decimal, OnOk, OnErr};
ghost use Rattle.std.specs.Io.KnownBytes.{Appends};
ghost use Rattle.pip_base.specs.Causes.{HasCause};
ghost use Rattle.pip_base.specs.Whole.{AppendsFront};
ghost use Rattle.command_words.specs.WordForms.{page_text};
ghost use Rattle.top_call.specs.Answers.{Ends, IsExactly};
ghost use Rattle.input_files.specs.Inputs.{form_of};
ghost use Rattle.top_call.specs.Lines.{named_line, placed_line, reason_end as end_of_line, capture_end as end_of_capture, done_status as status_of_done, form_status, flaw_line, file_status, file_line, status_of, fault_line};

use crate::fault::Fault;
use command_words::Page;
use input_files::{FileFault, Flaw};
use itoa::Buffer;
use pcap_keys::CaptureReason;
use pip_base::{Sink, WriteFault, write_whole};
use token_forms::Reason;

const USAGE: &[u8] =
    b"pipapo: usage: run SCRIPT KEYS [--threads N] [--keep-going] [--sets] [--elements] | list SCRIPT [--keep-going] [--sets] [--json] | dump SCRIPT [--keep-going] [--sets] | drill SEED COUNT [--threads N] | judge SCRIPT RULES KEYS [--threads N] [--keep-going] [--sets] | judge SCRIPT RULES PLAN PCAP [--threads N] [--keep-going] [--sets] | capture SCRIPT PLAN PCAP [--threads N] [--keep-going] [--sets] [--elements] | desk SCRIPT [--keep-going] [--sets] | get [--at MOMENT] [--keep-going] [--sets] SCRIPT [FAMILY] TABLE SET VALUE . VALUE .. | explain SCRIPT KEYS [--keep-going] [--sets] | compare SCRIPT1 SCRIPT2 [--keep-going] [--sets] | stat SCRIPT [--keep-going] [--sets] | sets RULESET\n";

/// The status of an output.
pub fn done_status(refused: bool) -> u8
    ensures { result ≡ status_of_done refused }
{
    if refused { 1 } else { 0 }
}

/// Writes a text, and returns its status, or 6 if the sink fails.
pub fn deliver<K: Sink>(sink: &mut K, status: u8, text: &[u8]) -> u8
    ensures { Ends (IsExactly status text.now) (K.taken sink.old) (K.taken sink.new) (K.faults sink.old) (K.faults sink.new) result }
{
    match write_whole(sink, text) {
        Ok(()) => status,
        Err(_) => 6,
    }
}

/// Writes a page.
pub fn deliver_page<K: Sink>(sink: &mut K, page: Page) -> u8
    ensures { Ends (IsExactly 0 (page_text page)) (K.taken sink.old) (K.taken sink.new) (K.faults sink.old) (K.faults sink.new) result }
{
    deliver(sink, 0, page.text().as_bytes())
}

/// Writes two pieces, one after the other.
fn write_both<K: Sink>(sink: &mut K, first: &[u8], second: &[u8]) -> Result<(), WriteFault>
    ensures bytes { OnOk result (Appends (K.taken sink.old) (K.taken sink.new) (first.now ++ second.now)) }
    ensures front { OnErr result (AppendsFront (K.taken sink.old) (K.taken sink.new) (first.now ++ second.now)) }
    ensures cause { HasCause (K.faults sink.old) (K.faults sink.new) result }
{
    match write_whole(sink, first) {
        Ok(()) => write_whole(sink, second),
        Err(fault) => Err(fault),
    }
}

/// Writes three pieces, one after the other.
fn write_three<K: Sink>(
    sink: &mut K,
    first: &[u8],
    second: &[u8],
    third: &[u8],
) -> Result<(), WriteFault>
    ensures bytes { OnOk result (Appends (K.taken sink.old) (K.taken sink.new) ((first.now ++ second.now) ++ third.now)) }
    ensures front { OnErr result (AppendsFront (K.taken sink.old) (K.taken sink.new) ((first.now ++ second.now) ++ third.now)) }
    ensures cause { HasCause (K.faults sink.old) (K.faults sink.new) result }
{
    match write_both(sink, first, second) {
        Ok(()) => write_whole(sink, third),
        Err(fault) => Err(fault),
    }
}

/// Writes three pieces, one after the other, and returns their status, or 6 if the sink fails.
fn deliver_three<K: Sink>(sink: &mut K, status: u8, first: &[u8], second: &[u8], third: &[u8]) -> u8
    ensures { Ends (IsExactly status ((first.now ++ second.now) ++ third.now)) (K.taken sink.old) (K.taken sink.new) (K.faults sink.old) (K.faults sink.new) result }
{
    match write_three(sink, first, second, third) {
        Ok(()) => status,
        Err(_) => 6,
    }
}

/// What follows the line number of a bad token: the reason.
fn reason_end(reason: Reason) -> &'static [u8]
    ensures { result.now ≡ end_of_line reason }
{
    match reason {
        Reason::Character => b": character\n",
        Reason::End => b": end\n",
        Reason::LeftOut => b": left out\n",
        Reason::TypeWord => b": type\n",
        Reason::Value => b": value\n",
        Reason::Time => b": time\n",
        Reason::Moment => b": moment\n",
        Reason::Set => b": set\n",
        Reason::Number => b": number\n",
        Reason::Statement => b": statement\n",
    }
}

/// Writes the line of a bad token, and returns its status, or 6 if the sink fails.
fn deliver_placed<K: Sink>(sink: &mut K, status: u8, front: &[u8], line: u64, reason: Reason) -> u8
    ensures { Ends (IsExactly status (placed_line front.now line reason)) (K.taken sink.old) (K.taken sink.new) (K.faults sink.old) (K.faults sink.new) result }
{
    let mut number = Buffer::new();
    deliver_three(
        sink,
        status,
        front,
        number.format(line).as_bytes(),
        reason_end(reason),
    )
}

/// Writes a line that ends with a name, and returns its status, or 6 if the sink fails.
fn deliver_named<K: Sink>(sink: &mut K, status: u8, front: &[u8], name: &str) -> u8
    ensures { Ends (IsExactly status (named_line front.now name.now)) (K.taken sink.old) (K.taken sink.new) (K.faults sink.old) (K.faults sink.new) result }
{
    deliver_three(sink, status, front, name.as_bytes(), b"\n")
}

/// What follows the number of a capture's byte: the reason.
fn capture_end(reason: CaptureReason) -> &'static [u8]
    ensures { result.now ≡ end_of_capture reason }
{
    match reason {
        CaptureReason::Magic => b": magic\n",
        CaptureReason::Cut => b": cut\n",
        CaptureReason::Version => b": version\n",
        CaptureReason::LinkType => b": link type\n",
        CaptureReason::Length => b": length\n",
        CaptureReason::Interface => b": interface\n",
        CaptureReason::Options => b": options\n",
    }
}

/// Writes the line of a capture's first fault, and returns its status, or 6 if the sink fails.
fn deliver_capture<K: Sink>(sink: &mut K, byte: u64, reason: CaptureReason) -> u8
    ensures { Ends (IsExactly 10 ((codes "pipapo: capture byte " ++ decimal byte) ++ end_of_capture reason)) (K.taken sink.old) (K.taken sink.new) (K.faults sink.old) (K.faults sink.new) result }
{
    let mut number = Buffer::new();
    deliver_three(
        sink,
        10,
        b"pipapo: capture byte ",
        number.format(byte).as_bytes(),
        capture_end(reason),
    )
}

/// Writes the line of what is wrong with a file's text. Returns the status of the file's form, or 6 if the
/// sink fails.
fn tell_flaw<K: Sink>(sink: &mut K, flaw: Flaw) -> u8
    ensures { Ends (IsExactly (form_status (form_of flaw)) (flaw_line flaw)) (K.taken sink.old) (K.taken sink.new) (K.faults sink.old) (K.faults sink.new) result }
{
    match flaw {
        Flaw::Script { line, reason } => {
            deliver_placed(sink, 3, b"pipapo: script line ", line, reason)
        }
        Flaw::SecondScript { line, reason } => {
            deliver_placed(sink, 3, b"pipapo: second script line ", line, reason)
        }
        Flaw::Ruleset { line, reason } => {
            deliver_placed(sink, 3, b"pipapo: ruleset line ", line, reason)
        }
        Flaw::Keys { line, reason } => {
            deliver_placed(sink, 4, b"pipapo: keys line ", line, reason)
        }
        Flaw::Rules { line, reason } => {
            deliver_placed(sink, 9, b"pipapo: rules line ", line, reason)
        }
        Flaw::Plan { line, reason } => {
            deliver_placed(sink, 11, b"pipapo: plan line ", line, reason)
        }
        Flaw::Capture { byte, reason } => deliver_capture(sink, byte, reason),
    }
}

/// Writes the line of a file that can't be had. Returns its status, or 6 if the sink fails. Out of memory has
/// a status and no line.
fn tell_file<K: Sink>(sink: &mut K, fault: FileFault<'_>) -> u8
    ensures { Ends (IsExactly (file_status fault.entry) (file_line fault.entry)) (K.taken sink.old) (K.taken sink.new) (K.faults sink.old) (K.faults sink.new) result }
{
    match fault {
        FileFault::Bad(flaw) => tell_flaw(sink, flaw),
        FileFault::ReadFault(name) => deliver_named(sink, 5, b"pipapo: read fault: ", name),
        FileFault::TooLarge(name) => deliver_named(sink, 8, b"pipapo: too large: ", name),
        FileFault::Memory => 7,
    }
}

/// Writes the line of a fault. Returns its status, or 6 if the sink fails. Out of memory has a status and no
/// line.
pub fn tell<K: Sink>(sink: &mut K, fault: Fault<'_>) -> u8
    ensures { Ends (IsExactly (status_of fault.entry) (fault_line fault.entry)) (K.taken sink.old) (K.taken sink.new) (K.faults sink.old) (K.faults sink.new) result }
{
    match fault {
        Fault::Usage => deliver(sink, 2, USAGE),
        Fault::File(fault) => tell_file(sink, fault),
        Fault::TooManyClerks(name) => deliver_named(sink, 12, b"pipapo: too many clerks: ", name),
        Fault::BadKey { line, reason } => {
            deliver_placed(sink, 13, b"pipapo: key line ", line, reason)
        }
        Fault::Memory => 7,
    }
}
