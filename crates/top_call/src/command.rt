ghost use Rattle.std.specs.Prelude.{◌≡◌, ◌&&◌, [], List, ℕ, map, Option, None, IfSome, IfOk, IfErr, OnOk};
ghost use Rattle.std.specs.String.{string_bytes};
ghost use Rattle.command_words.specs.Words.{IsCommand, AsksFor};
ghost use Rattle.command_words.specs.WordForms.{plain};
ghost use Rattle.command_words.specs.FormOptions as options;
ghost use Rattle.top_call.specs.Lines.{answer_fault as fault_of_answer};
ghost use Rattle.input_files.specs.Noted.{StopsTelling};
ghost use Rattle.input_files.specs.Reads.{HasRead};
ghost use Rattle.input_files.specs.Seen.{KeepsAll, ruleset_names, seen};
ghost use Rattle.input_files.specs.Works.{IsDoable, IsWork};
ghost use Rattle.top_call.specs.Forms.{InForm, TellsSkips, counts_left_out as is_counting, with_left_out as status_with_left_out};
ghost use Rattle.top_call.specs.Promises.{Goes, Promises};
ghost use Rattle.top_call.specs.Transcript.{HasFewClerks, IsOverfull};

use crate::delivery::{deliver, deliver_page, done_status, tell};
use crate::fault::Fault;
use crate::key_told::tell_error;
use crate::output::output_of;
use crate::refusals::{tell_refusals, tell_too_many};
use crate::sets::{deliver_sets, tell_lines};
use crate::unmet::tell_unmet;
use crate::words_told::tell_words;
use command_words::{Command, Forms, ScriptForm, WordsError, command_of, page_of};
use input_files::{FileFault, Rulesets, Skips, Work, work_of};
use key_answer::AnswerError;
use packet_pool::Gate;
use pip_base::{Notes, Shelf, Sink};
use std::alloc::Global;
use std::sync::Wait;
use std::thread::Threads;

/// What is reported in place of an output.
fn answer_fault<'a>(error: &AnswerError) -> Fault<'a>
    ensures { result ≡ fault_of_answer error.now }
{
    match error {
        AnswerError::BadKey { line, reason, .. } => Fault::BadKey {
            line: *line,
            reason: *reason,
        },
        AnswerError::Memory => Fault::Memory,
    }
}

/// The most sections of a desk's script: the first, and one for each control thread.
const MOST_SECTIONS: u64 = 17;

/// The name of the script of a desk that has more sections than there may be, and how many it has.
fn overfull<'a>(command: Command<'a>, work: &Work<'_>) -> Option<(&'a str, u64)>
    requires { (told : List ℕ → Option (List ℕ)) × IsWork told (plain command) work.now }
    ensures some { IfSome result (λ r. IsOverfull (plain command.entry) work.now r.0) }
    ensures none { result ≡ None → HasFewClerks work.now }
{
    match work {
        Work::Desk { script, .. } if script.sections.len() > MOST_SECTIONS => match command {
            Command::Script { script: name, .. } => Some((name, script.sections.len())),
            Command::Drill { .. } | Command::Compare { .. } | Command::Sets { .. } => {
                unreachable!()
            }
        },
        _ => None,
    }
}

/// The files of a command that are rulesets: its scripts, if they are given in that form.
fn rulesets_of<'a>(form: ScriptForm, command: Command<'a>) -> Rulesets<'a>
    ensures { ruleset_names result ≡ options.rulesets_of form (plain command.entry) }
{
    match form {
        ScriptForm::Script => Rulesets::NoFile,
        ScriptForm::Ruleset => scripts_of(command),
    }
}

/// The scripts of a command.
fn scripts_of<'a>(command: Command<'a>) -> Rulesets<'a>
    ensures { ruleset_names result ≡ options.scripts_of (plain command.entry) }
{
    match command {
        Command::Script { script, .. } => Rulesets::OneFile(script),
        Command::Compare { first, second, .. } => Rulesets::TwoFiles(first, second),
        Command::Drill { .. } | Command::Sets { .. } => Rulesets::NoFile,
    }
}

/// Whether a command counts a set that is left out. A comparison does: it says nothing of the set, so not all sets are the same.
#[tactic(auto, using(crate::proofs::FormLaws::task_counts_none))]
fn counts_left_out(command: Command<'_>) -> bool
    ensures { result ≡ is_counting (plain command.entry) }
{
    match command {
        Command::Compare { .. } => true,
        Command::Script { .. } | Command::Drill { .. } | Command::Sets { .. } => false,
    }
}

/// The status of a command's output, by the status without what is left out of its rulesets.
fn with_left_out(command: Command<'_>, leaves_sets_out: bool, status: u8) -> u8
    ensures { result ≡ status_with_left_out (is_counting (plain command.entry) && leaves_sets_out) status }
{
    let counts = counts_left_out(command);
    if counts && leaves_sets_out && status == 0 {
        1
    } else {
        status
    }
}

/// Reads the files of a command, and writes the note on what isn't kept of those that are rulesets. That is put into
/// `skipped`.
fn read_work<'a, F: Shelf, N: Notes>(
    alloc: Global,
    shelf: &mut F,
    notes: &mut N,
    rulesets: Rulesets<'_>,
    skipped: &mut Skips,
    script_text: &mut Vec<u8>,
    command: Command<'a>,
) -> Result<Work<'a>, FileFault<'a>>
    requires nothing { F.asked shelf.old ≡ [] }
    requires fresh { KeepsAll skipped.old }
    requires is_command { (words : List (List ℕ)) × IsCommand words (plain command) }
    ensures work { IfOk result (IsWork (seen (ruleset_names rulesets.entry) (F.told shelf.old)) (plain command.entry)) }
    ensures doable { IfOk result IsDoable }
    ensures all { OnOk result (HasRead (record { told = seen (ruleset_names rulesets.entry) (F.told shelf.old); asked = F.asked shelf.new; faults_before = F.faults shelf.old; faults_now = F.faults shelf.new; picked_before = F.is_picked shelf.old; picked_now = F.is_picked shelf.new; left = F.left shelf.new }) (plain command.entry)) }
    ensures stops { IfErr result (StopsTelling (record { told = seen (ruleset_names rulesets.entry) (F.told shelf.old); asked = F.asked shelf.new; faults_before = F.faults shelf.old; faults_now = F.faults shelf.new; picked_before = F.is_picked shelf.old; picked_now = F.is_picked shelf.new; left = F.left shelf.new }) (plain command.entry) (N.told notes.old) (N.told notes.new)) }
    ensures skips { OnOk result (TellsSkips (F.told shelf.old) (ruleset_names rulesets.entry) (F.asked shelf.new) (N.told notes.old) (N.told notes.new) skipped.new.leaves_sets_out) }
{
    match work_of(alloc, shelf, notes, rulesets, skipped, script_text, command) {
        Ok(work) => {
            tell_lines(notes, &skipped.lines);
            Ok(work)
        }
        Err(fault) => Err(fault),
    }
}

/// Does what a command asks for, writes its output or its line, writes the note for a person, and returns the
/// status.
fn do_command<'a, R: Threads + Wait + Sync, F: Shelf, K: Sink, N: Notes, G: Gate>(
    rt: &R,
    alloc: Global,
    forms: Forms,
    command: Command<'a>,
    shelf: &mut F,
    sink: &mut K,
    notes: &mut N,
    gate: &G,
) -> u8
    requires nothing { F.asked shelf.old ≡ [] }
    requires is_command { (words : List (List ℕ)) × IsCommand words (plain command) }
    ensures { (words : List (List ℕ)) → IsCommand words (plain command.entry) → InForm forms.scripts (record { words = words; answer = forms.answer; shelf = record { told = F.told shelf.old; asked = F.asked shelf.new; faults_before = F.faults shelf.old; faults_now = F.faults shelf.new; picked_before = F.is_picked shelf.old; picked_now = F.is_picked shelf.new; left = F.left shelf.new }; taken_before = K.taken sink.old; taken_now = K.taken sink.new; faults_before = K.faults sink.old; faults_now = K.faults sink.new; noted_before = N.told notes.old; noted_now = N.told notes.new; status = result }) Goes }
{
    let mut script_text = Vec::new(alloc);
    let mut skipped = Skips::new(alloc);
    let rulesets = rulesets_of(forms.scripts, command);
    match read_work(
        alloc,
        shelf,
        notes,
        rulesets,
        &mut skipped,
        &mut script_text,
        command,
    ) {
        Ok(
            Work::Sets {
                file,
                whole,
                sieved,
            },
        ) => deliver_sets(alloc, sink, notes, file, whole.as_slice(), &sieved),
        Ok(work) => match tell_unmet(alloc, notes, &work) {
            Ok(()) => match overfull(command, &work) {
                Some((name, sections)) => {
                    let _ = tell_too_many(alloc, notes, name, sections);
                    tell(sink, Fault::TooManyClerks(name))
                }
                None => match output_of(rt, alloc, work, forms.answer, gate) {
                    Ok(output) => {
                        let status = deliver(
                            sink,
                            done_status(output.refused),
                            output.text.as_slice(),
                        );
                        let _ = tell_refusals(
                            alloc,
                            notes,
                            command,
                            script_text.as_slice(),
                            &output,
                        );
                        with_left_out(command, skipped.leaves_sets_out, status)
                    }
                    Err(error) => {
                        let _ = tell_error(alloc, notes, command, &error, &skipped);
                        tell(sink, answer_fault(&error))
                    }
                },
            },
            Err(_) => tell(sink, Fault::Memory),
        },
        Err(fault) => tell(sink, Fault::File(fault)),
    }
}

/// Carries out words that ask for no page, and returns the status.
fn carry_out_command<R: Threads + Wait + Sync, F: Shelf, K: Sink, N: Notes, G: Gate>(
    rt: &R,
    alloc: Global,
    words: &[String],
    forms: Forms,
    shelf: &mut F,
    sink: &mut K,
    notes: &mut N,
    gate: &G,
) -> u8
    requires nothing { F.asked shelf.old ≡ [] }
    requires no_page { (p : _) → AsksFor (map string_bytes words.now) p → ⊥ }
    ensures { InForm forms.scripts (record { words = map string_bytes words.now; answer = forms.answer; shelf = record { told = F.told shelf.old; asked = F.asked shelf.new; faults_before = F.faults shelf.old; faults_now = F.faults shelf.new; picked_before = F.is_picked shelf.old; picked_now = F.is_picked shelf.new; left = F.left shelf.new }; taken_before = K.taken sink.old; taken_now = K.taken sink.new; faults_before = K.faults sink.old; faults_now = K.faults sink.new; noted_before = N.told notes.old; noted_now = N.told notes.new; status = result }) Goes }
{
    match command_of(alloc, words) {
        Ok(command) => do_command(rt, alloc, forms, command, shelf, sink, notes, gate),
        Err(WordsError::NoCommand) => {
            let status = tell(sink, Fault::Usage);
            let _ = tell_words(alloc, notes, words);
            status
        }
        Err(WordsError::Memory) => tell(sink, Fault::Memory),
    }
}

/// Carries out the words, and returns the status.
fn carry_out<R: Threads + Wait + Sync, F: Shelf, K: Sink, N: Notes, G: Gate>(
    rt: &R,
    alloc: Global,
    words: &[String],
    forms: Forms,
    shelf: &mut F,
    sink: &mut K,
    notes: &mut N,
    gate: &G,
) -> u8
    requires { F.asked shelf.old ≡ [] }
    ensures { InForm forms.scripts (record { words = map string_bytes words.now; answer = forms.answer; shelf = record { told = F.told shelf.old; asked = F.asked shelf.new; faults_before = F.faults shelf.old; faults_now = F.faults shelf.new; picked_before = F.is_picked shelf.old; picked_now = F.is_picked shelf.new; left = F.left shelf.new }; taken_before = K.taken sink.old; taken_now = K.taken sink.new; faults_before = K.faults sink.old; faults_now = K.faults sink.new; noted_before = N.told notes.old; noted_now = N.told notes.new; status = result }) Goes }
{
    match page_of(words) {
        Some(page) => deliver_page(sink, page),
        None => carry_out_command(rt, alloc, words, forms, shelf, sink, notes, gate),
    }
}

/// The command `pipapo`. Its words are one of these, the options in any order among the names:
///
/// - `run SCRIPT KEYS [--threads N] [--keep-going]` runs a script while N packet threads look up the packets
///   of a key file, and writes the transcript. N is 1 to 16, and 1 without the option.
/// - `list SCRIPT [--keep-going]` runs a script, and lists its last generation as a script.
/// - `dump SCRIPT [--keep-going]` runs a script, and writes the tables of its last generation.
/// - `drill SEED COUNT [--threads N]` runs a script of COUNT elements beside as many packets, all drawn from
///   SEED. It writes a summary of one line.
/// - `judge SCRIPT RULES KEYS [--threads N] [--keep-going]` runs a script while the chains of a rules file
///   decide on the packets of a key file. It writes the transcript with the deciding rules.
/// - `judge SCRIPT RULES PLAN PCAP [--threads N] [--keep-going]` does the same for the packets that a plan takes
///   from a capture.
/// - `capture SCRIPT PLAN PCAP [--threads N] [--keep-going]` runs a script beside the packets that a plan
///   takes from a capture, and writes the transcript.
/// - `desk SCRIPT [--keep-going]` runs the first section of a script, and then each of the others by a
///   control thread of its own. It writes the reports of all transactions in their order, and the last
///   generation.
/// - `get [--at MOMENT] [--keep-going] SCRIPT [FAMILY] TABLE SET VALUE . VALUE ..` runs a script, and writes the element of
///   the last generation that holds the key, with the line that added it, or `none`. Its options come in either order.
/// - `explain SCRIPT KEYS [--keep-going]` runs a script, and explains the answer to each packet of a key file. It writes the elements
///   that hold the key, with the lines that added them. If there are none, it writes how many elements hold each of its values.
/// - `compare SCRIPT1 SCRIPT2 [--keep-going]` runs two scripts, and writes for each set whether both decide alike on every
///   key, with the least key on which they don't.
/// - `stat SCRIPT [--keep-going]` runs a script, and writes how many elements its last generation has, when they expire, and how
///   large their tables are.
///
/// - `sets RULESET` writes the sets of a ruleset as a script. `notes` gets a note on what isn't kept.
///
/// `--threads=N` means `--threads N`, and `--at=MOMENT` means `--at MOMENT`.
///
/// If the form of the scripts is that of rulesets, each script of these words is a ruleset. What is kept of it is the script, and
/// `notes` first gets a note on the rest. If the form of the answer has elements, the line of a packet in a `run` or a `capture` has
/// the element that was found, and the line of the script that added it. If it is JSON, a `list` writes JSON.
///
/// Of a `judge`, `notes` then gets the lines on the tests of the rules file that no packet can meet. If memory runs out
/// for them, the status is 7.
///
/// `help`, `--help` or `-h` alone asks for help, and so do `help` before the word of a command and `--help` or
/// `-h` after it. `--version` or `-V` alone asks for the version. Then the page is written, the status is 0, and
/// no file is asked for.
///
/// With `--keep-going` a refused change is skipped, and doesn't fail its transaction. If the words, a file or
/// its reading is at fault, one line is written in place of the output. If the words, a file or a key are at fault or
/// a change was refused, `notes` gets a note for a person, unless memory runs out for it. Neither status nor
/// output depends on that. The `gate` learns of each section, step, lookup and commit, which the program shows as
/// its progress. The status is:
///
/// - 0: the whole output was written, and reports no refusal;
/// - 1: the whole output was written. A change was refused, a `get` or an `explain` found no element for a key, the scripts of a
///   `compare` don't have the same sets, or a `compare` or `sets` left a set of a ruleset out;
/// - 2: the words are no command, and the usage line was written;
/// - 3, 4, 9, 11: the script or the sets of a ruleset, the key file, the rules file, the plan isn't in its grammar;
/// - 5: a file couldn't be opened or read;
/// - 6: the sink failed, after a front of what was to be written;
/// - 7: memory ran out, and nothing was written;
/// - 8: a file has more than 67,108,864 bytes;
/// - 10: the capture is outside its form;
/// - 12: the script of a desk has more than 17 sections;
/// - 13: the words of a `get` are no key.
pub fn pipapo<R: Threads + Wait + Sync, F: Shelf, K: Sink, N: Notes, G: Gate>(
    rt: &R,
    alloc: Global,
    words: &[String],
    forms: Forms,
    shelf: &mut F,
    sink: &mut K,
    notes: &mut N,
    gate: &G,
) -> u8
    requires { F.asked shelf.old ≡ [] }

    // The record `Call` is what the outside shows of this call. `Promises` has the promises on it, one clause
    // each. `InForm` says what they are about if the scripts are rulesets.
    ensures { InForm forms.scripts (record { words = map string_bytes words.now; answer = forms.answer; shelf = record { told = F.told shelf.old; asked = F.asked shelf.new; faults_before = F.faults shelf.old; faults_now = F.faults shelf.new; picked_before = F.is_picked shelf.old; picked_now = F.is_picked shelf.new; left = F.left shelf.new }; taken_before = K.taken sink.old; taken_now = K.taken sink.new; faults_before = K.faults sink.old; faults_now = K.faults sink.new; noted_before = N.told notes.old; noted_now = N.told notes.new; status = result }) Promises }
{
    carry_out(rt, alloc, words, forms, shelf, sink, notes, gate)
}
