ghost use Rattle.std.specs.Prelude.{◌≡◌, ◌++◌, count_by, OnOk, OnErr};
ghost use Rattle.std.specs.List.{sum_by};
ghost use Rattle.set_model.specs.Control.{is_refusal as refuses};
ghost use Rattle.set_report.specs.SummaryText.{element_count, is_match as matches_one, id_given as id_of, summary_text};
ghost use Rattle.text_pieces.specs.Appends.{AppendsPart};

use set_model::{Event, Events, Line, Lines, Memory, Verdict};
use set_space::{Generation, Sets};
use text_pieces::Piece::{Number, Sum, Word};
use text_pieces::append_pieces;

/// How many elements the sets have, all together.
fn count_elements(sets: &Sets) -> u128
    ensures { result ≡ element_count sets.now }
{
    let mut count = 0u128;
    'sets: for i in 0..sets.len() {
        count += u128::from(sets.at(i).len());
    }
    count
}

fn count_refusals(events: &[Event]) -> u64
    ensures { result ≡ count_by refuses events.now }
{
    events.iter().filter(|event| event.is_refusal()).count() as u64
}

fn is_match(verdict: Verdict) -> bool
    ensures { result ≡ matches_one verdict }
{
    match verdict {
        Verdict::None => false,
        Verdict::Element { .. } => true,
    }
}

fn count_matches(lines: &[Line]) -> u64
    ensures { result ≡ count_by (λ l. matches_one l.verdict) lines.now }
{
    lines.iter().filter(|line| is_match(line.verdict)).count() as u64
}

/// The id of the element, and 0 if there is none.
fn id_given(verdict: Verdict) -> u64
    ensures { result ≡ id_of verdict }
{
    match verdict {
        Verdict::None => 0,
        Verdict::Element { id } => id,
    }
}

/// The sum of the ids that packets got. A sum of fewer than 2 to the power 64 ids of 64 bits fits 128
/// bits.
fn sum_ids(lines: &[Line]) -> u128
    ensures { result ≡ sum_by (λ l. id_of l.verdict) lines.now }
{
    let mut sum = 0u128;
    'lines: for line in lines {
        sum += u128::from(id_given(line.verdict));
    }
    sum
}

/// Appends the summary of a run, by its events, its packets' lines and its last generation: `drill
/// elements 2 refused 0 generation 1 packets 2 matched 1 sum 1`. The sum is of the ids that packets
/// got.
///
/// # Errors
///
/// `Memory` if memory runs out. A front of the text is then appended.
pub fn write_summary(
    events: &Events,
    lines: &Lines,
    generation: &Generation,
    out: &mut Vec<u8>,
) -> Result<(), Memory>
    ensures ok { OnOk result (out.new.items ≡ out.old.items ++ summary_text events.now lines.now generation.now) }
    ensures err { OnErr result (AppendsPart out.old.items out.new.items (summary_text events.now lines.now generation.now)) }
{
    append_pieces(
        &[
            Word(b"drill elements "),
            Sum(count_elements(&generation.sets)),
            Word(b" refused "),
            Number(count_refusals(events.as_slice())),
            Word(b" generation "),
            Number(generation.number),
            Word(b" packets "),
            Number(lines.len()),
            Word(b" matched "),
            Number(count_matches(lines.as_slice())),
            Word(b" sum "),
            Sum(sum_ids(lines.as_slice())),
            Word(b"\n"),
        ],
        out,
    )
}
