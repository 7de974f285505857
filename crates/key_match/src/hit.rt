//! What is written of a packet that an element answers.
ghost use Rattle.std.specs.Prelude.{◌≡◌, ◌++◌, ◌-◌, ◌+◌, ◌<◌, ◌^◌, true, All, IfOk, OnOk, if◌then◌else◌, [], length, take, drop, flat_map, nat_le, ◌&&◌};
ghost use Rattle.set_model.specs.Key.{parts_fit};
ghost use Rattle.set_model.specs.SetState.{answers as answers_key};
ghost use Rattle.key_match.specs.Holders.{holders};
ghost use Rattle.key_match.specs.Matched.{IsProper, plain, left_text, answer_line, also_line, others, more_line, hit_text};

use crate::asked::Asked;
use crate::holders::answers;
use crate::words::{write_front, write_named};
use element_text::{write_comment, write_line};
use set_model::{Element, Memory};
use text_pieces::Piece::{Number, Time, Word};
use text_pieces::append_pieces;

/// How many of the later elements that hold a key are named.
const MOST_NAMED: u64 = 8;

/// Appends the time until an expiry, if there is one, and ends the line.
fn write_left(now: u64, expiry: Option<u64>, out: &mut Vec<u8>) -> Result<(), Memory>
    ensures { OnOk result (out.new.items ≡ out.old.items ++ left_text now expiry) }
{
    match expiry {
        None => append_pieces(&[Word(b"\n")], out),
        Some(expiry) => append_pieces(
            &[
                Word(b", "),
                Time(expiry.saturating_sub(now)),
                Word(b" left\n"),
            ],
            out,
        ),
    }
}

/// Appends the line of the answer.
fn write_answer(asked: &Asked<'_>, element: &Element, out: &mut Vec<u8>) -> Result<(), Memory>
    requires { parts_fit asked.now.declared.now.kinds element.now.parts ≡ true }
    ensures { OnOk result (out.new.items ≡ out.old.items ++ answer_line (plain asked.now) element.now) }
{
    append_pieces(&[Word(b"    ")], out)?;
    write_front(asked.declared, element, out)?;
    write_comment(element.comment.as_slice(), out)?;
    write_line(asked.lines, element.id, out)?;
    write_left(asked.at, element.expiry, out)
}

/// Appends the line of a later element that holds the key.
fn write_also(asked: &Asked<'_>, element: &Element, out: &mut Vec<u8>) -> Result<(), Memory>
    requires { parts_fit asked.now.declared.now.kinds element.now.parts ≡ true }
    ensures { OnOk result (out.new.items ≡ out.old.items ++ also_line (plain asked.now) element.now) }
{
    append_pieces(&[Word(b"    also in ")], out)?;
    write_named(asked, element, out)?;
    append_pieces(&[Word(b"\n")], out)
}

/// Appends the line of an element that holds the key after so many others, if it is one of those that are named.
fn write_if_named(
    asked: &Asked<'_>,
    count: u64,
    element: &Element,
    out: &mut Vec<u8>,
) -> Result<(), Memory>
    requires { parts_fit asked.now.declared.now.kinds element.now.parts ≡ true }
    ensures { OnOk result (out.new.items ≡ out.old.items ++ (if nat_le 1 count && nat_le count 8 then also_line (plain asked.now) element.now else [])) }
{
    if 1 <= count && count <= MOST_NAMED {
        write_also(asked, element, out)
    } else {
        Ok(())
    }
}

/// Appends the line of an element, if it holds the key and is one of those that are named. Returns how many hold the key with it.
fn write_next(
    asked: &Asked<'_>,
    count: u64,
    element: &Element,
    out: &mut Vec<u8>,
) -> Result<u64, Memory>
    requires few { count < 2 ^ 64 - 1 }
    requires fits { parts_fit asked.now.declared.now.kinds element.now.parts ≡ true }
    ensures text { OnOk result (out.new.items ≡ out.old.items ++ (if answers_key asked.now.key.now asked.now.at element.now then (if nat_le 1 count && nat_le count 8 then also_line (plain asked.now) element.now else []) else [])) }
    ensures count { IfOk result (λ n. n ≡ if answers_key asked.now.key.now asked.now.at element.now then count + 1 else count) }
{
    if answers(element, asked.key, asked.at) {
        write_if_named(asked, count, element, out)?;
        Ok(count + 1)
    } else {
        Ok(count)
    }
}

/// Appends the lines of the first later elements that hold the key. Returns how many hold it, with the answer.
fn write_others(asked: &Asked<'_>, out: &mut Vec<u8>) -> Result<u64, Memory>
    requires { IsProper (plain asked.now) }
    ensures text { OnOk result (out.new.items ≡ out.old.items ++ flat_map (also_line (plain asked.now)) (take 8 (others (plain asked.now)))) }
    ensures count { IfOk result (λ n. n ≡ length (holders asked.now.key.now asked.now.at asked.now.elements.now)) }
{
    let mut count = 0;
    'elements: for i in 0..asked.elements.len() {
        count = write_next(asked, count, asked.elements.at(i), out)?;
    }
    Ok(count)
}

/// Appends how many more elements hold the key, if there are more.
fn write_more(more: u64, out: &mut Vec<u8>) -> Result<(), Memory>
    ensures { OnOk result (out.new.items ≡ out.old.items ++ more_line more) }
{
    if more == 0 {
        return Ok(());
    }
    append_pieces(&[Word(b"    and "), Number(more), Word(b" more\n")], out)
}

/// Appends the answer, and the later elements that hold the key.
///
/// # Errors
///
/// `Memory` if memory runs out.
pub(crate) fn write_hit(
    asked: &Asked<'_>,
    element: &Element,
    out: &mut Vec<u8>,
) -> Result<(), Memory>
    requires proper { IsProper (plain asked.now) }
    requires fits { parts_fit asked.now.declared.now.kinds element.now.parts ≡ true }
    ensures { OnOk result (out.new.items ≡ out.old.items ++ hit_text (plain asked.now) element.now) }
{
    write_answer(asked, element, out)?;
    let count = write_others(asked, out)?;
    write_more(count.saturating_sub(MOST_NAMED + 1), out)
}
