ghost use Rattle.std.specs.Prelude.{◌≡◌, ◌<◌, ◌≤◌, length, OnOk};
ghost use Rattle.token_forms.specs.Gives.{Gives};
ghost use Rattle.token_forms.specs.Words.{any_word};
ghost use Rattle.token_forms.specs.Reading.{begins_with};
ghost use Rattle.set_script.specs.Limits.{most_sets};
ghost use Rattle.key_file.specs.KeysReading as reading;
ghost use Rattle.key_file.specs.KeyNames.{key_word_of, at_of};
ghost use Rattle.key_file.specs.Keys.{next_section};

use crate::draft::{AtWord, KeyDraft, KeyWord};
use crate::packets::{packet, packet_at};
use set_model::{Family, Listed, Memory, SetDecl};
use set_script::{place_of_set, read_family, read_moment};
use std::alloc::Global;
use token_forms::{ReadError, Reader, Reason};

fn read_key_word(text: &[u8]) -> KeyWord
    ensures { result ≡ key_word_of text.now }
{
    match read_family(text) {
        Some(family) => KeyWord::Family(family),
        None => {
            if text == b"at".as_slice() {
                KeyWord::At
            } else if text == b"round".as_slice() {
                KeyWord::Round
            } else {
                KeyWord::Table
            }
        }
    }
}

fn read_at_word(schema: &[SetDecl], text: &[u8]) -> Option<AtWord>
    requires { length schema.now ≤ most_sets }
    ensures { result ≡ at_of schema.now text.now }
{
    match read_moment(0, text) {
        Some(moment) => Some(AtWord::Moment(moment)),
        None => match place_of_set(schema, Family::Ip, b"at", text) {
            Some(set) => Some(AtWord::Set(set)),
            None => None,
        },
    }
}

/// A moment, or the name of a set of the table `at`.
#[tactic(auto, unfolding(token_forms::specs::Gives::Refuses))]
fn at_word(reader: &mut Reader, schema: &[SetDecl]) -> Result<AtWord, ReadError>
    requires { length schema.now ≤ most_sets }
    ensures { Gives (λ x. x) result reader.new (reading.at_word schema.now reader.old) }
{
    let t = reader.next()?;
    match read_at_word(schema, t.bytes) {
        Some(word) if t.is_word() => Ok(word),
        _ => Err(t.refused(&[Reason::Moment, Reason::Set])),
    }
}

#[tactic(auto, using(token_forms::proofs::Refusals::refusals), unfolding(crate::specs::KeysReading::at_behind))]
fn at_behind(
    reader: &mut Reader,
    alloc: Global,
    schema: &[SetDecl],
    d: &mut KeyDraft,
    word: AtWord,
) -> Result<(), ReadError>
    requires { length schema.now ≤ most_sets }
    ensures { Gives (λ _. d.new) result reader.new (reading.at_behind schema.now d.old word reader.old) }
{
    match word {
        AtWord::Moment(moment) => {
            d.moment = moment;
            Ok(())
        }
        AtWord::Set(set) => packet_at(reader, alloc, schema, d, set),
    }
}

/// Ends the section, and begins the next one. The moment stays the same.
pub fn begin_section(alloc: Global, d: &mut KeyDraft) -> Result<(), Memory>
    ensures { OnOk result (d.new ≡ next_section d.old) }
{
    let packets = std::mem::replace(&mut d.packets, Listed::new(alloc));
    d.sections.push(packets)
}

fn is_at_word(reader: &Reader) -> bool
    ensures { result ≡ begins_with any_word reader.now }
{
    match reader.peek() {
        Some(t) => t.is_word(),
        None => false,
    }
}

/// Reads a packet of a set of the table `round`. If no set's name follows, the next section begins.
#[tactic(auto, using(token_forms::proofs::Refusals::refusals), unfolding(crate::specs::KeysReading::round_behind))]
fn round_behind(
    reader: &mut Reader,
    alloc: Global,
    schema: &[SetDecl],
    d: &mut KeyDraft,
    table: &[u8],
) -> Result<(), ReadError>
    requires { length schema.now ≤ most_sets }
    ensures { Gives (λ _. d.new) result reader.new (reading.round_behind schema.now d.old table.now reader.old) }
{
    if is_at_word(reader) {
        packet(reader, alloc, schema, d, Family::Ip, table)
    } else {
        begin_section(alloc, d)?;
        Ok(())
    }
}

/// Reads the rest of a line after its first word.
#[tactic(auto, using(token_forms::proofs::Refusals::refusals), unfolding(crate::specs::KeysReading::line_behind))]
fn line_behind(
    reader: &mut Reader,
    alloc: Global,
    schema: &[SetDecl],
    d: &mut KeyDraft,
    first: &[u8],
    word: KeyWord,
) -> Result<(), ReadError>
    requires { length schema.now ≤ most_sets }
    ensures { Gives (λ _. d.new) result reader.new (reading.line_behind schema.now d.old first.now word reader.old) }
{
    match word {
        KeyWord::Family(family) => {
            let table = reader.name()?;
            packet(reader, alloc, schema, d, family, table)
        }
        KeyWord::At => {
            let word = at_word(reader, schema)?;
            at_behind(reader, alloc, schema, d, word)
        }
        KeyWord::Round => round_behind(reader, alloc, schema, d, first),
        KeyWord::Table => packet(reader, alloc, schema, d, Family::Ip, first),
    }
}

#[tactic(auto, using(token_forms::proofs::Refusals::refusals), unfolding(crate::specs::KeysReading::key_line))]
fn key_line(
    reader: &mut Reader,
    alloc: Global,
    schema: &[SetDecl],
    d: &mut KeyDraft,
) -> Result<(), ReadError>
    requires { length schema.now ≤ most_sets }
    ensures { Gives (λ _. d.new) result reader.new (reading.key_line schema.now d.old reader.old) }
{
    let first = reader.name()?;
    line_behind(reader, alloc, schema, d, first, read_key_word(first))
}

/// A line break, or a line if one may come next.
#[tactic(auto, using(token_forms::proofs::Refusals::refusals))]
fn line_or_break(
    reader: &mut Reader,
    alloc: Global,
    schema: &[SetDecl],
    d: &mut KeyDraft,
    next: bool,
) -> Result<bool, ReadError>
    requires { length schema.now ≤ most_sets }
    ensures { Gives (λ x. (d.new, x)) result reader.new (reading.line_or_break schema.now (d.old, next) reader.old) }
{
    if next && !reader.is_at_break() {
        key_line(reader, alloc, schema, d)?;
        Ok(false)
    } else {
        reader.line_break()?;
        Ok(true)
    }
}

fn next_line(
    reader: &mut Reader,
    alloc: Global,
    schema: &[SetDecl],
    d: &mut KeyDraft,
    next: bool,
) -> Result<bool, ReadError>
    requires { length schema.now ≤ most_sets }
    ensures gives { Gives (λ x. (d.new, x)) result reader.new (reading.line_or_break schema.now (d.old, next) reader.old) }
    ensures shorter { OnOk result (length reader.new < length reader.old) }
{
    line_or_break(reader, alloc, schema, d, next)
}

/// Reads lines as long as one starts. Returns also whether one more may come next.
pub fn key_lines(
    reader: &mut Reader,
    alloc: Global,
    schema: &[SetDecl],
) -> Result<(KeyDraft, bool), ReadError>
    requires { length schema.now ≤ most_sets }
    ensures { Gives (λ x. (x.0, x.1)) result reader.new (reading.key_lines schema.now reader.old) }
{
    let mut d = KeyDraft {
        sections: Listed::new(alloc),
        packets: Listed::new(alloc),
        moment: 0,
    };
    let mut next = true;
    'lines: while let Some(t) = reader.peek() {
        let starts = t.starts_line_or_break(next);
        if !starts {
            return Ok((d, next));
        }
        match next_line(reader, alloc, schema, &mut d, next) {
            Ok(then) => next = then,
            Err(e) => return Err(e),
        }
    }
    Ok((d, next))
}
