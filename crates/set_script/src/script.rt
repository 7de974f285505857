ghost use Rattle.std.specs.Prelude.{◌≡◌, ◌<◌, List, ℕ, length, All, OnOk, IfOk, Err};
ghost use Rattle.token_forms.specs.Gives.{Gives, IsReadAs};
ghost use Rattle.token_forms.specs.TextTokens.{text_tokens};
ghost use Rattle.token_forms.specs.Faults.{IsFault};
ghost use Rattle.token_forms.specs.Fronts.{AreFrontsClosed, IsRefusedOnce};
ghost use Rattle.token_forms.specs.BadTokens.{HasOneBadToken, IsBadTokenOf};
ghost use Rattle.token_forms.specs.declared.token.Reason.{Reason};
ghost use Rattle.token_forms.specs.declared.error.ReadError.TheVariants.{Bad};
ghost use Rattle.set_model.specs.declared.script.Script.{Script};
ghost use Rattle.set_script.specs.Limits.{HasShortTimeout};
ghost use Rattle.set_script.specs.ScriptReading as reading;
ghost use Rattle.set_script.specs.Script.{script};
ghost use Rattle.set_script.specs.ScriptText.{IsScriptText};
ghost use Rattle.set_model.specs.Runnable.{IsRunnable};

use crate::draft::{Draft, Target};
use crate::elements::list;
use crate::place::{table_place, used_set};
use crate::sets::{new_set, set_body, table_block};
use crate::values;
use crate::words::{AddWord, FirstWord, FlushWord, add_word_of, first_word_of, flush_word_of};
use set_model::{Memory, Script, SetDecl, Step, Steps, Verb};
use std::alloc::Global;
use token_forms::{BadToken, ReadError, Reader, bad_token_before};

/// Why a text wasn't read as a script.
pub type ScriptError = ReadError;

#[tactic(auto, unfolding(token_forms::specs::Gives::Refuses))]
fn add_word(reader: &mut Reader) -> Result<AddWord, ReadError>
    ensures { Gives (λ x. x) result reader.new (reading.add_word reader.old) }
{
    let t = reader.next()?;
    match add_word_of(t.bytes) {
        Some(word) if t.is_word() => Ok(word),
        _ => Err(t.refused(&[])),
    }
}

/// The steps of a list, for the declared set at a place.
#[tactic(auto, unfolding(crate::specs::ScriptReading::list_of, token_forms::specs::Gives::Refuses))]
fn list_at(
    reader: &mut Reader,
    alloc: Global,
    target: &Target,
    schema: &[SetDecl],
    steps: &mut Steps,
) -> Result<(), ReadError>
    requires { All HasShortTimeout schema.now }
    ensures { Gives (λ _. steps.new) result reader.new (reading.list_at target.entry.now schema.now steps.old reader.old) }
{
    match schema.get(target.set as usize) {
        None => Err(reader.refuse()),
        Some(decl) => list(reader, alloc, target, decl, steps),
    }
}

/// Reads the name of a declared set and a list, and adds the list's changes.
#[tactic(auto, using(token_forms::proofs::Refusals::refusals), unfolding(crate::specs::ScriptReading::changes))]
fn changes(reader: &mut Reader, alloc: Global, d: &mut Draft, verb: Verb) -> Result<(), ReadError>
    ensures { Gives (λ _. d.new) result reader.new (reading.changes d.old verb reader.old) }
{
    let (family, table) = table_place(reader)?;
    let set = used_set(reader, d.schema.as_slice(), family, table)?;
    let target = Target {
        set,
        verb,
        now: d.moment,
    };
    list_at(reader, alloc, &target, d.schema.as_slice(), &mut d.steps)?;
    Ok(())
}

/// Reads the rest of a statement after `add` and the word that says what it adds.
#[tactic(auto, using(token_forms::proofs::Refusals::refusals), unfolding(crate::specs::ScriptReading::add_behind))]
fn add_behind(
    reader: &mut Reader,
    alloc: Global,
    d: &mut Draft,
    word: AddWord,
) -> Result<(), ReadError>
    ensures { Gives (λ _. d.new) result reader.new (reading.add_behind d.old word reader.old) }
{
    match word {
        AddWord::Table => {
            table_place(reader)?;
            Ok(())
        }
        AddWord::Set => {
            let (family, table) = table_place(reader)?;
            let name = new_set(reader, d, family, table)?;
            set_body(reader, alloc, d, family, table, name)
        }
        AddWord::Element => changes(reader, alloc, d, Verb::Add),
    }
}

/// The word `element`, and the changes of a list.
#[tactic(auto, using(token_forms::proofs::Refusals::refusals), unfolding(crate::specs::ScriptReading::element_changes))]
fn element_changes(
    reader: &mut Reader,
    alloc: Global,
    d: &mut Draft,
    verb: Verb,
) -> Result<(), ReadError>
    ensures { Gives (λ _. d.new) result reader.new (reading.element_changes d.old verb reader.old) }
{
    reader.word(b"element")?;
    changes(reader, alloc, d, verb)
}

#[tactic(auto, unfolding(token_forms::specs::Gives::Refuses))]
fn flush_word(reader: &mut Reader, begun: bool) -> Result<FlushWord, ReadError>
    ensures { Gives (λ x. x) result reader.new (reading.flush_word begun reader.old) }
{
    let t = reader.next()?;
    match flush_word_of(begun, t.bytes) {
        Some(word) if t.is_word() => Ok(word),
        _ => Err(t.refused(&[])),
    }
}

/// Reads the rest of a statement after `flush` and its object. The statement's first word is in this
/// line.
#[tactic(auto, using(token_forms::proofs::Refusals::refusals), unfolding(crate::specs::ScriptReading::flush_behind))]
fn flush_behind(
    reader: &mut Reader,
    d: &mut Draft,
    line: u64,
    word: FlushWord,
) -> Result<(), ReadError>
    ensures { Gives (λ _. d.new) result reader.new (reading.flush_behind line d.old word reader.old) }
{
    match word {
        FlushWord::Set => {
            let (family, table) = table_place(reader)?;
            let set = used_set(reader, d.schema.as_slice(), family, table)?;
            d.steps.push(Step::Flush {
                line,
                set,
                now: d.moment.ms(),
            })?;
            Ok(())
        }
        FlushWord::Ruleset => Ok(()),
    }
}

#[tactic(auto, using(token_forms::proofs::Refusals::refusals), unfolding(crate::specs::ScriptReading::statement_behind))]
fn statement_behind(
    reader: &mut Reader,
    alloc: Global,
    d: &mut Draft,
    line: u64,
    word: FirstWord,
) -> Result<(), ReadError>
    ensures { Gives (λ _. d.new) result reader.new (reading.statement_behind line d.old word reader.old) }
{
    match word {
        FirstWord::Add => {
            let word = add_word(reader)?;
            add_behind(reader, alloc, d, word)
        }
        FirstWord::Table => table_block(reader, alloc, d),
        FirstWord::Create => element_changes(reader, alloc, d, Verb::Create),
        FirstWord::Delete => element_changes(reader, alloc, d, Verb::Delete),
        FirstWord::Destroy => element_changes(reader, alloc, d, Verb::Destroy),
        FirstWord::Flush => {
            let word = flush_word(reader, d.begun)?;
            flush_behind(reader, d, line, word)
        }
        FirstWord::At => {
            d.moment = values::moment(reader, d.moment)?;
            Ok(())
        }
        FirstWord::Commit => Ok(d.commit()?),
        FirstWord::Abort => Ok(d.abort()?),
        FirstWord::Round => Ok(d.round(alloc)?),
    }
}

/// The first word of a statement, and its line.
#[tactic(auto, unfolding(token_forms::specs::Gives::Refuses))]
fn first_word(reader: &mut Reader) -> Result<(u64, FirstWord), ReadError>
    ensures { Gives (λ x. (x.0, x.1)) result reader.new (reading.first_word reader.old) }
{
    let t = reader.next()?;
    match first_word_of(t.bytes) {
        Some(word) if t.is_word() => Ok((t.line, word)),
        _ => Err(t.refused(&[])),
    }
}

#[tactic(auto, using(token_forms::proofs::Refusals::refusals), unfolding(crate::specs::ScriptReading::statement))]
fn statement(reader: &mut Reader, alloc: Global, d: &mut Draft) -> Result<(), ReadError>
    ensures { Gives (λ _. d.new) result reader.new (reading.statement d.old reader.old) }
{
    let (line, word) = first_word(reader)?;
    statement_behind(reader, alloc, d, line, word)?;
    d.begun = true;
    Ok(())
}

/// A separator, or a statement if one may come next.
#[tactic(auto, using(token_forms::proofs::Refusals::refusals))]
fn statement_line(
    reader: &mut Reader,
    alloc: Global,
    d: &mut Draft,
    next: bool,
) -> Result<bool, ReadError>
    ensures { Gives (λ x. (d.new, x)) result reader.new (reading.statement_line (d.old, next) reader.old) }
{
    if next && !reader.is_at_separator() {
        statement(reader, alloc, d)?;
        Ok(false)
    } else {
        reader.separator()?;
        Ok(true)
    }
}

fn next_statement_line(
    reader: &mut Reader,
    alloc: Global,
    d: &mut Draft,
    next: bool,
) -> Result<bool, ReadError>
    ensures gives { Gives (λ x. (d.new, x)) result reader.new (reading.statement_line (d.old, next) reader.old) }
    ensures shorter { OnOk result (length reader.new < length reader.old) }
{
    statement_line(reader, alloc, d, next)
}

/// Reads statements as long as one starts. Returns also whether one more may come next.
fn statements(reader: &mut Reader, alloc: Global) -> Result<(Draft, bool), ReadError>
    ensures { Gives (λ x. (x.0, x.1)) result reader.new (reading.statements reader.old) }
{
    let mut d = Draft::new(alloc);
    let mut next = true;
    'lines: while let Some(t) = reader.peek() {
        let starts = t.starts_statement_line(next);
        if !starts {
            return Ok((d, next));
        }
        match next_statement_line(reader, alloc, &mut d, next) {
            Ok(then) => next = then,
            Err(e) => return Err(e),
        }
    }
    Ok((d, next))
}

/// Reads all before the end of the text.
#[tactic(auto, using(token_forms::proofs::Refusals::refusals), unfolding(crate::specs::ScriptReading::body))]
fn body(reader: &mut Reader, alloc: Global) -> Result<Script, ReadError>
    ensures { Gives (λ x. x) result reader.new (reading.body reader.old) }
{
    let (d, _) = statements(reader, alloc)?;
    Ok(d.finish()?)
}

#[tactic(auto, using(token_forms::proofs::Refusals::refusals), unfolding(crate::specs::ScriptReading::script))]
fn whole(reader: &mut Reader, alloc: Global) -> Result<Script, ReadError>
    ensures { Gives (λ x. x) result reader.new (reading.script reader.old) }
{
    let s = body(reader, alloc)?;
    reader.the_end()?;
    Ok(s)
}

/// The script that a text means.
///
/// # Errors
///
/// `Bad` exactly if the text isn't in the grammar, with the line of its first token that doesn't fit
/// and the reason. `Memory` if memory runs out.
pub fn read_script(alloc: Global, text: &[u8]) -> Result<Script, ScriptError>
    // What is read is the script that the text means.
    ensures found { IfOk result (IsScriptText text.now) }
    // A text that means a script is read as that one, unless memory runs out. So it means at most one
    // script.
    ensures only { (s : Script) → IsScriptText text.now s → IsReadAs (λ x. x) result s }
    // A refused text means no script. The line is its bad token's, and the reason is the first that
    // applies.
    ensures bad { (line : ℕ) (reason : Reason) → result ≡ Err (Bad line reason) → IsFault script (text_tokens text.now) line reason }
    // The script can be run on the sets that it declares.
    ensures runnable { IfOk result IsRunnable }
{
    let mut reader = Reader::new(text);
    whole(&mut reader, alloc)
}

/// The bad token of a text, with its place and its reason; `None` exactly if the text is in the
/// grammar. `read_script` reports the line and the reason of the same token.
///
/// # Errors
///
/// `Memory` if memory runs out.
pub fn bad_token(alloc: Global, text: &[u8]) -> Result<Option<BadToken>, Memory>
    ensures { IfOk result (IsBadTokenOf script text.now) }
{
    let mut reader = Reader::new(text);
    match whole(&mut reader, alloc) {
        Ok(_) => return Ok(None),
        Err(ReadError::Memory) => return Err(Memory),
        Err(ReadError::Bad { reason, .. }) => {
            return Ok(bad_token_before(text, reader, reason));
        }
    }
}

/// A text means at most one script.
pub fn one_script_law(_text: &[u8])
    ensures { (s other : Script) → IsScriptText _text.now s → IsScriptText _text.now other → s ≡ other }
{}

/// The tokens before any place of a script's front are a front of a script, too.
pub fn script_fronts_law()
    ensures { AreFrontsClosed script }
{}

/// A text that is no script is refused at one line, for one reason, and for one token.
pub fn one_script_fault_law(_text: &[u8])
    ensures refused { IsRefusedOnce script (text_tokens _text.now) }
    ensures token { HasOneBadToken script _text.now }
{}
