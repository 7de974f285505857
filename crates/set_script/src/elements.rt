ghost use Rattle.std.specs.Prelude.{◌≡◌, ◌+◌, ◌<◌, ◌≤◌, List, length, true, OnOk, IfOk, IfSome};
ghost use Rattle.set_model.specs.declared.script.Step.{Step};
ghost use Rattle.token_forms.specs.Gives.{Gives};
ghost use Rattle.token_forms.specs.View.{lexeme_of};
ghost use Rattle.addr_text.specs.Times.{longest_time};
ghost use Rattle.set_script.specs.Limits.{last_moment, HasShortTimeout};
ghost use Rattle.set_script.specs.ScriptReading as reading;
ghost use Rattle.set_script.specs.ScriptReading.{starts_element, starts_option};
ghost use Rattle.set_script.specs.Changes.{no_options, life_expiry, life, expiry, comment_of, adds, change};
ghost use Rattle.set_script.specs.declared.draft.Options.{Options as Chosen};

use crate::clock::Time;
use crate::draft::{Options, Target};
use crate::parts::all_parts;
use crate::values;
use crate::words::{OptionWord, option_word_of};
use set_model::{Comment, Memory, NewElement, Parts, SetDecl, Step, Steps, Verb};
use std::alloc::Global;
use token_forms::{ReadError, Reader, Seen};

#[tactic(auto, unfolding(token_forms::specs::Gives::Refuses))]
fn option_word(reader: &mut Reader, timed: bool, o: &Options) -> Result<OptionWord, ReadError>
    ensures { Gives (λ x. x) result reader.new (reading.option_word timed o.now reader.old) }
{
    let t = reader.next()?;
    match option_word_of(timed, o, t.bytes) {
        Some(word) if t.is_word() => Ok(word),
        _ => Err(t.refused(&[])),
    }
}

fn comment_from(alloc: Global, text: &[u8]) -> Result<Comment, Memory>
    ensures { IfOk result (λ comment. comment ≡ text.now) }
{
    Ok(Comment::from_vec(alloc, Vec::from_slice(alloc, text)?))
}

#[tactic(auto, using(token_forms::proofs::Refusals::refusals), unfolding(crate::specs::ScriptReading::option_behind))]
fn option_behind(
    reader: &mut Reader,
    alloc: Global,
    word: OptionWord,
    o: &mut Options,
) -> Result<(), ReadError>
    ensures { Gives (λ _. o.new) result reader.new (reading.option_behind o.old word reader.old) }
{
    match word {
        OptionWord::Timeout => {
            reader.breaks();
            let life = values::life(reader)?;
            o.timeout = Some(life);
            Ok(())
        }
        OptionWord::Expires => {
            reader.breaks();
            let time = values::time(reader)?;
            o.expires = Some(time);
            Ok(())
        }
        OptionWord::Comment => {
            reader.breaks();
            let text = reader.text()?;
            o.comment = Some(comment_from(alloc, text)?);
            Ok(())
        }
    }
}

#[tactic(auto, using(token_forms::proofs::Refusals::refusals), unfolding(crate::specs::ScriptReading::option))]
fn option(reader: &mut Reader, alloc: Global, timed: bool, o: &mut Options) -> Result<(), ReadError>
    ensures { Gives (λ _. o.new) result reader.new (reading.option timed o.old reader.old) }
{
    let word = option_word(reader, timed, o)?;
    option_behind(reader, alloc, word, o)
}

/// An option, or a break.
#[tactic(auto, using(token_forms::proofs::Refusals::refusals), unfolding(crate::specs::ScriptReading::option_or_break))]
fn option_or_break(
    reader: &mut Reader,
    alloc: Global,
    timed: bool,
    o: &mut Options,
) -> Result<(), ReadError>
    ensures { Gives (λ _. o.new) result reader.new (reading.option_or_break timed o.old reader.old) }
{
    match reader.peek() {
        Some(t) if t.is_break() => {
            reader.take();
            Ok(())
        }
        _ => option(reader, alloc, timed, o),
    }
}

fn next_option(
    reader: &mut Reader,
    alloc: Global,
    timed: bool,
    o: &mut Options,
) -> Result<(), ReadError>
    ensures gives { Gives (λ _. o.new) result reader.new (reading.option_or_break timed o.old reader.old) }
    ensures shorter { OnOk result (length reader.new < length reader.old) }
{
    option_or_break(reader, alloc, timed, o)
}

fn starts_an_option(t: &Seen) -> bool
    ensures { (o : Chosen) → result ≡ starts_option o (lexeme_of t.now) }
{
    t.is_break() || t.is_word()
}

/// The options after an element's intervals.
fn all_options(reader: &mut Reader, alloc: Global, timed: bool) -> Result<Options, ReadError>
    ensures { Gives (λ o. o) result reader.new (reading.all_options timed reader.old) }
{
    let mut o = Options {
        timeout: None,
        expires: None,
        comment: None,
    };
    'options: while let Some(t) = reader.peek() {
        let starts = starts_an_option(&t);
        if !starts {
            return Ok(o);
        }
        match next_option(reader, alloc, timed, &mut o) {
            Ok(()) => {}
            Err(e) => return Err(e),
        }
    }
    Ok(o)
}

/// The moment `time` milliseconds after another.
fn later(now: u64, time: u64) -> u64
    requires now { now ≤ last_moment }
    requires time { time ≤ longest_time }
    ensures { result ≡ now + time }
{
    now + time
}

fn expiry_by_life(now: u64, life: Option<u64>) -> Option<u64>
    requires now { now ≤ last_moment }
    requires life { IfSome life (λ time. time ≤ longest_time) }
    ensures { result ≡ life_expiry now life }
{
    match life {
        Some(time) if 0 < time => Some(later(now, time)),
        _ => None,
    }
}

fn life_of(default: Option<u64>, own: Option<Time>) -> Option<u64>
    requires { IfSome default (λ time. time ≤ longest_time) }
    ensures life { result ≡ life default own }
    ensures within { IfSome result (λ time. time ≤ longest_time) }
{
    match own {
        Some(time) => Some(time.ms()),
        None => default,
    }
}

/// The expiry of an added element, by its options and its set's timeout.
fn expiry_of(now: u64, default: Option<u64>, o: &Options) -> Option<u64>
    requires now { now ≤ last_moment }
    requires default { IfSome default (λ time. time ≤ longest_time) }
    ensures { result ≡ expiry now default o.now }
{
    match o.expires {
        Some(time) => Some(later(now, time.ms())),
        None => expiry_by_life(now, life_of(default, o.timeout)),
    }
}

fn is_addition(verb: Verb) -> bool
    ensures { result ≡ adds verb }
{
    match verb {
        Verb::Add | Verb::Create => true,
        Verb::Delete | Verb::Destroy => false,
    }
}

fn own_comment(alloc: Global, comment: Option<Comment>) -> Comment
    ensures { result ≡ comment_of comment }
{
    match comment {
        Some(comment) => comment,
        None => Comment::new(alloc),
    }
}

/// The change of an element.
fn change_of(
    alloc: Global,
    target: &Target,
    decl: &SetDecl,
    line: u64,
    parts: Parts,
    o: Options,
) -> Step
    requires { HasShortTimeout decl.now }
    ensures { result ≡ change target.entry.now decl.now line parts o }
{
    let adds = is_addition(target.verb);
    let expiry = if adds {
        expiry_of(target.now.ms(), decl.timeout, &o)
    } else {
        None
    };
    let comment = if adds {
        own_comment(alloc, o.comment)
    } else {
        Comment::new(alloc)
    };
    Step::Change {
        line,
        set: target.set,
        verb: target.verb,
        element: NewElement {
            parts,
            expiry,
            comment,
        },
        now: target.now.ms(),
    }
}

/// One more element.
#[tactic(auto, using(token_forms::proofs::Refusals::refusals), unfolding(crate::specs::ScriptReading::element))]
fn element(
    reader: &mut Reader,
    alloc: Global,
    target: &Target,
    decl: &SetDecl,
    steps: &mut Steps,
) -> Result<(), ReadError>
    requires { HasShortTimeout decl.now }
    ensures { Gives (λ _. steps.new) result reader.new (reading.element target.entry.now decl.now steps.old reader.old) }
{
    let (line, parts) = all_parts(reader, alloc, decl.interval, decl.kinds.as_slice())?;
    let o = all_options(reader, alloc, decl.timed)?;
    steps.push(change_of(alloc, target, decl, line, parts, o))?;
    Ok(())
}

/// An element if one may come next, or a `,`.
#[tactic(auto, using(token_forms::proofs::Refusals::refusals), unfolding(crate::specs::ScriptReading::list_item))]
fn list_item(
    reader: &mut Reader,
    alloc: Global,
    target: &Target,
    decl: &SetDecl,
    steps: &mut Steps,
    next: bool,
) -> Result<bool, ReadError>
    requires { HasShortTimeout decl.now }
    ensures { Gives (λ x. (steps.new, x)) result reader.new (reading.list_item target.entry.now decl.now (steps.old, next) reader.old) }
{
    if next {
        element(reader, alloc, target, decl, steps)?;
        Ok(false)
    } else {
        reader.mark(b',')?;
        reader.breaks();
        Ok(true)
    }
}

fn next_list_item(
    reader: &mut Reader,
    alloc: Global,
    target: &Target,
    decl: &SetDecl,
    steps: &mut Steps,
    next: bool,
) -> Result<bool, ReadError>
    requires { HasShortTimeout decl.now }
    ensures gives { Gives (λ x. (steps.new, x)) result reader.new (reading.list_item target.entry.now decl.now (steps.old, next) reader.old) }
    ensures shorter { OnOk result (length reader.new < length reader.old) }
{
    list_item(reader, alloc, target, decl, steps, next)
}

fn starts_a_list_item(t: &Seen, next: bool) -> bool
    ensures { (steps : List Step) → result ≡ starts_element (steps, next) (lexeme_of t.now) }
{
    if next { t.is_word() } else { t.is_mark(b',') }
}

fn list_items(
    reader: &mut Reader,
    alloc: Global,
    target: &Target,
    decl: &SetDecl,
    steps: &mut Steps,
) -> Result<bool, ReadError>
    requires { HasShortTimeout decl.now }
    ensures { Gives (λ x. (steps.new, x)) result reader.new (reading.list_items target.entry.now decl.now (steps.old, true) reader.old) }
{
    let mut next = true;
    'items: while let Some(t) = reader.peek() {
        let starts = starts_a_list_item(&t, next);
        if !starts {
            return Ok(next);
        }
        match next_list_item(reader, alloc, target, decl, steps, next) {
            Ok(then) => next = then,
            Err(e) => return Err(e),
        }
    }
    Ok(next)
}

/// The elements of a list in braces, each one step. The set of the list is declared as `decl` says.
#[tactic(auto, using(token_forms::proofs::Refusals::refusals), unfolding(crate::specs::ScriptReading::list))]
pub fn list(
    reader: &mut Reader,
    alloc: Global,
    target: &Target,
    decl: &SetDecl,
    steps: &mut Steps,
) -> Result<(), ReadError>
    requires { HasShortTimeout decl.now }
    ensures { Gives (λ _. steps.new) result reader.new (reading.list target.entry.now decl.now steps.old reader.old) }
{
    reader.mark(b'{')?;
    reader.breaks();
    list_items(reader, alloc, target, decl, steps)?;
    reader.mark(b'}')?;
    Ok(())
}
