ghost use Rattle.std.specs.Prelude.{◌≡◌, ◌<◌, ◌≤◌, List, length, nat_lt, ℕ, IfOk, OnOk, Err, All};
ghost use Rattle.token_forms.specs.Gives.{Gives, IsReadAs};
ghost use Rattle.token_forms.specs.TextTokens.{plain_tokens};
ghost use Rattle.token_forms.specs.Fronts.{AreFrontsClosed, IsRefusedOnce};
ghost use Rattle.token_forms.specs.BadTokens.{IsPlainBadTokenOf, HasOneBadTokenAmong};
ghost use Rattle.token_forms.specs.declared.token.Reason.{Reason};
ghost use Rattle.token_forms.specs.declared.error.ReadError.TheVariants.{Bad};
ghost use Rattle.set_script.specs.Limits.{most_sets};
ghost use Rattle.pcap_keys.specs.declared.selector.PlanLine.{PlanLine as Lined};
ghost use Rattle.pcap_keys.specs.PlansReading as reading;
ghost use Rattle.pcap_keys.specs.Plans.{most_lines, plan};
ghost use Rattle.pcap_keys.specs.PlansText.{IsPlanText, IsBadPlan};
ghost use Rattle.pcap_keys.specs.Fitting.{IsPlanned};

use crate::selector::{Plan, PlanLine, Selector, Selectors, read_selector};
use set_model::{Kind, Listed, Memory, Schema, SetDecl};
use set_script::{table_place, used_set};
use std::alloc::Global;
use token_forms::{BadToken, ReadError, Reader, Reason, plain_bad_token_before};

/// Why a text wasn't read as a plan.
pub type PlanError = ReadError;

/// How many lines a plan may have.
const MOST_LINES: u64 = 4;

#[tactic(auto, unfolding(token_forms::specs::Gives::Refuses))]
fn selector(reader: &mut Reader, kind: Kind) -> Result<Selector, ReadError>
    ensures { Gives (λ x. x) result reader.new (reading.selector kind reader.old) }
{
    let t = reader.next()?;
    match read_selector(kind, t.bytes) {
        Some(selector) if t.is_word() => Ok(selector),
        _ => Err(t.refused(&[Reason::TypeWord])),
    }
}

/// `.` and the next selector, for each of these kinds.
#[tactic(auto, using(token_forms::proofs::Refusals::refusals), unfolding(crate::specs::PlansReading::more_selectors))]
fn more_selectors(
    reader: &mut Reader,
    kinds: &[Kind],
    selectors: &mut Selectors,
) -> Result<(), ReadError>
    ensures { Gives (λ _. selectors.new) result reader.new (reading.more_selectors kinds.now selectors.old reader.old) }
{
    match kinds {
        [] => Ok(()),
        [kind, others @ ..] => {
            reader.word(b".")?;
            let next = selector(reader, *kind)?;
            selectors.push(next)?;
            more_selectors(reader, others, selectors)
        }
    }
}

#[tactic(auto, using(token_forms::proofs::Refusals::refusals))]
fn some_selectors(
    reader: &mut Reader,
    alloc: Global,
    kind: Kind,
    others: &[Kind],
) -> Result<Selectors, ReadError>
    ensures { Gives (λ x. x) result reader.new (reading.some_selectors kind others.now reader.old) }
{
    let first = selector(reader, kind)?;
    let mut selectors = Listed::new(alloc);
    selectors.push(first)?;
    more_selectors(reader, others, &mut selectors)?;
    Ok(selectors)
}

/// One selector for each kind.
#[tactic(auto, using(token_forms::proofs::Refusals::refusals), unfolding(crate::specs::PlansReading::all_selectors))]
fn all_selectors(reader: &mut Reader, alloc: Global, kinds: &[Kind]) -> Result<Selectors, ReadError>
    ensures { Gives (λ x. x) result reader.new (reading.all_selectors kinds.now reader.old) }
{
    match kinds {
        [] => Err(reader.refuse()),
        [kind, others @ ..] => some_selectors(reader, alloc, *kind, others),
    }
}

/// Reads the rest of a line whose set is at a place.
#[tactic(auto, using(token_forms::proofs::Refusals::refusals), unfolding(crate::specs::PlansReading::line_of, token_forms::specs::Gives::Refuses))]
fn line_at(
    reader: &mut Reader,
    alloc: Global,
    schema: &[SetDecl],
    lines: &mut Plan,
    set: u32,
) -> Result<(), ReadError>
    requires { length schema.now ≤ most_sets }
    ensures { Gives (λ _. lines.new) result reader.new (reading.line_at schema.now lines.old set reader.old) }
{
    match schema.get(set as usize) {
        None => Err(reader.refuse()),
        Some(decl) => {
            let selectors = all_selectors(reader, alloc, decl.kinds.as_slice())?;
            lines.push(PlanLine { set, selectors })?;
            Ok(())
        }
    }
}

/// Reads a declared set, and a selector for each of its fields.
#[tactic(auto, using(token_forms::proofs::Refusals::refusals), unfolding(crate::specs::PlansReading::set_line))]
fn set_line(
    reader: &mut Reader,
    alloc: Global,
    schema: &[SetDecl],
    lines: &mut Plan,
) -> Result<(), ReadError>
    requires { length schema.now ≤ most_sets }
    ensures { Gives (λ _. lines.new) result reader.new (reading.set_line schema.now lines.old reader.old) }
{
    let (family, table) = table_place(reader)?;
    let set = used_set(reader, schema, family, table)?;
    line_at(reader, alloc, schema, lines, set)
}

/// Reads a line if one more is allowed.
#[tactic(auto, using(token_forms::proofs::Refusals::refusals), unfolding(crate::specs::PlansReading::line_if))]
fn line_if(
    reader: &mut Reader,
    alloc: Global,
    schema: &[SetDecl],
    lines: &mut Plan,
    room: bool,
) -> Result<(), ReadError>
    requires { length schema.now ≤ most_sets }
    ensures { Gives (λ _. lines.new) result reader.new (reading.line_if room schema.now lines.old reader.old) }
{
    if room {
        set_line(reader, alloc, schema, lines)
    } else {
        Err(reader.refuse())
    }
}

fn has_room(lines: &Plan) -> bool
    ensures { result ≡ nat_lt (length lines.now) most_lines }
{
    lines.len() < MOST_LINES
}

/// A line break, or a line if one may come next.
#[tactic(auto, using(token_forms::proofs::Refusals::refusals))]
fn line_or_break(
    reader: &mut Reader,
    alloc: Global,
    schema: &[SetDecl],
    lines: &mut Plan,
    next: bool,
) -> Result<bool, ReadError>
    requires { length schema.now ≤ most_sets }
    ensures { Gives (λ x. (lines.new, x)) result reader.new (reading.line_or_break schema.now (lines.old, next) reader.old) }
{
    if next && !reader.is_at_break() {
        let room = has_room(lines);
        line_if(reader, alloc, schema, lines, room)?;
        Ok(false)
    } else {
        reader.line_break()?;
        Ok(true)
    }
}

fn next_line(
    reader: &mut Reader,
    alloc: Global,
    schema: &[SetDecl],
    lines: &mut Plan,
    next: bool,
) -> Result<bool, ReadError>
    requires { length schema.now ≤ most_sets }
    ensures gives { Gives (λ x. (lines.new, x)) result reader.new (reading.line_or_break schema.now (lines.old, next) reader.old) }
    ensures shorter { OnOk result (length reader.new < length reader.old) }
{
    line_or_break(reader, alloc, schema, lines, next)
}

/// Reads lines as long as one starts. Returns also whether one more may come next.
fn plan_lines(
    reader: &mut Reader,
    alloc: Global,
    schema: &[SetDecl],
) -> Result<(Plan, bool), ReadError>
    requires { length schema.now ≤ most_sets }
    ensures { Gives (λ x. (x.0, x.1)) result reader.new (reading.plan_lines schema.now reader.old) }
{
    let mut lines = Plan::new(alloc);
    let mut next = true;
    'plan: while let Some(t) = reader.peek() {
        let starts = t.starts_line_or_break(next);
        if !starts {
            return Ok((lines, next));
        }
        match next_line(reader, alloc, schema, &mut lines, next) {
            Ok(then) => next = then,
            Err(e) => return Err(e),
        }
    }
    Ok((lines, next))
}

/// The lines of a plan, which has at least one.
#[tactic(auto, using(token_forms::proofs::Refusals::refusals), unfolding(crate::specs::PlansReading::some_lines))]
fn some_lines(reader: &mut Reader, lines: Plan) -> Result<Plan, ReadError>
    ensures { Gives (λ x. x) result reader.new (reading.some_lines lines reader.old) }
{
    if lines.as_slice().is_empty() {
        Err(reader.refuse())
    } else {
        Ok(lines)
    }
}

/// Reads all before the end of the text.
#[tactic(auto, using(token_forms::proofs::Refusals::refusals), unfolding(crate::specs::PlansReading::body))]
fn body(reader: &mut Reader, alloc: Global, schema: &[SetDecl]) -> Result<Plan, ReadError>
    requires { length schema.now ≤ most_sets }
    ensures { Gives (λ x. x) result reader.new (reading.body schema.now reader.old) }
{
    let (lines, _) = plan_lines(reader, alloc, schema)?;
    some_lines(reader, lines)
}

#[tactic(auto, using(token_forms::proofs::Refusals::refusals), unfolding(crate::specs::PlansReading::plan))]
fn whole(reader: &mut Reader, alloc: Global, schema: &[SetDecl]) -> Result<Plan, ReadError>
    requires { length schema.now ≤ most_sets }
    ensures { Gives (λ x. x) result reader.new (reading.plan schema.now reader.old) }
{
    let lines = body(reader, alloc, schema)?;
    reader.the_end()?;
    Ok(lines)
}

/// The plan that a text means, for the sets of a schema.
///
/// # Errors
///
/// `Bad` exactly if the text isn't in the grammar, with the line of its first token that doesn't fit
/// and the reason. `Memory` if memory runs out.
pub fn read_plan(alloc: Global, schema: &Schema, text: &[u8]) -> Result<Plan, PlanError>
    // There are no more sets than a script may declare.
    requires { length schema.now ≤ most_sets }
    // What is read is the plan that the text means.
    ensures found { IfOk result (IsPlanText schema.now text.now) }
    // A text that means a plan is read as that one, unless memory runs out. So it means at most one
    // plan.
    ensures only { (lines : List Lined) → IsPlanText schema.now text.now lines → IsReadAs (λ x. x) result lines }
    // A refused text means no plan. The line is its bad token's, and the reason is the first that
    // applies.
    ensures bad { (line : ℕ) (reason : Reason) → result ≡ Err (Bad line reason) → IsBadPlan schema.now text.now line reason }
    // Each line's set is declared, and its selectors are of the kinds of the set's fields.
    ensures fits { IfOk result (All (IsPlanned schema.now)) }
{
    let mut reader = Reader::plain(text);
    whole(&mut reader, alloc, schema.as_slice())
}

/// The bad token of a text, for the sets of a schema, with its place and its reason. It is `None`
/// exactly if the text is in the grammar. `read_plan` reports the line and the reason of the same
/// token.
///
/// # Errors
///
/// `Memory` if memory runs out.
pub fn bad_token(alloc: Global, schema: &Schema, text: &[u8]) -> Result<Option<BadToken>, Memory>
    requires { length schema.now ≤ most_sets }
    ensures { IfOk result (IsPlainBadTokenOf (plan schema.now) text.now) }
{
    let mut reader = Reader::plain(text);
    match whole(&mut reader, alloc, schema.as_slice()) {
        Ok(_) => return Ok(None),
        Err(ReadError::Memory) => return Err(Memory),
        Err(ReadError::Bad { reason, .. }) => {
            return Ok(plain_bad_token_before(text, reader, reason));
        }
    }
}

/// A text means at most one plan.
pub fn one_plan_law(_schema: &Schema, _text: &[u8])
    ensures { (lines other : List Lined) → IsPlanText _schema.now _text.now lines → IsPlanText _schema.now _text.now other → lines ≡ other }
{}

/// The tokens before any place of a plan's front are a front of a plan, too.
pub fn plan_fronts_law(_schema: &Schema)
    ensures { AreFrontsClosed (plan _schema.now) }
{}

/// A text that is no plan is refused at one line, for one reason, and for one token.
pub fn one_plan_fault_law(_schema: &Schema, _text: &[u8])
    ensures refused { IsRefusedOnce (plan _schema.now) (plain_tokens _text.now) }
    ensures token { HasOneBadTokenAmong (plan _schema.now) (plain_tokens _text.now) _text.now }
{}
