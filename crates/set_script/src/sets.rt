ghost use Rattle.std.specs.Prelude.{◌≡◌, ◌<◌, List, length, true, false, OnOk};
ghost use Rattle.std.specs.Bool.{OnTrue};
ghost use Rattle.token_forms.specs.Gives.{Gives};
ghost use Rattle.token_forms.specs.View.{lexeme_of};
ghost use Rattle.set_script.specs.ScriptReading as reading;
ghost use Rattle.set_script.specs.ScriptReading.{starts_flag};
ghost use Rattle.set_script.specs.Changes.{with_flag};
ghost use Rattle.set_script.specs.Limits.{most_sets, HasShortTimeout};
ghost use Rattle.set_script.specs.Names.{may_declare};
ghost use Rattle.set_script.specs.declared.draft.Declaration.{Declaration as Declaring};

use crate::draft::{Declaration, Draft, begin_declaration};
use crate::elements::list;
use crate::kinds::type_item;
use crate::place::{place_of_set, table_place};
use crate::values;
use crate::words::{Flag, ItemWord, flag_of_word, is_a_policy, item_word_of};
use set_model::{Family, Steps};
use std::alloc::Global;
use token_forms::{ReadError, Reader, Reason, Seen, is_a_name};

/// Whether a set with this name may be declared here.
fn is_declarable(d: &Draft, family: Family, table: &[u8], name: &[u8]) -> bool
    ensures may { result ≡ may_declare d.now family table.now name.now }
    ensures room { OnTrue result (length d.now.schema < most_sets) }
{
    is_a_name(name)
        && !d.late
        && d.schema.has_room()
        && place_of_set(d.schema.as_slice(), family, table, name).is_none()
}

/// Reads the name of a set that may be declared.
#[tactic(auto, unfolding(token_forms::specs::Gives::Refuses))]
pub fn new_set<'a>(
    reader: &mut Reader<'a>,
    d: &Draft,
    family: Family,
    table: &[u8],
) -> Result<&'a [u8], ReadError>
    ensures gives { Gives (λ x. x.now) result reader.new (reading.new_set d.now (family, table.now) reader.old) }
    ensures room { OnOk result (length d.now.schema < most_sets) }
{
    let t = reader.next()?;
    if t.is_word() && is_declarable(d, family, table, t.bytes) {
        Ok(t.bytes)
    } else {
        Err(t.refused(&[Reason::Set]))
    }
}

#[tactic(auto, unfolding(token_forms::specs::Gives::Refuses))]
fn item_word(reader: &mut Reader, b: &Declaration) -> Result<ItemWord, ReadError>
    ensures { Gives (λ x. x) result reader.new (reading.item_word b.now reader.old) }
{
    let t = reader.next()?;
    match item_word_of(b, t.bytes) {
        Some(word) if t.is_word() => Ok(word),
        _ => Err(t.refused(&[])),
    }
}

#[tactic(auto, unfolding(token_forms::specs::Gives::Refuses))]
fn flag_word(reader: &mut Reader, b: &Declaration) -> Result<Flag, ReadError>
    ensures { Gives (λ x. x) result reader.new (reading.flag_word b.now reader.old) }
{
    let t = reader.next()?;
    match flag_of_word(b, t.bytes) {
        Some(flag) if t.is_word() => Ok(flag),
        _ => Err(t.refused(&[])),
    }
}

fn set_flag(b: &mut Declaration, flag: Flag)
    ensures with { b.new ≡ with_flag b.old flag }
    ensures timeout { b.new.decl.timeout ≡ b.old.decl.timeout }
{
    match flag {
        Flag::Interval => b.decl.interval = true,
        Flag::Timeout => {
            b.decl.timed = true;
            b.timeout_flag = true;
        }
        Flag::Disjoint => b.decl.disjoint = true,
    }
    b.flags = true;
}

#[tactic(auto, using(token_forms::proofs::Refusals::refusals), unfolding(crate::specs::ScriptReading::flag))]
fn flag(reader: &mut Reader, b: &mut Declaration) -> Result<(), ReadError>
    requires { HasShortTimeout b.old.decl }
    ensures gives { Gives (λ _. b.new) result reader.new (reading.flag b.old reader.old) }
    ensures short { OnOk result (HasShortTimeout b.new.decl) }
{
    let word = flag_word(reader, b)?;
    set_flag(b, word);
    Ok(())
}

#[tactic(auto, using(token_forms::proofs::Refusals::refusals), unfolding(crate::specs::ScriptReading::more_flags))]
fn more_flags(reader: &mut Reader, b: &mut Declaration) -> Result<(), ReadError>
    requires { HasShortTimeout b.old.decl }
    ensures gives { Gives (λ _. b.new) result reader.new (reading.more_flags b.old reader.old) }
    ensures short { OnOk result (HasShortTimeout b.new.decl) }
{
    reader.mark(b',')?;
    flag(reader, b)
}

fn next_flag(reader: &mut Reader, b: &mut Declaration) -> Result<(), ReadError>
    requires { HasShortTimeout b.old.decl }
    ensures gives { Gives (λ _. b.new) result reader.new (reading.more_flags b.old reader.old) }
    ensures short { OnOk result (HasShortTimeout b.new.decl) }
    ensures shorter { OnOk result (length reader.new < length reader.old) }
{
    more_flags(reader, b)
}

fn starts_a_flag(t: &Seen) -> bool
    ensures { (b : Declaring) → result ≡ starts_flag b (lexeme_of t.now) }
{
    t.is_mark(b',')
}

fn flags_behind(reader: &mut Reader, b: &mut Declaration) -> Result<(), ReadError>
    requires { HasShortTimeout b.old.decl }
    ensures gives { Gives (λ _. b.new) result reader.new (reading.flags_behind b.old reader.old) }
    ensures short { OnOk result (HasShortTimeout b.new.decl) }
{
    'flags: while let Some(t) = reader.peek() {
        let starts = starts_a_flag(&t);
        if !starts {
            return Ok(());
        }
        match next_flag(reader, b) {
            Ok(()) => {}
            Err(e) => return Err(e),
        }
    }
    Ok(())
}

/// Reads a policy, which has no effect.
#[tactic(auto, unfolding(token_forms::specs::Gives::Refuses))]
fn policy(reader: &mut Reader) -> Result<(), ReadError>
    ensures { Gives (λ x. x) result reader.new (reading.policy reader.old) }
{
    let t = reader.next()?;
    if t.is_word() && is_a_policy(t.bytes) {
        Ok(())
    } else {
        Err(t.refused(&[]))
    }
}

/// The elements of a set that is being declared.
#[tactic(auto, using(token_forms::proofs::Refusals::refusals))]
fn elements_item(
    reader: &mut Reader,
    alloc: Global,
    b: &mut Declaration,
    steps: &mut Steps,
) -> Result<(), ReadError>
    requires { HasShortTimeout b.old.decl }
    ensures gives { Gives (λ _. (b.new, steps.new)) result reader.new (reading.elements_item (b.old, steps.old) reader.old) }
    ensures short { OnOk result (HasShortTimeout b.new.decl) }
{
    reader.mark(b'=')?;
    list(reader, alloc, &b.target, &b.decl, steps)?;
    b.elements = true;
    Ok(())
}

#[tactic(auto, using(token_forms::proofs::Refusals::refusals), unfolding(crate::specs::ScriptReading::item_behind))]
fn item_behind(
    reader: &mut Reader,
    alloc: Global,
    word: ItemWord,
    b: &mut Declaration,
    steps: &mut Steps,
) -> Result<(), ReadError>
    requires { HasShortTimeout b.old.decl }
    ensures gives { Gives (λ _. (b.new, steps.new)) result reader.new (reading.item_behind (b.old, steps.old) word reader.old) }
    ensures short { OnOk result (HasShortTimeout b.new.decl) }
{
    match word {
        ItemWord::Flags => {
            flag(reader, b)?;
            flags_behind(reader, b)?;
            Ok(())
        }
        ItemWord::Timeout => {
            let time = values::time(reader)?;
            b.decl.timed = true;
            b.decl.timeout = Some(time.ms());
            Ok(())
        }
        ItemWord::Size => {
            let size = values::size(reader)?;
            b.decl.size = Some(size);
            Ok(())
        }
        ItemWord::GcInterval => {
            values::time(reader)?;
            b.gc_interval = true;
            Ok(())
        }
        ItemWord::Policy => {
            policy(reader)?;
            b.policy = true;
            Ok(())
        }
        ItemWord::Comment => {
            reader.text()?;
            b.comment = true;
            Ok(())
        }
        ItemWord::Elements => elements_item(reader, alloc, b, steps),
    }
}

#[tactic(auto, using(token_forms::proofs::Refusals::refusals), unfolding(crate::specs::ScriptReading::item))]
fn item(
    reader: &mut Reader,
    alloc: Global,
    b: &mut Declaration,
    steps: &mut Steps,
) -> Result<(), ReadError>
    requires { HasShortTimeout b.old.decl }
    ensures gives { Gives (λ _. (b.new, steps.new)) result reader.new (reading.item (b.old, steps.old) reader.old) }
    ensures short { OnOk result (HasShortTimeout b.new.decl) }
{
    let word = item_word(reader, b)?;
    item_behind(reader, alloc, word, b, steps)
}

/// A separator, or an item if one may come next.
#[tactic(auto, using(token_forms::proofs::Refusals::refusals))]
fn item_line(
    reader: &mut Reader,
    alloc: Global,
    b: &mut Declaration,
    steps: &mut Steps,
    next: bool,
) -> Result<bool, ReadError>
    requires { HasShortTimeout b.old.decl }
    ensures gives { Gives (λ x. ((b.new, steps.new), x)) result reader.new (reading.item_line ((b.old, steps.old), next) reader.old) }
    ensures short { OnOk result (HasShortTimeout b.new.decl) }
{
    if next && !reader.is_at_separator() {
        item(reader, alloc, b, steps)?;
        Ok(false)
    } else {
        reader.separator()?;
        Ok(true)
    }
}

fn next_item_line(
    reader: &mut Reader,
    alloc: Global,
    b: &mut Declaration,
    steps: &mut Steps,
    next: bool,
) -> Result<bool, ReadError>
    requires { HasShortTimeout b.old.decl }
    ensures gives { Gives (λ x. ((b.new, steps.new), x)) result reader.new (reading.item_line ((b.old, steps.old), next) reader.old) }
    ensures short { OnOk result (HasShortTimeout b.new.decl) }
    ensures shorter { OnOk result (length reader.new < length reader.old) }
{
    item_line(reader, alloc, b, steps, next)
}

fn item_lines(
    reader: &mut Reader,
    alloc: Global,
    b: &mut Declaration,
    steps: &mut Steps,
) -> Result<bool, ReadError>
    requires { HasShortTimeout b.old.decl }
    ensures gives { Gives (λ x. ((b.new, steps.new), x)) result reader.new (reading.item_lines ((b.old, steps.old), false) reader.old) }
    ensures short { OnOk result (HasShortTimeout b.new.decl) }
{
    let mut next = false;
    'lines: while let Some(t) = reader.peek() {
        let starts = t.starts_statement_line(next);
        if !starts {
            return Ok(next);
        }
        match next_item_line(reader, alloc, b, steps, next) {
            Ok(then) => next = then,
            Err(e) => return Err(e),
        }
    }
    Ok(next)
}

/// The items after the type of a set.
#[tactic(auto, using(token_forms::proofs::Refusals::refusals))]
fn all_items(
    reader: &mut Reader,
    alloc: Global,
    b: &mut Declaration,
    steps: &mut Steps,
) -> Result<(), ReadError>
    requires { HasShortTimeout b.old.decl }
    ensures gives { Gives (λ _. (b.new, steps.new)) result reader.new (reading.all_items (b.old, steps.old) reader.old) }
    ensures short { OnOk result (HasShortTimeout b.new.decl) }
{
    item_lines(reader, alloc, b, steps)?;
    Ok(())
}

/// Reads the items of a set in braces, and declares the set.
#[tactic(auto, using(token_forms::proofs::Refusals::refusals), unfolding(crate::specs::ScriptReading::set_body))]
pub fn set_body(
    reader: &mut Reader,
    alloc: Global,
    d: &mut Draft,
    family: Family,
    table: &[u8],
    name: &[u8],
) -> Result<(), ReadError>
    requires { length d.old.schema < most_sets }
    ensures { Gives (λ _. d.new) result reader.new (reading.set_body d.old (family, table.now) name.now reader.old) }
{
    reader.mark(b'{')?;
    reader.separators();
    let kinds = type_item(reader, alloc)?;
    let mut b = begin_declaration(alloc, d, family, table, name, kinds)?;
    all_items(reader, alloc, &mut b, &mut d.steps)?;
    reader.mark(b'}')?;
    d.schema.push(b.decl)?;
    Ok(())
}

#[tactic(auto, using(token_forms::proofs::Refusals::refusals), unfolding(crate::specs::ScriptReading::set_block))]
fn set_block(
    reader: &mut Reader,
    alloc: Global,
    d: &mut Draft,
    family: Family,
    table: &[u8],
) -> Result<(), ReadError>
    ensures { Gives (λ _. d.new) result reader.new (reading.set_block (family, table.now) d.old reader.old) }
{
    reader.word(b"set")?;
    let name = new_set(reader, d, family, table)?;
    set_body(reader, alloc, d, family, table, name)
}

/// A separator, or a set block if one may come next.
#[tactic(auto, using(token_forms::proofs::Refusals::refusals))]
fn block_line(
    reader: &mut Reader,
    alloc: Global,
    d: &mut Draft,
    family: Family,
    table: &[u8],
    next: bool,
) -> Result<bool, ReadError>
    ensures { Gives (λ x. (d.new, x)) result reader.new (reading.block_line (family, table.now) (d.old, next) reader.old) }
{
    if next && !reader.is_at_separator() {
        set_block(reader, alloc, d, family, table)?;
        Ok(false)
    } else {
        reader.separator()?;
        Ok(true)
    }
}

fn next_block_line(
    reader: &mut Reader,
    alloc: Global,
    d: &mut Draft,
    family: Family,
    table: &[u8],
    next: bool,
) -> Result<bool, ReadError>
    ensures gives { Gives (λ x. (d.new, x)) result reader.new (reading.block_line (family, table.now) (d.old, next) reader.old) }
    ensures shorter { OnOk result (length reader.new < length reader.old) }
{
    block_line(reader, alloc, d, family, table, next)
}

fn block_lines(
    reader: &mut Reader,
    alloc: Global,
    d: &mut Draft,
    family: Family,
    table: &[u8],
) -> Result<bool, ReadError>
    ensures { Gives (λ x. (d.new, x)) result reader.new (reading.block_lines (family, table.now) (d.old, true) reader.old) }
{
    let mut next = true;
    'lines: while let Some(t) = reader.peek() {
        let starts = t.starts_statement_line(next);
        if !starts {
            return Ok(next);
        }
        match next_block_line(reader, alloc, d, family, table, next) {
            Ok(then) => next = then,
            Err(e) => return Err(e),
        }
    }
    Ok(next)
}

/// The set blocks of a table.
#[tactic(auto, using(token_forms::proofs::Refusals::refusals))]
fn all_blocks(
    reader: &mut Reader,
    alloc: Global,
    d: &mut Draft,
    family: Family,
    table: &[u8],
) -> Result<(), ReadError>
    ensures { Gives (λ _. d.new) result reader.new (reading.all_blocks (family, table.now) d.old reader.old) }
{
    block_lines(reader, alloc, d, family, table)?;
    Ok(())
}

/// Reads the rest of a statement after `table`: the table's family and name, and set blocks in braces.
#[tactic(auto, using(token_forms::proofs::Refusals::refusals), unfolding(crate::specs::ScriptReading::table_block))]
pub fn table_block(reader: &mut Reader, alloc: Global, d: &mut Draft) -> Result<(), ReadError>
    ensures { Gives (λ _. d.new) result reader.new (reading.table_block d.old reader.old) }
{
    let (family, table) = table_place(reader)?;
    reader.mark(b'{')?;
    all_blocks(reader, alloc, d, family, table)?;
    reader.mark(b'}')?;
    Ok(())
}
