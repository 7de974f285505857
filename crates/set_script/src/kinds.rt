//! Reads the type of a set.
ghost use Rattle.std.specs.Prelude.{◌≡◌, ◌<◌, List, length, OnOk};
ghost use Rattle.set_model.specs.declared.kind.Kind.{Kind as KindOf};
ghost use Rattle.token_forms.specs.Gives.{Gives};
ghost use Rattle.token_forms.specs.View.{lexeme_of};
ghost use Rattle.set_script.specs.Expressions.{has_room_if, expression_behind, kind_of_whole};
ghost use Rattle.set_script.specs.ExpressionTable.{IsOfTable};
ghost use Rattle.set_script.specs.ScriptReading as reading;
ghost use Rattle.set_script.specs.ScriptReading.{starts_kind};

use crate::expression::{Expression, read_expression_word};
use crate::words::{TypeWord, has_room_for, read_kind_behind, read_type_word};
use set_model::{Kind, Kinds, Listed};
use std::alloc::Global;
use token_forms::{ReadError, Reader, Reason, Seen};

/// Reads `type` or `typeof`.
#[tactic(auto, unfolding(token_forms::specs::Gives::Refuses))]
fn type_word(reader: &mut Reader) -> Result<TypeWord, ReadError>
    ensures { Gives (λ x. x) result reader.new (reading.type_word reader.old) }
{
    let t = reader.next()?;
    match read_type_word(t.bytes) {
        Some(word) if t.is_word() => Ok(word),
        _ => Err(t.refused(&[])),
    }
}

/// Reads a word that names a kind, if the key has room for one more after these.
#[tactic(auto, unfolding(token_forms::specs::Gives::Refuses))]
fn kind_word(reader: &mut Reader, kinds: &[Kind]) -> Result<Kind, ReadError>
    ensures { Gives (λ x. x) result reader.new (reading.kind_word kinds.now reader.old) }
{
    let t = reader.next()?;
    match read_kind_behind(kinds, t.bytes) {
        Some(kind) if t.is_word() => Ok(kind),
        _ => Err(t.refused(&[Reason::TypeWord])),
    }
}

/// Whether the key has room for a kind, if there is one, after these.
fn has_room_if_any(kinds: &[Kind], kind: Option<Kind>) -> bool
    ensures { result ≡ has_room_if kinds.now kind }
{
    match kind {
        Some(kind) => has_room_for(kinds, kind),
        None => true,
    }
}

/// What has been read of an expression after one more word. The key has room for its kind after these.
fn read_expression_behind(kinds: &[Kind], part: Expression, text: &[u8]) -> Option<Expression>
    ensures { result ≡ expression_behind kinds.now part text.now }
{
    match part.grown(read_expression_word(text)) {
        Some(next) if has_room_if_any(kinds, next.kind()) => Some(next),
        _ => None,
    }
}

/// Reads one more word of an expression.
#[tactic(auto, unfolding(token_forms::specs::Gives::Refuses))]
fn expression_word(
    reader: &mut Reader,
    kinds: &[Kind],
    part: Expression,
) -> Result<Expression, ReadError>
    ensures { Gives (λ x. x) result reader.new (reading.expression_word kinds.now part reader.old) }
{
    let t = reader.next()?;
    match read_expression_behind(kinds, part, t.bytes) {
        Some(next) if t.is_word() => Ok(next),
        _ => Err(t.refused(&[Reason::TypeWord])),
    }
}

/// Reads one more word of an expression, unless all of it has been read.
#[tactic(auto, using(token_forms::proofs::Refusals::refusals), unfolding(crate::specs::ScriptReading::rest_word))]
fn rest_word(reader: &mut Reader, kinds: &[Kind], part: Expression) -> Result<Expression, ReadError>
    ensures { Gives (λ x. x) result reader.new (reading.rest_word kinds.now part (kind_of_whole part) reader.old) }
{
    match part.kind() {
        Some(_) => Ok(part),
        None => expression_word(reader, kinds, part),
    }
}

/// The kind of an expression of which all has been read.
#[tactic(auto, unfolding(crate::specs::ScriptReading::whole_kind, token_forms::specs::Gives::Refuses))]
fn whole_kind(reader: &mut Reader, part: Expression) -> Result<Kind, ReadError>
    ensures { Gives (λ x. x) result reader.new (reading.whole_kind (kind_of_whole part) reader.old) }
{
    match part.kind() {
        Some(kind) => Ok(kind),
        None => Err(reader.refuse()),
    }
}

/// Reads an expression, if the key has room for its kind after these.
#[tactic(auto, using(token_forms::proofs::Refusals::refusals), unfolding(crate::specs::ScriptReading::expression))]
fn expression(reader: &mut Reader, kinds: &[Kind]) -> Result<Kind, ReadError>
    ensures { Gives (λ x. x) result reader.new (reading.expression kinds.now reader.old) }
{
    let first = expression_word(reader, kinds, Expression::Empty)?;
    let second = rest_word(reader, kinds, first)?;
    let third = rest_word(reader, kinds, second)?;
    let fourth = rest_word(reader, kinds, third)?;
    whole_kind(reader, fourth)
}

/// Reads a kind, by its name or by an expression.
#[tactic(auto, using(token_forms::proofs::Refusals::refusals), unfolding(crate::specs::ScriptReading::kind_by))]
fn kind_by(reader: &mut Reader, word: TypeWord, kinds: &[Kind]) -> Result<Kind, ReadError>
    ensures { Gives (λ x. x) result reader.new (reading.kind_by word kinds.now reader.old) }
{
    match word {
        TypeWord::Names => kind_word(reader, kinds),
        TypeWord::Expressions => expression(reader, kinds),
    }
}

#[tactic(auto, using(token_forms::proofs::Refusals::refusals), unfolding(crate::specs::ScriptReading::more_kinds))]
fn more_kinds(reader: &mut Reader, word: TypeWord, kinds: &mut Kinds) -> Result<(), ReadError>
    ensures { Gives (λ _. kinds.new) result reader.new (reading.more_kinds word kinds.old reader.old) }
{
    reader.word(b".")?;
    let kind = kind_by(reader, word, kinds.as_slice())?;
    kinds.push(kind)?;
    Ok(())
}

fn next_kind(reader: &mut Reader, word: TypeWord, kinds: &mut Kinds) -> Result<(), ReadError>
    ensures gives { Gives (λ _. kinds.new) result reader.new (reading.more_kinds word kinds.old reader.old) }
    ensures shorter { OnOk result (length reader.new < length reader.old) }
{
    more_kinds(reader, word, kinds)
}

fn starts_a_kind(t: &Seen) -> bool
    ensures { (ks : List KindOf) → result ≡ starts_kind ks (lexeme_of t.now) }
{
    t.is_word()
}

fn kinds_behind(reader: &mut Reader, word: TypeWord, kinds: &mut Kinds) -> Result<(), ReadError>
    ensures { Gives (λ _. kinds.new) result reader.new (reading.kinds_behind word kinds.old reader.old) }
{
    'kinds: while let Some(t) = reader.peek() {
        let starts = starts_a_kind(&t);
        if !starts {
            return Ok(());
        }
        match next_kind(reader, word, kinds) {
            Ok(()) => {}
            Err(e) => return Err(e),
        }
    }
    Ok(())
}

/// Reads the type of a set: `type` and names of kinds, or `typeof` and expressions.
#[tactic(auto, using(token_forms::proofs::Refusals::refusals), unfolding(crate::specs::ScriptReading::type_item))]
pub fn type_item(reader: &mut Reader, alloc: Global) -> Result<Kinds, ReadError>
    ensures { Gives (λ x. x) result reader.new (reading.type_item reader.old) }
{
    let word = type_word(reader)?;
    let kind = kind_by(reader, word, &[])?;
    let mut kinds = Listed::new(alloc);
    kinds.push(kind)?;
    kinds_behind(reader, word, &mut kinds)?;
    Ok(kinds)
}

/// Tokens that mean an expression of a kind after these kinds are a row of the table of expressions.
pub fn expressions_law(_kinds: &[Kind])
    ensures { IsOfTable _kinds.now }
{}
