//! Explains the bad token of a text beside a script.
use crate::beside::{Beside, other_family};
use crate::key_places::KeyPlace;
use crate::keys::{KeyFault, explain_key, type_item};
use crate::plans::explain_plan;
use crate::rules::explain_rules;
use field_advice::explain_family;
use set_model::{Memory, Schema};
use token_forms::{BadToken, Reason};
use token_notes::{Cut, Explained, TextKind, explain_slashes, is_slashes};

/// Explains the bad token of a key, which is in its line `cut`: what is wrong with it, and what to do.
///
/// # Errors
///
/// `Memory` if memory runs out.
pub fn explain_in_key(
    said: &mut Explained,
    place: KeyPlace,
    schema: &Schema,
    bad: BadToken,
    cut: Cut<'_>,
) -> Result<(), Memory> {
    match other_family(schema, cut.front) {
        Some(word) if bad.reason == Reason::Set && !cut.line.contains(&b'>') => {
            return explain_family(said, word);
        }
        _ => {}
    }
    let type_item = type_item(said.alloc, schema, cut.line)?;
    let fault = KeyFault {
        place,
        line: cut.line,
        before: cut.front,
        behind: cut.behind,
        token: cut.token,
        reason: bad.reason,
    };
    explain_key(said, schema, type_item.as_slice(), fault)
}

/// Explains a bad token of a rules file or a plan.
fn explain_beside(
    said: &mut Explained,
    kind: TextKind,
    schema: &Schema,
    fault: Beside<'_>,
) -> Result<(), Memory> {
    if is_slashes(fault.token) && fault.reason != Reason::Set {
        return explain_slashes(said);
    }
    match kind {
        TextKind::Plan => explain_plan(said, schema, fault),
        _ => explain_rules(said, schema, fault),
    }
}

/// Explains the bad token of a key file, a rules file or a plan beside a script that declares these sets. The token is in
/// its line `cut`.
///
/// # Errors
///
/// `Memory` if memory runs out.
pub fn explain_other_text(
    said: &mut Explained,
    kind: TextKind,
    schema: &Schema,
    text: &[u8],
    bad: BadToken,
    cut: Cut<'_>,
) -> Result<(), Memory> {
    if kind == TextKind::Keys {
        return explain_in_key(said, KeyPlace::File, schema, bad, cut);
    }
    let (before, behind) = text.split_at(text.len().min(bad.at as usize));
    let fault = Beside {
        text,
        before,
        behind,
        line: cut.line,
        front: cut.front,
        token: cut.token,
        reason: bad.reason,
    };
    explain_beside(said, kind, schema, fault)
}
