//! Explains the bad token of a script.
use crate::around::{Level, around_of};
use crate::fault::Fault;
use crate::held::{explain_held, is_held};
use crate::other_tools::{explain_other_tool, other_tool};
use crate::sets::explain_set;
use crate::shell::{explain_backslash, explain_quoted_comment, is_quoted_comment};
use crate::syntax::{
    explain_left_out, explain_open, explain_syntax, explain_text_end, is_between_types, is_in_open,
};
use crate::times::explain_time;
use crate::types::explain_type;
use crate::values::{explain_moment, explain_value};
use set_model::Memory;
use token_forms::{BadToken, Reason};
use token_notes::{
    Cut, Explained, TextKind, explain_plainly, explain_reference, explain_slashes,
    explain_slashes_in_list, is_slashes,
};

/// Explains the bad token of a script.
fn explain_in_script(said: &mut Explained, fault: Fault<'_>, reason: Reason) -> Result<(), Memory> {
    let is_name = fault.around.level == Level::Statement && !fault.around.part.is_empty();
    if let Some(tool) = other_tool(fault) {
        return explain_other_tool(said, tool);
    }
    match reason {
        Reason::Character if is_name && fault.token.first() == Some(&b'@') => {
            explain_reference(said)
        }
        Reason::Character if fault.token == b"\\".as_slice() => explain_backslash(said, fault),
        Reason::Character if is_quoted_comment(fault) => explain_quoted_comment(said),
        Reason::Character | Reason::End => explain_by_reason(said, fault, reason),
        _ if is_slashes(fault.token) && fault.around.level == Level::Elements => {
            explain_slashes_in_list(said)
        }
        _ if is_slashes(fault.token) && !is_between_types(fault) => explain_slashes(said),
        _ if is_in_open(fault) => explain_open(said, fault),
        _ if is_held(fault) => explain_held(said, fault),
        _ => explain_by_reason(said, fault, reason),
    }
}

/// Explains the bad token of a script by its reason.
fn explain_by_reason(said: &mut Explained, fault: Fault<'_>, reason: Reason) -> Result<(), Memory> {
    match reason {
        Reason::Value => explain_value(said, fault),
        Reason::Statement => explain_syntax(said, fault),
        Reason::End => explain_text_end(said, fault),
        Reason::Set => explain_set(said, fault),
        Reason::TypeWord => explain_type(said, fault),
        Reason::Moment => explain_moment(said, fault),
        Reason::Time => explain_time(said, fault.token),
        Reason::LeftOut => explain_left_out(said, fault),
        _ => explain_plainly(said, TextKind::Script, reason, fault.token),
    }
}

/// Explains the bad token of a script, which is in its line `cut`: what is wrong with it, and what to do. What surrounds
/// the token decides both.
///
/// # Errors
///
/// `Memory` if memory runs out.
pub fn explain_script(
    said: &mut Explained,
    text: &[u8],
    bad: BadToken,
    cut: Cut<'_>,
) -> Result<(), Memory> {
    let mut sets = Vec::new(said.alloc);
    let around = around_of(text, bad.at, &mut sets)?;
    let fault = Fault {
        at: bad.at,
        token: cut.token,
        around,
        sets: sets.as_slice(),
    };
    explain_in_script(said, fault, bad.reason)
}
