//! Explains lines of files that ipset and iptables-save write.
use crate::around::Level;
use crate::fault::Fault;
use set_model::Memory;
use token_notes::{Explained, word_at};

/// How the types of ipset's sets begin.
const IPSET_TYPES: [&[u8]; 3] = [b"hash:", b"bitmap:", b"list:"];

/// A program that keeps sets or rules in files of its own form.
#[derive(Clone, Copy, Debug, PartialEq, Eq)]
pub(crate) enum OtherTool {
    Ipset,
    IptablesSave,
}

/// Whether a word is a type of ipset's sets, as `hash:net`.
fn is_ipset_type(word: &[u8]) -> bool {
    IPSET_TYPES.iter().any(|front| word.starts_with(*front))
}

/// Whether a line of iptables-save begins with this word: with a table as `*filter`, a chain as `:INPUT`, or a rule as `-A`.
fn begins_for_iptables(word: &[u8]) -> bool {
    matches!(
        word,
        [b'*', ..] | [b':', b'A'..=b'Z', ..] | [b'-', b'A'..=b'Z', ..]
    )
}

/// The program that writes the line of this token, if it isn't nft.
pub(crate) fn other_tool(fault: Fault<'_>) -> Option<OtherTool> {
    let part = fault.around.part;
    let is_statement = fault.around.level == Level::Statement;
    if is_statement && part.is_empty() && begins_for_iptables(fault.token) {
        return Some(OtherTool::IptablesSave);
    }
    let is_second = part == b"create".as_slice();
    if is_statement && is_second && is_ipset_type(word_at(fault.around.behind(fault.at), 1)) {
        return Some(OtherTool::Ipset);
    }
    None
}

/// Explains a line that another program writes.
pub(crate) fn explain_other_tool(said: &mut Explained, tool: OtherTool) -> Result<(), Memory> {
    match tool {
        OtherTool::Ipset => said.say(
            b" can't follow 'create': this looks like a file of ipset",
            b"to list its sets, run: ipset-translate restore < FILE > sets.nft; pipapo list sets.nft",
        ),
        OtherTool::IptablesSave => said.say(
            b" can't begin a statement: this looks like a file of iptables-save, which only names sets",
            b"the sets are in ipset; to list them, run: ipset save | ipset-translate restore > sets.nft; pipapo list sets.nft",
        ),
    }
}
