use input_files::FileFault;
use token_forms::Reason;

/// Why a command ends without its output.
#[derive(Clone, Copy)]
pub enum Fault<'a> {
    /// The words are no command.
    Usage,
    /// One of the command's files can't be had.
    File(FileFault<'a>),
    /// The script of this name has more sections than a desk has control threads for.
    TooManyClerks(&'a str),
    /// The words of a `get` are no key: the line of the first token that doesn't fit, and the reason.
    BadKey { line: u64, reason: Reason },
    /// Memory ran out, for the words or for the output.
    Memory,
}
