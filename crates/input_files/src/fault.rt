use pcap_keys::CaptureReason;
use token_forms::Reason;

/// What is wrong with a file's text: the first place at which it leaves the file's form, and why. Lines
/// count from 1, and bytes from 0.
#[derive(Clone, Copy)]
pub enum Flaw {
    /// The script isn't in the grammar: the line of its first token that doesn't fit.
    Script { line: u64, reason: Reason },
    /// The second script isn't in the grammar.
    SecondScript { line: u64, reason: Reason },
    /// What is kept of the ruleset isn't in the grammar of scripts. The line is the ruleset's.
    Ruleset { line: u64, reason: Reason },
    /// The key file isn't in the grammar under the script's sets.
    Keys { line: u64, reason: Reason },
    /// The rules file isn't in the grammar under the script's sets.
    Rules { line: u64, reason: Reason },
    /// The plan isn't in the grammar under the script's sets.
    Plan { line: u64, reason: Reason },
    /// The bytes aren't a capture: the byte of the first fault.
    Capture { byte: u64, reason: CaptureReason },
}

/// Why a command's file failed.
#[derive(Clone, Copy)]
pub enum FileFault<'a> {
    /// Its text isn't of its form.
    Bad(Flaw),
    /// The file of this name can't be opened or read.
    ReadFault(&'a str),
    /// The file of this name has more bytes than an input file may have.
    TooLarge(&'a str),
    /// Out of memory.
    Memory,
}
