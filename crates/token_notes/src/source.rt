//! Shows the line of a token, with the token marked in it.
ghost use Rattle.std.specs.Prelude.{◌≡◌, ◌≤◌, ◌+◌, ◌-◌, ◌++◌, OnOk, ℕ, nat_lt, length, take, drop, flat_map};
ghost use Rattle.token_notes.specs.Source.{after_token, before_token, both_lines, dots as dots_text, first_line as first_of_lines, last, line_byte as shown_in_line, line_of, line_text, lone_caret as caret_alone, marks as marks_under, marks_text, of_token, shown_after, under_dots as blanks_of_dots};

use crate::note::{Note, is_printable};
use set_model::Memory;
use token_forms::BadToken;

/// How many bytes of a line are shown before a token, of the token, and after it.
const BEFORE: usize = 100;

const OF_TOKEN: usize = 60;

const BEHIND: usize = 40;

/// A line of a text with a token in it.
#[derive(Clone, Copy)]
pub struct Cut<'a> {
    /// The whole line.
    pub line: &'a [u8],
    /// The line before the token.
    pub front: &'a [u8],
    /// The bytes of the token on the line.
    pub token: &'a [u8],
    /// The line after the token.
    pub behind: &'a [u8],
}

/// The last bytes of a text, up to so many.
fn last_of(text: &[u8], most: usize) -> &[u8]
    ensures { result.now ≡ last most text.now }
{
    &text[text.len().saturating_sub(most)..]
}

/// The first bytes of a text, up to so many.
pub fn first_of(text: &[u8], most: usize) -> &[u8]
    ensures { result.now ≡ take most text.now }
{
    &text[..text.len().min(most)]
}

/// As many bytes of a word as are shown.
pub fn shortened(word: &[u8]) -> &[u8] {
    first_of(word, OF_TOKEN)
}

/// The bytes after the last line feed.
pub fn last_line(text: &[u8]) -> &[u8]
    ensures { length result.now ≤ length text.now }
{
    match text.iter().rposition(|b| *b == b'\n') {
        Some(i) => &text[i + 1..],
        None => text,
    }
}

/// How many bytes come before the first line feed.
fn line_length(text: &[u8]) -> usize
    ensures run { result ≡ length (first_of_lines text.now) }
    ensures within { result ≤ length text.now }
{
    text.iter().take_while(|b| **b != b'\n').count()
}

/// The bytes before the first line feed.
pub fn first_line(text: &[u8]) -> &[u8]
    ensures { result.now ≡ first_of_lines text.now }
{
    &text[..line_length(text)]
}

/// The bad token in its line. A token of several lines is cut at the end of the first one.
pub fn cut_at<'a>(text: &'a [u8], bad: BadToken) -> Cut<'a>
    ensures line { result.line.now ≡ line_of text.entry.now bad }
    ensures front { result.front.now ≡ before_token text.entry.now bad }
    ensures token { result.token.now ≡ of_token text.entry.now bad }
    ensures behind { result.behind.now ≡ after_token text.entry.now bad }
{
    let (before, rest) = text.split_at(text.len().min(bad.at as usize));
    let front = last_of(before, (bad.column as usize).saturating_sub(1));
    let line = first_line(rest);
    let (token, behind) = line.split_at(line.len().min(bad.length as usize));
    Cut {
        line: first_line(&text[before.len() - front.len()..]),
        front,
        token,
        behind,
    }
}

/// Two dots if a line goes on.
fn dots(goes_on: bool) -> &'static [u8]
    ensures { result.now ≡ dots_text goes_on }
{
    if goes_on { b".." } else { b"" }
}

/// The blanks under these dots.
fn under_dots(goes_on: bool) -> &'static [u8]
    ensures { result.now ≡ blanks_of_dots goes_on }
{
    if goes_on { b"  " } else { b"" }
}

/// A caret for a token without bytes.
fn lone_caret(token: &[u8]) -> &'static [u8]
    ensures { result.now ≡ caret_alone token.now }
{
    if token.is_empty() { b"^" } else { b"" }
}

impl Note {
    /// Adds a byte of a line. A tab stays one.
    fn line_byte(&mut self, byte: u8) -> Result<(), Memory>
        ensures { OnOk result (self.new.bytes.items ≡ self.old.bytes.items ++ shown_in_line byte) }
    {
        if byte == b'\t' {
            self.tab()
        } else {
            self.byte(byte)
        }
    }

    /// Adds the bytes of a line.
    fn line_bytes(&mut self, bytes: &[u8]) -> Result<(), Memory>
        ensures { OnOk result (self.new.bytes.items ≡ self.old.bytes.items ++ flat_map shown_in_line bytes.now) }
    {
        for byte in bytes {
            match self.line_byte(*byte) {
                Ok(()) => {}
                Err(_) => return Err(Memory),
            }
        }
        Ok(())
    }

    /// Adds marks under a byte of a line, as many as the byte is wide. Under a tab before the token it adds a tab.
    fn mark(&mut self, byte: u8, mark: u8) -> Result<(), Memory>
        ensures { OnOk result (self.new.bytes.items ≡ self.old.bytes.items ++ marks_under mark byte) }
    {
        if byte == b'\t' && mark == b' ' {
            self.tab()
        } else if is_printable(byte) {
            self.say(&[mark])
        } else {
            self.say(&[mark, mark, mark, mark])
        }
    }

    /// Adds marks under each of these bytes of a line.
    fn marks(&mut self, bytes: &[u8], mark: u8) -> Result<(), Memory>
        ensures { OnOk result (self.new.bytes.items ≡ self.old.bytes.items ++ flat_map (marks_under mark) bytes.now) }
    {
        for byte in bytes {
            match self.mark(*byte, mark) {
                Ok(()) => {}
                Err(_) => return Err(Memory),
            }
        }
        Ok(())
    }

    /// Adds a token between quotes, cut if it is long.
    ///
    /// # Errors
    ///
    /// `Memory` if memory runs out.
    pub fn quoted(&mut self, token: &[u8]) -> Result<(), Memory> {
        self.say(b"'")?;
        self.say(first_of(token, OF_TOKEN))?;
        self.say(if token.len() > OF_TOKEN { b"..'" } else { b"'" })
    }

    /// Adds what is shown after the first bytes of a token.
    fn after_token(&mut self, token: &[u8], behind: &[u8]) -> Result<(), Memory>
        ensures { OnOk result (self.new.bytes.items ≡ self.old.bytes.items ++ shown_after token.now behind.now) }
    {
        if token.len() > OF_TOKEN {
            return self.say(b"..");
        }
        self.line_bytes(first_of(behind, BEHIND))?;
        self.say(dots(behind.len() > BEHIND))
    }

    /// Adds the line of a token.
    fn token_line(&mut self, front: &[u8], token: &[u8], behind: &[u8]) -> Result<(), Memory>
        ensures { OnOk result (self.new.bytes.items ≡ self.old.bytes.items ++ line_text front.now token.now behind.now) }
    {
        self.say(dots(front.len() > BEFORE))?;
        self.line_bytes(last_of(front, BEFORE))?;
        self.line_bytes(first_of(token, OF_TOKEN))?;
        self.after_token(token, behind)
    }

    /// Adds a caret under each byte of a token.
    fn caret_line(&mut self, front: &[u8], token: &[u8]) -> Result<(), Memory>
        ensures { OnOk result (self.new.bytes.items ≡ self.old.bytes.items ++ marks_text front.now token.now) }
    {
        self.say(under_dots(front.len() > BEFORE))?;
        self.marks(last_of(front, BEFORE), b' ')?;
        self.say(lone_caret(token))?;
        self.marks(first_of(token, OF_TOKEN), b'^')
    }

    /// Adds the line of a token, and a caret under each of its bytes.
    ///
    /// # Errors
    ///
    /// `Memory` if memory runs out.
    pub fn source_line(&mut self, cut: Cut<'_>) -> Result<(), Memory>
        ensures { OnOk result (self.new.bytes.items ≡ self.old.bytes.items ++ both_lines cut.entry.front.now cut.entry.token.now cut.entry.behind.now) }
    {
        self.token_line(cut.front, cut.token, cut.behind)?;
        self.end_line()?;
        self.caret_line(cut.front, cut.token)?;
        self.end_line()
    }
}
