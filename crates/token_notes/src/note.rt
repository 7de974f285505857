ghost use Rattle.std.specs.Prelude.{◌≡◌, ◌+◌, ◌<◌, ◌++◌, ◌∷◌, [], List, ℕ, All, OnOk, IfOk, IsTrue, decimal};
ghost use Rattle.token_notes.specs.Shown.{IsNoteByte, hex_digit, is_printable as is_printable_byte, shown, shown_byte, place_text, byte_text, name_text};

use itoa::Buffer;
use set_model::Memory;
use std::alloc::Global;
use text_pieces::append;

/// A text for a person. It has only printable ASCII, tabs and line feeds. So no byte of a file or a
/// name moves a terminal.
#[derive(Drop)]
pub struct Note {
    bytes: Vec<u8>,
    ghost quiet: { All IsNoteByte bytes.items },
}

pub(crate) fn is_printable(byte: u8) -> bool
    ensures { result ≡ is_printable_byte byte }
{
    32 <= byte && byte <= 126
}

/// A digit of a hexadecimal number.
fn hex(digit: u8) -> u8
    requires { digit < 16 }
    ensures digit { result ≡ hex_digit digit }
    ensures printable { IsTrue (is_printable_byte result) }
{
    if digit <= 9 { 48 + digit } else { 87 + digit }
}

impl Note {
    /// An empty note. It takes no memory.
    pub fn new(alloc: Global) -> Note
        ensures { result.bytes.items ≡ [] }
    {
        Note {
            bytes: Vec::new(alloc),
        }
    }

    /// The note's bytes: whole lines.
    pub fn as_slice(&self) -> &[u8]
        ensures bytes { result.now ≡ self.now.bytes.items }
        ensures quiet { All IsNoteByte result.now }
    {
        self.bytes.as_slice()
    }

    fn append(&mut self, bytes: &[u8]) -> Result<(), Memory>
        requires { All IsNoteByte bytes.now }
        ensures { OnOk result (self.new.bytes.items ≡ self.old.bytes.items ++ bytes.now) }
    {
        self.bytes.extend_from_slice(bytes)?;
        Ok(())
    }

    /// Adds a byte, or its number if it isn't printable.
    pub(crate) fn byte(&mut self, byte: u8) -> Result<(), Memory>
        ensures { OnOk result (self.new.bytes.items ≡ self.old.bytes.items ++ shown_byte byte) }
    {
        if is_printable(byte) {
            self.append(&[byte])
        } else {
            self.append(&[b'\\', b'x', hex(byte / 16), hex(byte % 16)])
        }
    }

    /// Adds a text, with each byte as it is shown.
    ///
    /// # Errors
    ///
    /// `Memory` if memory runs out.
    pub fn say(&mut self, text: &[u8]) -> Result<(), Memory>
        ensures { OnOk result (self.new.bytes.items ≡ self.old.bytes.items ++ shown text.now) }
    {
        for byte in text {
            match self.byte(*byte) {
                Ok(()) => {}
                Err(_) => return Err(Memory),
            }
        }
        Ok(())
    }

    /// Adds a number in decimal.
    ///
    /// # Errors
    ///
    /// `Memory` if memory runs out.
    pub fn number(&mut self, n: u64) -> Result<(), Memory>
        ensures { OnOk result (self.new.bytes.items ≡ self.old.bytes.items ++ shown (decimal n)) }
    {
        let mut digits = Buffer::new();
        self.say(digits.format(n).as_bytes())
    }

    /// Adds the name of a text, and a place in it.
    ///
    /// # Errors
    ///
    /// `Memory` if memory runs out.
    #[tactic(auto, using(crate::proofs::ShownLaws::shown_both))]
    pub fn place(&mut self, name: &[u8], line: u64, column: u64) -> Result<(), Memory>
        ensures { OnOk result (self.new.bytes.items ≡ self.old.bytes.items ++ place_text name.now line column) }
    {
        self.say(name)?;
        self.say(b":")?;
        self.number(line)?;
        self.say(b":")?;
        self.number(column)?;
        self.say(b": ")
    }

    /// Adds the name of a file, and a byte's place in it.
    ///
    /// # Errors
    ///
    /// `Memory` if memory runs out.
    #[tactic(auto, using(crate::proofs::ShownLaws::shown_both))]
    pub fn byte_place(&mut self, name: &[u8], byte: u64) -> Result<(), Memory>
        ensures { OnOk result (self.new.bytes.items ≡ self.old.bytes.items ++ byte_text name.now byte) }
    {
        self.say(name)?;
        self.say(b": byte ")?;
        self.number(byte)?;
        self.say(b": ")
    }

    /// Adds the name of a file.
    ///
    /// # Errors
    ///
    /// `Memory` if memory runs out.
    #[tactic(auto, using(crate::proofs::ShownLaws::shown_both))]
    pub fn file(&mut self, name: &[u8]) -> Result<(), Memory>
        ensures { OnOk result (self.new.bytes.items ≡ self.old.bytes.items ++ name_text name.now) }
    {
        self.say(name)?;
        self.say(b": ")
    }

    /// Adds a tab.
    pub(crate) fn tab(&mut self) -> Result<(), Memory>
        ensures { OnOk result (self.new.bytes.items ≡ self.old.bytes.items ++ 9 ∷ []) }
    {
        self.append(b"\t")
    }

    /// Ends a line.
    ///
    /// # Errors
    ///
    /// `Memory` if memory runs out.
    pub fn end_line(&mut self) -> Result<(), Memory>
        ensures { OnOk result (self.new.bytes.items ≡ self.old.bytes.items ++ 10 ∷ []) }
    {
        self.append(b"\n")
    }

    /// Adds another note.
    ///
    /// # Errors
    ///
    /// `Memory` if memory runs out.
    pub fn join(&mut self, other: &Note) -> Result<(), Memory>
        ensures { OnOk result (self.new.bytes.items ≡ self.old.bytes.items ++ other.now.bytes.items) }
    {
        self.append(other.as_slice())
    }
}
