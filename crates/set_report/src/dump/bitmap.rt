// A row of a table as hexadecimal text.
ghost use Rattle.std.specs.Prelude.{◌≡◌, ◌<◌, ◌++◌, ◌==◌, Bool, List, length, zip, OnOk, OnErr};
ghost use Rattle.std.specs.List.{list_all};
ghost use Rattle.std.specs.Char.{digit_char};
ghost use Rattle.addr_text.specs.Written.{hex_text};
ghost use Rattle.bit_rows.specs.Row.{IsSpelling};
ghost use Rattle.set_report.specs.DumpText.{byte_of, bitmap_text, same_bitmap, is_any_set};
ghost use Rattle.text_pieces.specs.Appends.{AppendsPart};

use bit_rows::BitRow;
use set_model::Memory;
use text_pieces::Piece::Word;
use text_pieces::append_pieces;

/// Whether some place of the row is set.
pub(crate) fn is_any_set(row: &BitRow) -> bool
    ensures { result ≡ is_any_set row.now.bits }
{
    row.next_set(0).is_some()
}

/// Whether two rows of one length have the same places set.
pub(crate) fn is_same(row: &BitRow, other: &BitRow) -> bool
    requires { length row.now.bits ≡ length other.now.bits }
    ensures { result ≡ same_bitmap row.now.bits other.now.bits }
{
    is_same_words(row.words(), other.words())
}

/// Whether the words of two rows of one length have the same places set. One row may have more words,
/// since its room is larger. The words past its end are 0.
fn is_same_words(words: &[u64], others: &[u64]) -> bool
    ensures { (bits other_bits : List Bool) → IsSpelling words.now bits → IsSpelling others.now other_bits → length bits ≡ length other_bits
        → result ≡ same_bitmap bits other_bits }
{
    is_same_so_far(words, others)
}

/// Whether two lists of words are the same as far as both have words.
fn is_same_so_far(words: &[u64], others: &[u64]) -> bool
    ensures { result ≡ list_all (λ p. p.0 == p.1) (zip words.now others.now) }
{
    words
        .iter()
        .zip(others)
        .all(|(word, other)| *word == *other)
}

/// The eight places from place `8 * j` on. The first is the lowest bit.
fn byte_at(row: &BitRow, j: u32) -> u8
    ensures { result ≡ byte_of row.now.bits j }
{
    ((row.word(j / 8) >> (j % 8 * 8)) % 256) as u8
}

fn hex_digit(digit: u8) -> u8
    requires { digit < 16 }
    ensures { result ≡ digit_char digit }
{
    if digit < 10 {
        b'0' + digit
    } else {
        b'a' + (digit - 10)
    }
}

fn write_byte(byte: u8, out: &mut Vec<u8>) -> Result<(), Memory>
    ensures ok { OnOk result (out.new.items ≡ out.old.items ++ hex_text 2 byte) }
    ensures err { OnErr result (AppendsPart out.old.items out.new.items (hex_text 2 byte)) }
{
    let digits = [hex_digit(byte / 16), hex_digit(byte % 16)];
    append_pieces(&[Word(&digits)], out)
}

/// Appends a row in hexadecimal, two digits for each eight places.
pub(crate) fn write_bitmap(row: &BitRow, out: &mut Vec<u8>) -> Result<(), Memory>
    ensures ok { OnOk result (out.new.items ≡ out.old.items ++ bitmap_text row.now.bits) }
    ensures err { OnErr result (AppendsPart out.old.items out.new.items (bitmap_text row.now.bits)) }
{
    'bytes: for j in 0..row.len().div_ceil(8) {
        write_byte(byte_at(row, j), out)?;
    }
    Ok(())
}
