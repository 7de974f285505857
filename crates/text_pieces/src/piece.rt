ghost use Rattle.std.specs.Prelude.{◌≡◌, ◌++◌, OnOk, OnErr, Some, decimal, flat_map};
ghost use Rattle.set_model.specs.Text.{family_text, numbered, set_text};
ghost use Rattle.addr_text.specs.Written.{time_text};
ghost use Rattle.text_pieces.specs.Pieces.{packet_front, piece_text, thread_front};
ghost use Rattle.text_pieces.specs.Appends.{AppendsPart};

use addr_text::write_time;
use itoa::Buffer;
use set_model::{Family, Line, Memory, SetDecl};

/// A piece of a line.
#[derive(Clone, Copy)]
pub enum Piece<'a> {
    /// Bytes, which are appended unchanged.
    Word(&'a [u8]),
    /// A number in decimal.
    Number(u64),
    /// A large number in decimal, such as a sum of many.
    Sum(u128),
    /// A time in milliseconds, written like `1h30m`.
    Time(u64),
    /// A set: its family, its table's name and its own name.
    Set(&'a SetDecl),
    /// A packet, its thread and its generation: the front of its line.
    Packet(&'a Line),
}

/// Appends bytes.
///
/// # Errors
///
/// `Memory` if memory runs out. A front of the bytes is then appended.
#[tactic(auto, using(crate::proofs::PartLaws::none_part))]
pub fn append(bytes: &[u8], out: &mut Vec<u8>) -> Result<(), Memory>
    ensures ok { OnOk result (out.new.items ≡ out.old.items ++ bytes.now) }
    ensures err { OnErr result (AppendsPart out.old.items out.new.items bytes.now) }
{
    out.extend_from_slice(bytes)?;
    Ok(())
}

fn append_number(n: u64, out: &mut Vec<u8>) -> Result<(), Memory>
    ensures ok { OnOk result (out.new.items ≡ out.old.items ++ decimal n) }
    ensures err { OnErr result (AppendsPart out.old.items out.new.items (decimal n)) }
{
    let mut digits = Buffer::new();
    append(digits.format(n).as_bytes(), out)
}

fn append_sum(n: u128, out: &mut Vec<u8>) -> Result<(), Memory>
    ensures ok { OnOk result (out.new.items ≡ out.old.items ++ decimal n) }
    ensures err { OnErr result (AppendsPart out.old.items out.new.items (decimal n)) }
{
    let mut digits = Buffer::new();
    append(digits.format(n).as_bytes(), out)
}

#[tactic(auto, using(crate::proofs::PartLaws::none_part))]
fn append_time(ms: u64, out: &mut Vec<u8>) -> Result<(), Memory>
    ensures ok { OnOk result (out.new.items ≡ out.old.items ++ time_text ms) }
    ensures err { OnErr result (AppendsPart out.old.items out.new.items (time_text ms)) }
{
    write_time(ms, out)
}

/// The name of a family in nft(8).
pub fn family_word(family: Family) -> &'static [u8]
    ensures { result.now ≡ family_text family }
{
    match family {
        Family::Ip => b"ip",
        Family::Ip6 => b"ip6",
        Family::Inet => b"inet",
        Family::Arp => b"arp",
        Family::Bridge => b"bridge",
        Family::Netdev => b"netdev",
    }
}

#[tactic(auto, using(crate::proofs::PartLaws::item_part))]
fn append_words(words: &[&[u8]], out: &mut Vec<u8>) -> Result<(), Memory>
    ensures ok { OnOk result (out.new.items ≡ out.old.items ++ flat_map (λ word. word.now) words.now) }
    ensures err { OnErr result (AppendsPart out.old.items out.new.items (flat_map (λ word. word.now) words.now)) }
{
    for word in words {
        append(word, out)?;
    }
    Ok(())
}

/// Appends three words with a separator between them.
fn append_joined<'a>(
    first: &'a [u8],
    second: &'a [u8],
    third: &'a [u8],
    separator: &'a [u8],
    out: &mut Vec<u8>,
) -> Result<(), Memory>
    ensures ok { OnOk result (out.new.items ≡ out.old.items ++ (first.now ++ separator.now ++ second.now ++ separator.now ++ third.now)) }
    ensures err { OnErr result (AppendsPart out.old.items out.new.items (first.now ++ separator.now ++ second.now ++ separator.now ++ third.now)) }
{
    append_words(&[first, separator, second, separator, third], out)
}

fn append_set(set: &SetDecl, out: &mut Vec<u8>) -> Result<(), Memory>
    ensures ok { OnOk result (out.new.items ≡ out.old.items ++ set_text (Some set.now)) }
    ensures err { OnErr result (AppendsPart out.old.items out.new.items (set_text (Some set.now))) }
{
    append_joined(
        family_word(set.family),
        set.table.as_slice(),
        set.name.as_slice(),
        b" ",
        out,
    )
}

/// Appends a word, a blank and a number.
#[tactic(auto, using(crate::proofs::TwoParts::two_parts))]
fn append_numbered(word: &[u8], n: u64, out: &mut Vec<u8>) -> Result<(), Memory>
    ensures ok { OnOk result (out.new.items ≡ out.old.items ++ numbered word.now n) }
    ensures err { OnErr result (AppendsPart out.old.items out.new.items (numbered word.now n)) }
{
    append_words(&[word, b" "], out)?;
    append_number(n, out)
}

/// Appends the thread and the generation of a packet's line.
#[tactic(auto, using(crate::proofs::TwoParts::two_parts))]
fn append_thread(line: &Line, out: &mut Vec<u8>) -> Result<(), Memory>
    ensures ok { OnOk result (out.new.items ≡ out.old.items ++ thread_front line.now) }
    ensures err { OnErr result (AppendsPart out.old.items out.new.items (thread_front line.now)) }
{
    append_numbered(b" thread", u64::from(line.thread), out)?;
    append_numbered(b" generation", line.generation, out)
}

#[tactic(auto, using(crate::proofs::TwoParts::two_parts))]
fn append_packet(line: &Line, out: &mut Vec<u8>) -> Result<(), Memory>
    ensures ok { OnOk result (out.new.items ≡ out.old.items ++ packet_front line.now) }
    ensures err { OnErr result (AppendsPart out.old.items out.new.items (packet_front line.now)) }
{
    append_numbered(b"packet", line.packet, out)?;
    append_thread(line, out)
}

fn append_piece(piece: &Piece, out: &mut Vec<u8>) -> Result<(), Memory>
    ensures ok { OnOk result (out.new.items ≡ out.old.items ++ piece_text piece.now) }
    ensures err { OnErr result (AppendsPart out.old.items out.new.items (piece_text piece.now)) }
{
    match *piece {
        Piece::Word(bytes) => append(bytes, out),
        Piece::Number(n) => append_number(n, out),
        Piece::Sum(n) => append_sum(n, out),
        Piece::Time(ms) => append_time(ms, out),
        Piece::Set(set) => append_set(set, out),
        Piece::Packet(line) => append_packet(line, out),
    }
}

/// Appends pieces, one after another.
///
/// # Errors
///
/// `Memory` if memory runs out. A front of their text is then appended.
#[tactic(auto, using(crate::proofs::PartLaws::item_part))]
pub fn append_pieces(pieces: &[Piece], out: &mut Vec<u8>) -> Result<(), Memory>
    ensures ok { OnOk result (out.new.items ≡ out.old.items ++ flat_map piece_text pieces.now) }
    ensures err { OnErr result (AppendsPart out.old.items out.new.items (flat_map piece_text pieces.now)) }
{
    for piece in pieces {
        append_piece(piece, out)?;
    }
    Ok(())
}
