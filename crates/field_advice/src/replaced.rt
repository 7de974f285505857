//! Finds the types and the selectors that words of other programs mean.
use crate::kinds::kind_at;
use crate::selectors::{Selected, field_in_wireshark, field_named};
use crate::values::word_of;
use set_model::{Kind, Memory};
use text_pieces::Piece;
use token_forms::Tokens;
use token_notes::{Explained, bytes_of, word_at};

/// How many fields a set has at most.
const MOST_FIELDS: u64 = 16;

/// Words that are taken for types, and the types that are meant.
const OTHER_TYPES: [(&[u8], &[u8]); 14] = [
    (b"inet_port", b"inet_service"),
    (b"port", b"inet_service"),
    (b"service", b"inet_service"),
    (b"tcp_port", b"inet_service"),
    (b"udp_port", b"inet_service"),
    (b"proto", b"inet_proto"),
    (b"protocol", b"inet_proto"),
    (b"ip", b"ipv4_addr"),
    (b"ip_addr", b"ipv4_addr"),
    (b"ip6", b"ipv6_addr"),
    (b"ip6_addr", b"ipv6_addr"),
    (b"mac", b"ether_addr"),
    (b"mac_addr", b"ether_addr"),
    (b"lladdr", b"ether_addr"),
];

/// The type that is meant by a word that is taken for one.
pub fn type_meant(word: &[u8]) -> Option<&'static [u8]> {
    for (other, kind) in &OTHER_TYPES {
        if *other == word {
            return Some(*kind);
        }
    }
    None
}

/// What a line is to have in the place of words of other programs.
#[derive(Clone, Copy)]
pub enum Wanted<'a> {
    /// Types, in a set's item `type`.
    Types,
    /// Selectors, in a plan: for the set with this item `type`, from the field of this number on. Without the item they may
    /// be of any type.
    Selectors(&'a [u8], u64),
}

/// One or two words of another program, and the word that takes their place. The second one may be empty.
#[derive(Clone, Copy)]
struct Replaced<'a> {
    word: &'static [u8],
    first: &'a [u8],
    second: &'a [u8],
}

/// The words of a line between two `.`, counted from 0. It is empty if there are none.
fn part_at(line: &[u8], number: u64) -> &[u8] {
    let mut seen = 0u64;
    let mut from = 0usize;
    for token in Tokens::new(line) {
        let is_dot = bytes_of(line, token) == b".".as_slice();
        if is_dot && seen == number {
            return line.get(from..token.from as usize).unwrap_or(b"");
        }
        if is_dot {
            seen = seen.saturating_add(1);
            from = token.to as usize;
        }
    }
    if seen == number {
        line.get(from..).unwrap_or(b"")
    } else {
        b""
    }
}

/// The word for a packet's field in the place of this number.
fn word_wanted(wanted: Wanted<'_>, number: u64, field: Selected) -> Option<&'static [u8]> {
    match wanted {
        Wanted::Types => Some(word_of(field.kind)),
        Wanted::Selectors(b"", _) if field.kind != Kind::Mark => Some(field.selector),
        Wanted::Selectors(type_item, first) => {
            match kind_at(type_item, first.saturating_add(number)) {
                Some(kind) if kind == field.kind && kind != Kind::Mark => Some(field.selector),
                _ => None,
            }
        }
    }
}

/// The words in the place of this number that another word is to replace, if they are known.
fn replaced_at<'a>(line: &'a [u8], number: u64, wanted: Wanted<'_>) -> Option<Replaced<'a>> {
    let part = part_at(line, number);
    let (first, second) = (word_at(part, 0), word_at(part, 1));
    if let Some(field) = field_in_wireshark(first) {
        let word = word_wanted(wanted, number, field)?;
        return Some(Replaced {
            word,
            first,
            second: b"",
        });
    }
    if let Some(field) = field_named(first, second) {
        let word = word_wanted(wanted, number, field)?;
        return Some(Replaced {
            word,
            first,
            second,
        });
    }
    match wanted {
        Wanted::Types => {
            let word = type_meant(first)?;
            Some(Replaced {
                word,
                first,
                second: b"",
            })
        }
        Wanted::Selectors(_, _) => None,
    }
}

/// Whether a line begins with words that another word is to replace.
pub fn begins_with_replaced(line: &[u8], wanted: Wanted<'_>) -> bool {
    replaced_at(line, 0, wanted).is_some()
}

/// Whether another word is to replace words of a line after its first `.`.
pub fn has_further_replaced(line: &[u8], wanted: Wanted<'_>) -> bool {
    for number in 1..MOST_FIELDS {
        if replaced_at(line, number, wanted).is_some() {
            return true;
        }
    }
    false
}

/// Adds which word takes the place of others.
fn add_replaced<'x>(
    said: &mut Explained,
    front: &'x [u8],
    replaced: Replaced<'x>,
) -> Result<(), Memory> {
    let Replaced {
        word,
        first,
        second,
    } = replaced;
    said.tell(
        &[],
        &[
            Piece::Word(front),
            Piece::Word(word),
            Piece::Word(b" in place of '"),
            Piece::Word(first),
            Piece::Word(if second.is_empty() { b"" } else { b" " }),
            Piece::Word(second),
            Piece::Word(b"'"),
        ],
    )
}

/// Says what to write in place of all words of a line that name a packet's field as other programs do.
///
/// # Errors
///
/// `Memory` if memory runs out.
pub fn tell_replaced(said: &mut Explained, line: &[u8], wanted: Wanted<'_>) -> Result<(), Memory> {
    let mut front: &[u8] = b"write ";
    for number in 0..MOST_FIELDS {
        if let Some(replaced) = replaced_at(line, number, wanted) {
            match add_replaced(said, front, replaced) {
                Ok(()) => front = b", and ",
                Err(_) => return Err(Memory),
            }
        }
    }
    Ok(())
}
