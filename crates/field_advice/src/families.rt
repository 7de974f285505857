//! Explains a word in the place of a family: what is meant by it.
use set_model::Memory;
use text_pieces::Piece;
use token_notes::{Explained, is_family, is_same_in_lower_case, nearest, shortened};

const FAMILIES: [&[u8]; 6] = [b"ip", b"ip6", b"inet", b"arp", b"bridge", b"netdev"];

/// Words that are taken for families, and the families that are meant. The case of letters doesn't count.
const OTHER_FAMILIES: [(&[u8], &[u8]); 11] = [
    (b"ip4", b"ip"),
    (b"ipv4", b"ip"),
    (b"inet4", b"ip"),
    (b"ipv6", b"ip6"),
    (b"inet6", b"ip6"),
    (b"ip", b"ip"),
    (b"ip6", b"ip6"),
    (b"inet", b"inet"),
    (b"arp", b"arp"),
    (b"bridge", b"bridge"),
    (b"netdev", b"netdev"),
];

/// The family that is meant by a word that is none.
pub fn family_meant(word: &[u8]) -> Option<&'static [u8]> {
    if is_family(word) {
        return None;
    }
    for (other, family) in &OTHER_FAMILIES {
        if is_same_in_lower_case(word, other) {
            return Some(*family);
        }
    }
    None
}

/// Explains a token that can't come at its place, since this word before it is in the place of a family and is none.
///
/// # Errors
///
/// `Memory` if memory runs out.
pub fn explain_family(said: &mut Explained, word: &[u8]) -> Result<(), Memory> {
    said.wrong.pieces(
        said.alloc,
        &[
            Piece::Word(b" can't come here: '"),
            Piece::Word(shortened(word)),
            Piece::Word(b"' isn't a family"),
        ],
    )?;
    let meant = match family_meant(word) {
        Some(family) => Some(family),
        None => nearest(said.alloc, word, &FAMILIES)?,
    };
    match meant {
        Some(family) => said.help.pieces(
            said.alloc,
            &[
                Piece::Word(b"write '"),
                Piece::Word(family),
                Piece::Word(b"' in place of '"),
                Piece::Word(shortened(word)),
                Piece::Word(b"'"),
            ],
        ),
        None => said
            .help
            .say(b"the families are ip, ip6, inet, arp, bridge and netdev"),
    }
}
