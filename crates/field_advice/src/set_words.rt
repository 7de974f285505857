//! A set by its three words: family, table and name.
use set_model::{Family, SetDecl};
use token_notes::{is_family, word_at};

/// A set by its three words.
#[derive(Clone, Copy)]
pub struct SetWords<'a> {
    /// Its family's word, as `ip`.
    pub family: &'a [u8],
    /// Its table's name.
    pub table: &'a [u8],
    /// Its own name.
    pub name: &'a [u8],
}

fn family_word(family: Family) -> &'static [u8] {
    match family {
        Family::Ip => b"ip",
        Family::Ip6 => b"ip6",
        Family::Inet => b"inet",
        Family::Arp => b"arp",
        Family::Bridge => b"bridge",
        Family::Netdev => b"netdev",
    }
}

/// The three words of a set that is declared.
pub fn words_of(set: &SetDecl) -> SetWords<'_> {
    SetWords {
        family: family_word(set.family),
        table: set.table.as_slice(),
        name: set.name.as_slice(),
    }
}

/// Whether two sets have the same words.
pub fn is_same(words: SetWords<'_>, others: SetWords<'_>) -> bool {
    words.family == others.family && words.table == others.table && words.name == others.name
}

/// The set that a statement names, from this word on. Without a family it is `ip`.
pub fn set_named(statement: &[u8], number: u64) -> SetWords<'_> {
    let first = word_at(statement, number);
    let second = word_at(statement, number.saturating_add(1));
    if is_family(first) {
        SetWords {
            family: first,
            table: second,
            name: word_at(statement, number.saturating_add(2)),
        }
    } else {
        SetWords {
            family: b"ip",
            table: first,
            name: second,
        }
    }
}
