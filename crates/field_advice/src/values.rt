//! Explains a word that is no value or interval of its field.
use crate::kinds::kind_at;
use addr_text::{read_interval, read_value};
use set_model::{Kind, Memory};
use text_pieces::Piece;
use token_notes::{Explained, first_of, is_number, shortened, without_blanks};

/// A field of a set, and the word at its place.
#[derive(Clone, Copy)]
pub struct Field<'a> {
    /// The word.
    pub word: &'a [u8],
    /// The field's number, from 0.
    pub number: u64,
    /// The field's type.
    pub kind: Kind,
    /// The set's item `type`.
    pub type_item: &'a [u8],
}

/// What is wrong with a word at a field's place.
#[derive(Clone, Copy)]
pub enum WrongValue<'a> {
    /// It means several values, and the set has no flag `interval`.
    Several,
    /// A number is greater than the last of the kind.
    TooGreat(&'a [u8]),
    /// A number begins with a 0.
    LeadingZero,
    /// A prefix has more bits than a value.
    LongPrefix(&'a [u8]),
    /// A `/` isn't followed by a number.
    NoPrefix(&'a [u8]),
    /// A `/` and a mask follow a mark.
    Mask,
    /// A `/` and a protocol's name follow this port.
    Protocol(&'a [u8]),
    /// A netmask follows the `/` after this address: its bits.
    Netmask(&'a [u8], &'a [u8], u64),
    /// A range's first value is greater than its second.
    Reversed(&'a [u8], &'a [u8]),
    /// A range has a `:` or `..` in place of `-` between these values.
    Colon(&'a [u8], &'a [u8]),
    /// One end of a range is missing.
    NoEnd,
    /// It is a value of another kind.
    OtherKind(Kind),
    /// It fits another field of the set: its number, from 0.
    OtherField(u64, Kind),
    /// It is several fields without blanks between them.
    Joined,
    /// A port in hexadecimal: its number.
    Hexadecimal(u64),
    /// A service's name, and its port.
    Service(&'a [u8], u64),
    /// The word, or this end of it, is no value of any kind.
    NoValue(&'a [u8]),
}

/// How many bytes of a set's types are shown.
const OF_TYPES: usize = 250;

/// The ports of common services, by the names in /etc/services.
const SERVICES: [(&[u8], u64); 32] = [
    (b"ftp-data", 20),
    (b"ftp", 21),
    (b"ssh", 22),
    (b"telnet", 23),
    (b"smtp", 25),
    (b"domain", 53),
    (b"bootps", 67),
    (b"bootpc", 68),
    (b"tftp", 69),
    (b"http", 80),
    (b"kerberos", 88),
    (b"pop3", 110),
    (b"sunrpc", 111),
    (b"ntp", 123),
    (b"imap2", 143),
    (b"snmp", 161),
    (b"snmp-trap", 162),
    (b"bgp", 179),
    (b"ldap", 389),
    (b"https", 443),
    (b"submissions", 465),
    (b"isakmp", 500),
    (b"syslog", 514),
    (b"submission", 587),
    (b"ldaps", 636),
    (b"domain-s", 853),
    (b"imaps", 993),
    (b"pop3s", 995),
    (b"openvpn", 1194),
    (b"mysql", 3306),
    (b"postgresql", 5432),
    (b"sip", 5060),
];

/// The port of a service by its name.
pub fn port_of(name: &[u8]) -> Option<u64> {
    for (service, port) in &SERVICES {
        if *service == name {
            return Some(*port);
        }
    }
    None
}

/// A kind in words.
fn what(kind: Kind) -> &'static [u8] {
    match kind {
        Kind::Ipv4 => b"an IPv4 address",
        Kind::Ipv6 => b"an IPv6 address",
        Kind::Ether => b"an Ethernet address",
        Kind::Proto => b"a protocol",
        Kind::Service => b"a port",
        Kind::Mark => b"a mark",
    }
}

/// A kind's word in a script.
pub fn word_of(kind: Kind) -> &'static [u8] {
    match kind {
        Kind::Ipv4 => b"ipv4_addr",
        Kind::Ipv6 => b"ipv6_addr",
        Kind::Ether => b"ether_addr",
        Kind::Proto => b"inet_proto",
        Kind::Service => b"inet_service",
        Kind::Mark => b"mark",
    }
}

/// How a value of a kind is written.
fn form_of(kind: Kind) -> &'static [u8] {
    match kind {
        Kind::Ipv4 => b"write four numbers from 0 to 255 with '.' between them, as 192.0.2.1",
        Kind::Ipv6 => b"write an IPv6 address, as 2001:db8::1",
        Kind::Ether => b"write six pairs of hexadecimal digits, as 02:00:5e:10:00:01",
        Kind::Proto => b"write a number from 0 to 255, or a protocol's name in lower case, as tcp",
        Kind::Service => b"write a number from 0 to 65535",
        Kind::Mark => b"write a number from 0 to 4294967295, or 0x and 1 to 8 hexadecimal digits",
    }
}

/// The greatest number of a kind, in words.
fn last_of(kind: Kind) -> &'static [u8] {
    match kind {
        Kind::Proto => b" is greater than 255, the last protocol",
        Kind::Service => b" is greater than 65535, the last port",
        _ => b" is greater than 4294967295, the last mark",
    }
}

/// The word before its first `-` or `/`, and the rest.
pub fn first_end(word: &[u8]) -> (&[u8], &[u8]) {
    match word.iter().position(|byte| *byte == b'-' || *byte == b'/') {
        Some(place) => word.split_at(place),
        None => (word, b""),
    }
}

/// Whether a word is a range or a prefix of some kind.
pub fn is_range(word: &[u8]) -> bool {
    let has_ends = word.contains(&b'-') || word.contains(&b'/');
    for kind in [
        Kind::Ipv4,
        Kind::Ipv6,
        Kind::Ether,
        Kind::Proto,
        Kind::Service,
        Kind::Mark,
    ] {
        if has_ends && read_interval(kind, word).is_ok() {
            return true;
        }
    }
    false
}

/// The kind of address that a word is.
pub fn address_kind(word: &[u8]) -> Option<Kind> {
    for kind in [Kind::Ipv4, Kind::Ipv6, Kind::Ether] {
        if read_value(kind, word).is_ok() {
            return Some(kind);
        }
    }
    None
}

/// What is wrong with a word that isn't a port.
fn wrong_port(word: &[u8]) -> WrongValue<'_> {
    if let Some(port) = port_of(word) {
        return WrongValue::Service(word, port);
    }
    match read_value(Kind::Mark, word) {
        Ok(port) if port <= 65535 => WrongValue::Hexadecimal(port as u64),
        _ => WrongValue::NoValue(word),
    }
}

/// What is wrong with a word that isn't a single value of a kind.
fn wrong_end(kind: Kind, word: &[u8]) -> WrongValue<'_> {
    let is_address = matches!(kind, Kind::Ipv4 | Kind::Ipv6 | Kind::Ether);
    if word.is_empty() {
        return WrongValue::NoEnd;
    }
    if let Some(other) = address_kind(word) {
        return WrongValue::OtherKind(other);
    }
    match word {
        [b'0', _, ..] if is_number(word) && !is_address => WrongValue::LeadingZero,
        _ if is_number(word) && !is_address => WrongValue::TooGreat(word),
        _ if kind == Kind::Service => wrong_port(word),
        _ => WrongValue::NoValue(word),
    }
}

/// Two values of a kind with a `:` or `..` between them. Before and after a `:` the first and the last port may be missing.
fn colon_between(kind: Kind, word: &[u8]) -> Option<(&[u8], &[u8])> {
    let place = word.iter().position(|byte| *byte == b':' || *byte == b'.')?;
    let (low, behind) = word.split_at(place);
    match (low, behind) {
        (b"", [b':', high @ ..]) if kind == Kind::Service && read_value(kind, high).is_ok() => {
            return Some((b"0", high));
        }
        (_, b":") if kind == Kind::Service && read_value(kind, low).is_ok() => {
            return Some((low, b"65535"));
        }
        _ => {}
    }
    match behind {
        [b':', high @ ..] | [b'.', b'.', high @ ..]
            if read_value(kind, low).is_ok() && read_value(kind, high).is_ok() => {
            Some((low, high))
        }
        _ => None,
    }
}

/// How many bits a netmask has, as 24 for 255.255.255.0.
pub fn mask_bits(word: &[u8]) -> Option<u64> {
    let Ok(mask) = read_value(Kind::Ipv4, word) else {
        return None;
    };
    if mask > 4_294_967_295 {
        return None;
    }
    let mask = mask as u32;
    let ones = mask.count_ones();
    if ones.saturating_add(mask.trailing_zeros()) == 32 {
        Some(u64::from(ones))
    } else {
        None
    }
}

/// What is wrong with what follows the `/` after an address.
fn wrong_prefix<'a>(kind: Kind, low: &'a [u8], digits: &'a [u8]) -> WrongValue<'a> {
    if kind == Kind::Mark {
        return WrongValue::Mask;
    }
    if is_number(digits) {
        return WrongValue::LongPrefix(digits);
    }
    match mask_bits(digits) {
        Some(bits) if kind == Kind::Ipv4 => WrongValue::Netmask(low, digits, bits),
        _ if kind == Kind::Service && read_value(Kind::Proto, digits).is_ok() => {
            WrongValue::Protocol(low)
        }
        _ => WrongValue::NoPrefix(digits),
    }
}

/// What is wrong with a word that is no interval of a kind.
fn wrong_interval(kind: Kind, word: &[u8]) -> WrongValue<'_> {
    if let Some((low, high)) = colon_between(kind, word) {
        return WrongValue::Colon(low, high);
    }
    let (low, rest) = first_end(word);
    if read_value(kind, low).is_err() {
        return match wrong_end(kind, word) {
            WrongValue::NoValue(_) => wrong_end(kind, low),
            wrong => wrong,
        };
    }
    match rest {
        [b'/', digits @ ..] => wrong_prefix(kind, low, digits),
        [b'-', high @ ..] if read_value(kind, high).is_ok() => WrongValue::Reversed(low, high),
        [b'-', high @ ..] => wrong_end(kind, high),
        _ => WrongValue::NoValue(word),
    }
}

/// Whether a word is a value of a kind, and after a `.` or a `:` one of the next field's.
pub fn is_joined(field: Field<'_>) -> bool {
    let Some(next) = kind_at(field.type_item, field.number.saturating_add(1)) else {
        return false;
    };
    let Some(place) = field
        .word
        .iter()
        .rposition(|byte| *byte == b'.' || *byte == b':')
    else {
        return false;
    };
    let (front, behind) = field.word.split_at(place);
    match behind {
        [_, rest @ ..] => {
            read_interval(field.kind, front).is_ok() && read_interval(next, rest).is_ok()
        }
        [] => false,
    }
}

/// The first field of a set that a word fits.
fn fitting_field(type_item: &[u8], word: &[u8]) -> Option<(u64, Kind)> {
    for number in 0..16u64 {
        let Some(kind) = kind_at(type_item, number) else {
            return None;
        };
        if read_interval(kind, word).is_ok() {
            return Some((number, kind));
        }
    }
    None
}

/// What is wrong with the word at a field's place.
pub fn wrong_value(field: Field<'_>) -> WrongValue<'_> {
    if read_interval(field.kind, field.word).is_ok() {
        return WrongValue::Several;
    }
    if is_joined(field) {
        return WrongValue::Joined;
    }
    let wrong = wrong_interval(field.kind, field.word);
    match fitting_field(field.type_item, field.word) {
        Some((number, kind)) if !matches!(wrong, WrongValue::TooGreat(_)) => {
            WrongValue::OtherField(number, kind)
        }
        _ => wrong,
    }
}

/// The types of a set, as they are declared, cut if they are long.
pub fn types_of(type_item: &[u8]) -> &[u8] {
    let types = match type_item.strip_prefix(b"typeof") {
        Some(expressions) => expressions,
        None => type_item.strip_prefix(b"type").unwrap_or(b""),
    };
    first_of(without_blanks(types), OF_TYPES)
}

/// Says which field a word doesn't fit.
///
/// # Errors
///
/// `Memory` if memory runs out.
pub fn say_misfit(said: &mut Explained, field: Field<'_>) -> Result<(), Memory> {
    said.wrong.pieces(
        said.alloc,
        &[
            Piece::Word(b" doesn't fit field "),
            Piece::Number(field.number.saturating_add(1)),
            Piece::Word(b" ("),
            Piece::Word(word_of(field.kind)),
            Piece::Word(b"): "),
        ],
    )
}

/// Says what is wrong with a range or a prefix.
fn explain_range(said: &mut Explained, kind: Kind, wrong: WrongValue<'_>) -> Result<(), Memory> {
    match wrong {
        WrongValue::LongPrefix(digits) => said.tell(
            &[
                Piece::Word(b"/"),
                Piece::Word(shortened(digits)),
                Piece::Word(b" is longer than "),
                Piece::Word(what(kind)),
                Piece::Word(b", which has "),
                Piece::Number(u64::from(kind.bits())),
                Piece::Word(b" bits"),
            ],
            &[
                Piece::Word(b"write a prefix from /0 to /"),
                Piece::Number(u64::from(kind.bits())),
            ],
        ),
        WrongValue::NoPrefix(digits) => said.tell(
            &[
                Piece::Word(b"'"),
                Piece::Word(shortened(digits)),
                Piece::Word(b"' isn't a prefix length"),
            ],
            &[
                Piece::Word(b"write a number from 0 to "),
                Piece::Number(u64::from(kind.bits())),
                Piece::Word(b" after the '/'"),
            ],
        ),
        WrongValue::Mask => said.say(
            b"a mark in a set has no mask",
            b"write an element for each mark that is meant",
        ),
        WrongValue::Protocol(port) => said.tell(
            &[Piece::Word(b"a port is a number alone")],
            &[
                Piece::Word(b"write "),
                Piece::Word(shortened(port)),
                Piece::Word(b"; a protocol is a field of its own, of the type inet_proto"),
            ],
        ),
        WrongValue::Netmask(low, mask, bits) => said.tell(
            &[Piece::Word(shortened(mask)), Piece::Word(b" is a netmask")],
            &[
                Piece::Word(b"write the prefix length: "),
                Piece::Word(shortened(low)),
                Piece::Word(b"/"),
                Piece::Number(bits),
            ],
        ),
        WrongValue::Reversed(low, high) => said.tell(
            &[
                Piece::Word(shortened(low)),
                Piece::Word(b" is greater than "),
                Piece::Word(shortened(high)),
                Piece::Word(b", and a range begins with the smaller value"),
            ],
            &[
                Piece::Word(b"write "),
                Piece::Word(shortened(high)),
                Piece::Word(b"-"),
                Piece::Word(shortened(low)),
            ],
        ),
        WrongValue::Colon(low, high) => said.tell(
            &[Piece::Word(b"a range has '-' between its ends")],
            &[
                Piece::Word(b"write "),
                Piece::Word(shortened(low)),
                Piece::Word(b"-"),
                Piece::Word(shortened(high)),
            ],
        ),
        _ => said.say(
            b"an end of the range is missing",
            b"write both ends without blanks, as 10-20",
        ),
    }
}

/// Says what is wrong with a port.
///
/// # Errors
///
/// `Memory` if memory runs out.
pub fn explain_port(said: &mut Explained, wrong: &[u8], port: u64) -> Result<(), Memory> {
    said.tell(
        &[Piece::Word(wrong)],
        &[Piece::Word(b"use "), Piece::Number(port)],
    )
}

/// Says that a word fits another field.
fn explain_other_field(
    said: &mut Explained,
    type_item: &[u8],
    number: u64,
    kind: Kind,
) -> Result<(), Memory> {
    said.tell(
        &[
            Piece::Word(b"it fits field "),
            Piece::Number(number.saturating_add(1)),
            Piece::Word(b" ("),
            Piece::Word(word_of(kind)),
            Piece::Word(b")"),
        ],
        &[
            Piece::Word(b"the set's type is "),
            Piece::Word(types_of(type_item)),
        ],
    )
}

/// Says that a word is no value of a kind.
///
/// # Errors
///
/// `Memory` if memory runs out.
pub fn say_no_value(said: &mut Explained, kind: Kind) -> Result<(), Memory> {
    said.wrong.say(b"it isn't ")?;
    said.say(what(kind), form_of(kind))
}

/// Says what is wrong with a word at a field's place, after the field.
///
/// # Errors
///
/// `Memory` if memory runs out.
pub fn explain_wrong_value(
    said: &mut Explained,
    field: Field<'_>,
    wrong: WrongValue<'_>,
) -> Result<(), Memory> {
    let kind = field.kind;
    match wrong {
        WrongValue::TooGreat(number) => {
            said.wrong.say(shortened(number))?;
            said.say(last_of(kind), form_of(kind))
        }
        WrongValue::LeadingZero => said.say(b"a number has no leading zero", form_of(kind)),
        WrongValue::OtherKind(other) => {
            said.wrong.say(b"it is ")?;
            said.say(what(other), form_of(kind))
        }
        WrongValue::OtherField(number, other) => {
            explain_other_field(said, field.type_item, number, other)
        }
        WrongValue::Joined => said.say(
            b"it is two fields in one word",
            b"write a '.' with blanks around it between fields, as 192.0.2.1 . 80",
        ),
        WrongValue::Hexadecimal(port) => explain_port(said, b"a port is a decimal number", port),
        WrongValue::Service(name, port) if name.len() < field.word.len() => said.tell(
            &[Piece::Word(b"a port is a number and not a name")],
            &[
                Piece::Word(b"use "),
                Piece::Number(port),
                Piece::Word(b" for '"),
                Piece::Word(name),
                Piece::Word(b"'"),
            ],
        ),
        WrongValue::Service(_, port) => {
            explain_port(said, b"a port is a number and not a name", port)
        }
        WrongValue::NoValue([.., b'.']) if kind == Kind::Ipv4 => said.say(
            b"it isn't an IPv4 address",
            b"write a network as a prefix, as 192.0.2.0/24",
        ),
        WrongValue::NoValue(word) if word.len() == field.word.len() => say_no_value(said, kind),
        WrongValue::NoValue(word) => said.tell(
            &[
                Piece::Word(b"'"),
                Piece::Word(shortened(word)),
                Piece::Word(b"' isn't "),
                Piece::Word(what(kind)),
            ],
            &[Piece::Word(form_of(kind))],
        ),
        _ => explain_range(said, kind, wrong),
    }
}

/// The name in a string.
pub fn unquoted(text: &[u8]) -> &[u8] {
    match text {
        [b'"', name @ .., b'"'] => name,
        _ => text,
    }
}

/// Explains a string in the place of one value or of several.
///
/// # Errors
///
/// `Memory` if memory runs out.
pub fn explain_string(said: &mut Explained, text: &[u8]) -> Result<(), Memory> {
    if text.contains(&b' ') {
        return said.say(
            b" is a string, and values are expected",
            b"leave out the quotes, as: 192.0.2.1 . 80",
        );
    }
    said.say(
        b" is a string, and a value is expected",
        b"write the value without quotes",
    )
}

/// Explains an element or a key that has too few fields, or too many.
///
/// # Errors
///
/// `Memory` if memory runs out.
pub fn explain_fields(
    said: &mut Explained,
    wrong: &[u8],
    number: u64,
    type_item: &[u8],
) -> Result<(), Memory> {
    said.tell(
        &[
            Piece::Word(wrong),
            Piece::Number(number),
            Piece::Word(if number == 1 { b" field" } else { b" fields" }),
        ],
        &[
            Piece::Word(b"the set's type is "),
            Piece::Word(types_of(type_item)),
        ],
    )
}
