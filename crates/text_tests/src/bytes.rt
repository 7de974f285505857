//! Captures in words: a word is a part that has a name here, or hexadecimal digits.
use set_model::Memory;
use std::alloc::Global;

/// The words that have a name, with their bytes.
const NAMED: [(&[u8], &[u8]); 17] = [
    (b"zero", b"\0\0\0\0"),
    // the header of a capture of raw IP, and of Ethernet, in microseconds, the least significant byte first
    (
        b"raw",
        b"\xd4\xc3\xb2\xa1\x02\0\x04\0\0\0\0\0\0\0\0\0\0\0\x04\0\x65\0\0\0",
    ),
    (
        b"ethernet",
        b"\xd4\xc3\xb2\xa1\x02\0\x04\0\0\0\0\0\0\0\0\0\0\0\x04\0\x01\0\0\0",
    ),
    // the header of a capture up to the link type
    (
        b"linked",
        b"\xd4\xc3\xb2\xa1\x02\0\x04\0\0\0\0\0\0\0\0\0\0\0\x04\0",
    ),
    // section headers of pcapng in both orders, and an interface of raw IP in the first order
    (
        b"section",
        b"\x0a\x0d\x0d\x0a\x1c\0\0\0\x4d\x3c\x2b\x1a\x01\0\0\0\xff\xff\xff\xff\xff\xff\xff\xff\x1c\0\0\0",
    ),
    (
        b"bigsection",
        b"\x0a\x0d\x0d\x0a\0\0\0\x1c\x1a\x2b\x3c\x4d\0\x01\0\0\xff\xff\xff\xff\xff\xff\xff\xff\0\0\0\x1c",
    ),
    (
        b"interface",
        b"\x01\0\0\0\x14\0\0\0\x65\0\0\0\0\0\x04\0\x14\0\0\0",
    ),
    // a record's header: 1.5 seconds, 28 bytes kept
    (b"record", b"\x01\0\0\0\x20\xa1\x07\0\x1c\0\0\0\x1c\0\0\0"),
    // to 00:01:02:0a:0b:0c, from 02:00:00:00:00:01
    (b"stations", b"\0\x01\x02\x0a\x0b\x0c\x02\0\0\0\0\x01"),
    (b"customer", b"\x81\0\0\x64"),
    (b"service", b"\x88\xa8\0\x65"),
    // the first 12 bytes of an IPv4 header, of UDP; from 192.168.1.5 to 10.0.0.5
    (b"ipv4", b"\x45\0\0\x1c\0\0\0\0\x40\x11\0\0"),
    (b"addresses", b"\xc0\xa8\x01\x05\x0a\0\0\x05"),
    // the first 8 bytes of an IPv6 header, of TCP; from 2001:db8::1 to 2001:db8::2
    (b"ipv6", b"\x60\0\0\0\0\x14\x06\x40"),
    (
        b"addresses6",
        b"\x20\x01\x0d\xb8\0\0\0\0\0\0\0\0\0\0\0\x01\x20\x01\x0d\xb8\0\0\0\0\0\0\0\0\0\0\0\x02",
    ),
    // from 1234 to 2048, and the length and the checksum of an UDP header
    (b"ports", b"\x04\xd2\x08\0"),
    (b"udp", b"\0\x08\0\0"),
];

/// The bytes of a word that has a name.
fn named(word: &[u8]) -> Option<&'static [u8]> {
    for (name, bytes) in NAMED {
        if name == word {
            return Some(bytes);
        }
    }
    None
}

fn digit(byte: u8) -> u8 {
    match byte {
        b'0'..=b'9' => byte - b'0',
        b'a'..=b'f' => byte - b'a' + 10,
        _ => 0,
    }
}

/// Appends the bytes of hexadecimal digits.
fn append_digits(digits: &[u8], bytes: &mut Vec<u8>) -> Result<(), Memory> {
    for pair in digits.chunks(2) {
        if let [high, low] = pair {
            bytes.push(digit(*high) << 4 | digit(*low))?;
        }
    }
    Ok(())
}

/// The bytes of words.
pub fn bytes_of(alloc: Global, words: &[u8]) -> Result<Vec<u8>, Memory> {
    let mut bytes = Vec::new(alloc);
    for word in words.split(|byte| *byte == b' ') {
        match named(word) {
            Some(part) => bytes.extend_from_slice(part)?,
            None => append_digits(word, &mut bytes)?,
        }
    }
    Ok(bytes)
}
