ghost use Rattle.std.specs.Prelude.{◌≡◌, ◌≤◌, length};
ghost use Rattle.pcap_keys.specs.Savefile as savefile;

use byteorder::{BigEndian, ByteOrder, LittleEndian};

/// The byte order of the numbers in a capture's headers.
#[derive(Clone, Copy, Debug, PartialEq, Eq)]
pub enum Order {
    /// The most significant byte first.
    Big,
    /// The least significant byte first.
    Little,
}

/// The unit of the fraction of a second in a record's time.
#[derive(Clone, Copy, Debug, PartialEq, Eq)]
pub enum Fraction {
    /// Microseconds.
    Micro,
    /// Nanoseconds.
    Nano,
}

/// What a capture's magic says of its headers.
#[derive(Clone, Copy, Debug, PartialEq, Eq)]
pub struct Format {
    /// The byte order of its numbers.
    pub order: Order,
    /// The unit of its times' fractions.
    pub fraction: Fraction,
}

impl Order {
    /// The number in the first two bytes.
    #[tactic(auto, unfolding(crate::specs::Savefile::number))]
    pub fn read_u16(self, bytes: &[u8]) -> u16
        requires { 2 ≤ length bytes.now }
        ensures { result ≡ savefile.number self 2 bytes.now }
    {
        match self {
            Order::Big => BigEndian::read_u16(bytes),
            Order::Little => LittleEndian::read_u16(bytes),
        }
    }

    /// The number in the first four bytes.
    #[tactic(auto, unfolding(crate::specs::Savefile::number))]
    pub fn read_u32(self, bytes: &[u8]) -> u32
        requires { 4 ≤ length bytes.now }
        ensures { result ≡ savefile.number self 4 bytes.now }
    {
        match self {
            Order::Big => BigEndian::read_u32(bytes),
            Order::Little => LittleEndian::read_u32(bytes),
        }
    }

    /// The number in the first eight bytes.
    #[tactic(auto, unfolding(crate::specs::Savefile::number))]
    pub fn read_u64(self, bytes: &[u8]) -> u64
        requires { 8 ≤ length bytes.now }
        ensures { result ≡ savefile.number self 8 bytes.now }
    {
        match self {
            Order::Big => BigEndian::read_u64(bytes),
            Order::Little => LittleEndian::read_u64(bytes),
        }
    }
}

impl Fraction {
    /// How many of these units a millisecond has.
    pub fn per_millisecond(self) -> u64
        ensures same { result ≡ savefile.per_millisecond self }
        ensures some { 1 ≤ result }
    {
        match self {
            Fraction::Micro => 1_000,
            Fraction::Nano => 1_000_000,
        }
    }
}

fn fraction_of(magic: u32) -> Option<Fraction>
    ensures { result ≡ savefile.fraction_of magic }
{
    match magic {
        0xa1b2_c3d4 => Some(Fraction::Micro),
        0xa1b2_3c4d => Some(Fraction::Nano),
        _ => None,
    }
}

fn format_in(order: Order, text: &[u8]) -> Option<Format>
    requires { 4 ≤ length text.now }
    ensures { result ≡ savefile.format_in order text.now }
{
    match fraction_of(order.read_u32(text)) {
        Some(fraction) => Some(Format { order, fraction }),
        None => None,
    }
}

/// The format of a capture, by its magic. The byte order is the one in which its first four bytes are a
/// magic.
pub fn format_of(text: &[u8]) -> Option<Format>
    requires { 4 ≤ length text.now }
    ensures { result ≡ savefile.format_of text.now }
{
    match format_in(Order::Big, text) {
        Some(format) => Some(format),
        None => format_in(Order::Little, text),
    }
}
