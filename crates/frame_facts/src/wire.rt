ghost use Rattle.std.specs.Prelude.{◌≡◌, ◌≤◌, ◌+◌, length, drop};
ghost use Rattle.frame_facts.specs.Wire.{number_at};

use byteorder::{BigEndian, ByteOrder};

/// The number in the two bytes from a place on, the most significant byte first.
#[tactic(auto, unfolding(crate::specs::Wire::number_at))]
pub fn u16_at(bytes: &[u8], place: usize) -> u16
    requires { place + 2 ≤ length bytes.now }
    ensures { result ≡ number_at bytes.now place 2 }
{
    BigEndian::read_u16(&bytes[place..])
}

/// The number in the four bytes from a place on.
#[tactic(auto, unfolding(crate::specs::Wire::number_at))]
pub fn u32_at(bytes: &[u8], place: usize) -> u32
    requires { place + 4 ≤ length bytes.now }
    ensures { result ≡ number_at bytes.now place 4 }
{
    BigEndian::read_u32(&bytes[place..])
}

/// The number in the six bytes from a place on.
#[tactic(auto, unfolding(crate::specs::Wire::number_at))]
pub fn u48_at(bytes: &[u8], place: usize) -> u64
    requires { place + 6 ≤ length bytes.now }
    ensures { result ≡ number_at bytes.now place 6 }
{
    BigEndian::read_u48(&bytes[place..])
}

/// The number in the sixteen bytes from a place on.
#[tactic(auto, unfolding(crate::specs::Wire::number_at))]
pub fn u128_at(bytes: &[u8], place: usize) -> u128
    requires { place + 16 ≤ length bytes.now }
    ensures { result ≡ number_at bytes.now place 16 }
{
    BigEndian::read_u128(&bytes[place..])
}

/// The bytes after so many, or none if there are no more.
pub fn after(bytes: &[u8], size: usize) -> &[u8]
    ensures { result.now ≡ drop size bytes.now }
{
    if size < bytes.len() {
        &bytes[size..]
    } else {
        &bytes[bytes.len()..]
    }
}
