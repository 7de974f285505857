// Numbers of a fixed width in network byte order.
ghost use Rattle.std.specs.Prelude.{◌≡◌, ◌≤◌, length, take, drop};
ghost use Rattle.addr_text.specs.Numbers.{big_endian};
ghost use Rattle.packed_values.specs.Packed.{width_of};

use set_model::Kind;

fn two(bytes: &[u8]) -> u16
    requires { length bytes.now ≡ 2 }
    ensures { result ≡ big_endian 256 bytes.now }
{
    u16::from_be_bytes([bytes[0], bytes[1]])
}

fn four(bytes: &[u8]) -> u32
    requires { length bytes.now ≡ 4 }
    ensures { result ≡ big_endian 256 bytes.now }
{
    u32::from_be_bytes([bytes[0], bytes[1], bytes[2], bytes[3]])
}

fn six(bytes: &[u8]) -> u64
    requires { length bytes.now ≡ 6 }
    ensures { result ≡ big_endian 256 bytes.now }
{
    let (high, low) = bytes.split_at(4);
    u64::from(four(high)) * (1 << 16) + u64::from(two(low))
}

fn eight(bytes: &[u8]) -> u64
    requires { length bytes.now ≡ 8 }
    ensures { result ≡ big_endian 256 bytes.now }
{
    let (high, low) = bytes.split_at(4);
    u64::from(four(high)) * (1 << 32) + u64::from(four(low))
}

fn sixteen(bytes: &[u8]) -> u128
    requires { length bytes.now ≡ 16 }
    ensures { result ≡ big_endian 256 bytes.now }
{
    let (high, low) = bytes.split_at(8);
    u128::from(eight(high)) * (1 << 64) + u128::from(eight(low))
}

/// The value of this kind that the first bytes write, and the other bytes.
#[inline(always)]
pub(crate) fn first_value(kind: Kind, bytes: &[u8]) -> (u128, &[u8])
    requires { width_of kind ≤ length bytes.now }
    ensures value { result.0 ≡ big_endian 256 (take (width_of kind) bytes.now) }
    ensures others { result.1.now ≡ drop (width_of kind) bytes.now }
{
    match kind {
        Kind::Ipv4 => {
            let (front, others) = bytes.split_at(4);
            (u128::from(four(front)), others)
        }
        Kind::Ipv6 => {
            let (front, others) = bytes.split_at(16);
            (sixteen(front), others)
        }
        Kind::Ether => {
            let (front, others) = bytes.split_at(6);
            (u128::from(six(front)), others)
        }
        Kind::Proto => {
            let (front, others) = bytes.split_at(1);
            (u128::from(front[0]), others)
        }
        Kind::Service => {
            let (front, others) = bytes.split_at(2);
            (u128::from(two(front)), others)
        }
        Kind::Mark => {
            let (front, others) = bytes.split_at(4);
            (u128::from(four(front)), others)
        }
    }
}
