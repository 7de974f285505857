ghost use Rattle.std.specs.Prelude.{◌≡◌, ◌<◌, ◌≤◌, ◌^◌, length, IfSome};
ghost use Rattle.std.specs.Net.Reader.{read_number};

/// The number at the front of a text, at most `most`, and how many digits it has.
pub(crate) fn leading_number(text: &[u8], radix: u32, most: u64) -> Option<(u64, usize)>
    requires low { 2 ≤ radix }
    requires high { radix ≤ 16 }
    requires room { most < 2 ^ 56 }
    ensures value { result ≡ read_number radix most text.now }
    ensures fits { IfSome result (λ n. (n.0 ≤ most) × (0 < n.1) × (n.1 ≤ length text.now)) }
{
    let mut value = 0u64;
    let mut len = 0;
    for byte in text {
        let Some(digit) = char::from(*byte).to_digit(radix) else {
            break;
        };
        let next = value * radix as u64 + digit as u64;
        if next > most {
            return None;
        }
        value = next;
        len += 1;
    }
    if len == 0 { None } else { Some((value, len)) }
}
