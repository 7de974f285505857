ghost use Rattle.std.specs.Prelude.{◌≡◌, ◌≤◌, ◌+◌, length, take, drop};

/// The bytes from a place on.
pub fn from_place(bytes: &[u8], place: usize) -> &[u8]
    requires { place ≤ length bytes.now }
    ensures { result.now ≡ drop place bytes.now }
{
    &bytes[place..]
}

/// So many bytes from a place on.
pub fn bytes_at(bytes: &[u8], place: usize, size: usize) -> &[u8]
    requires { place + size ≤ length bytes.now }
    ensures { result.now ≡ take size (drop place bytes.now) }
{
    &bytes[place..place + size]
}
