ghost use Rattle.std.specs.Prelude.{◌≡◌, ◌≤◌};
ghost use Rattle.packed_values.specs.Packed.{width_of};

use set_model::Kind;

/// How many bytes a value of this kind has.
pub fn width(kind: Kind) -> usize
    ensures width { result ≡ width_of kind }
    ensures few { result ≤ 16 }
{
    match kind {
        Kind::Ipv4 => 4,
        Kind::Ipv6 => 16,
        Kind::Ether => 6,
        Kind::Proto => 1,
        Kind::Service => 2,
        Kind::Mark => 4,
    }
}
