ghost use Rattle.std.specs.Prelude.{◌≡◌};
ghost use Rattle.set_report.specs.KindText.{kind_text};

use set_model::Kind;

/// The name of a kind in nft(8).
pub(crate) fn kind_word(kind: Kind) -> &'static [u8]
    ensures { result.now ≡ kind_text kind }
{
    match kind {
        Kind::Ipv4 => b"ipv4_addr",
        Kind::Ipv6 => b"ipv6_addr",
        Kind::Ether => b"ether_addr",
        Kind::Proto => b"inet_proto",
        Kind::Service => b"inet_service",
        Kind::Mark => b"mark",
    }
}
