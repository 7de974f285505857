ghost use Rattle.std.specs.Prelude.{◌≡◌, ◌≤◌, length};
ghost use Rattle.frame_facts.specs.Links as links;

use crate::facts::Facts;
use crate::tagged::two_tags;
use crate::wire::{after, u16_at, u48_at};

/// The source and the destination address.
fn addresses(frame: &[u8]) -> (u128, u128)
    requires { 12 ≤ length frame.now }
    ensures { result ≡ links.ether_addresses frame.now }
{
    (u128::from(u48_at(frame, 6)), u128::from(u48_at(frame, 0)))
}

/// The facts of an Ethernet frame.
pub fn ethernet(frame: &[u8]) -> Option<Facts>
    ensures { result ≡ links.ethernet frame.now }
{
    if frame.len() < 14 {
        return None;
    }
    two_tags(Some(addresses(frame)), u16_at(frame, 12), after(frame, 14))
}
