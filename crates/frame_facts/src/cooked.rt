ghost use Rattle.std.specs.Prelude.{◌≡◌};
ghost use Rattle.frame_facts.specs.Links as links;

use crate::facts::Facts;
use crate::tagged::two_tags;
use crate::wire::{after, u16_at};

/// Whether the cooked header of this kind of hardware has a type of Ethernet. Frame Relay, 802.11 with
/// radiotap and netlink have none.
fn has_ether_type(hardware: u16) -> bool
    ensures { result ≡ links.has_ether_type hardware }
{
    !matches!(hardware, 770 | 803 | 824)
}

/// The facts of a frame of Linux's cooked capture, version 1.
pub fn cooked(frame: &[u8]) -> Option<Facts>
    ensures { result ≡ links.cooked frame.now }
{
    if frame.len() >= 16 && has_ether_type(u16_at(frame, 2)) {
        two_tags(None, u16_at(frame, 14), after(frame, 16))
    } else {
        None
    }
}

/// The facts of a frame of Linux's cooked capture, version 2.
pub fn cooked_two(frame: &[u8]) -> Option<Facts>
    ensures { result ≡ links.cooked_two frame.now }
{
    if frame.len() >= 20 && has_ether_type(u16_at(frame, 8)) {
        two_tags(None, u16_at(frame, 0), after(frame, 20))
    } else {
        None
    }
}
