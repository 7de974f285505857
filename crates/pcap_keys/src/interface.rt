ghost use Rattle.std.specs.Prelude.{◌≡◌, ◌≤◌, ◌<◌, ◌+◌, ◌^◌, length};
ghost use Rattle.pcap_keys.specs.Blocks as blocks;

use crate::clock::{Clock, clock_of};
use crate::error::{CaptureError, CaptureReason};
use crate::fault::bad;
use crate::format::Order;
use crate::place::{bytes_at, from_place};
use frame_facts::{Link, link_of};
use set_model::{Duplicate, Memory};
use std::alloc::Global;

/// What is known of the packets of an interface.
#[derive(Clone, Copy, Debug, PartialEq, Eq)]
pub struct Interface {
    /// What its frames begin with.
    pub link: Link,
    /// How many bytes of a packet are kept at most; 0 if there is no limit.
    pub most: u32,
    /// How its times count.
    pub clock: Clock,
}

impl Duplicate for Interface {
    fn copy(&self, _: Global) -> Result<Self, Memory> {
        Ok(*self)
    }
}

fn with_clock(
    place: usize,
    link: Link,
    most: u32,
    clock: Option<Clock>,
) -> Result<Interface, CaptureError>
    ensures { result ≡ blocks.with_clock place link most clock }
{
    match clock {
        Some(clock) => Ok(Interface { link, most, clock }),
        None => Err(bad(place, CaptureReason::Options)),
    }
}

/// The options of an interface description.
fn option_bytes(block: &[u8]) -> &[u8]
    requires { 20 ≤ length block.now }
    ensures { result.now ≡ blocks.option_bytes block.now }
{
    bytes_at(block, 16, block.len() - 20)
}

fn with_link(
    order: Order,
    place: usize,
    block: &[u8],
    link: Option<Link>,
) -> Result<Interface, CaptureError>
    requires fields { 20 ≤ length block.now }
    requires place { place + length block.now < 2 ^ 64 }
    ensures { result ≡ blocks.with_link order place block.now link }
{
    match link {
        Some(link) => {
            let most = order.read_u32(from_place(block, 12));
            with_clock(place, link, most, clock_of(order, option_bytes(block)))
        }
        None => Err(bad(place + 8, CaptureReason::LinkType)),
    }
}

/// The interface that a block describes. The block begins at a place of the file.
///
/// # Errors
///
/// `Bad` with `LinkType` at the link type if it isn't supported, and else with `Options` at the block's
/// first byte if its options have a fault.
#[tactic(auto, unfolding(crate::specs::Blocks::interface))]
pub fn interface_of(order: Order, place: usize, block: &[u8]) -> Result<Interface, CaptureError>
    requires fields { 20 ≤ length block.now }
    requires place { place + length block.now < 2 ^ 64 }
    ensures { result ≡ blocks.interface order place block.now }
{
    let link = link_of(u32::from(order.read_u16(from_place(block, 8))));
    with_link(order, place, block, link)
}
