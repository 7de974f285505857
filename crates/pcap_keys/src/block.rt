ghost use Rattle.std.specs.Prelude.{◌≡◌, ◌≤◌, ◌<◌, ◌+◌, ◌^◌, length, IfOk};
ghost use Rattle.pcap_keys.specs.Blocks as blocks;

use crate::error::{CaptureError, CaptureReason};
use crate::fault::bad;
use crate::format::Order;
use crate::place::from_place;

/// What a block of pcapng holds, by its type.
#[derive(Clone, Copy, Debug, PartialEq, Eq)]
pub enum Kind {
    /// The header of a section.
    Section,
    /// The description of an interface.
    Interface,
    /// A packet without a time, of the section's first interface.
    Simple,
    /// A packet with its time and its interface.
    Enhanced,
    /// What isn't read.
    Other,
}

/// What the first bytes of a block say.
#[derive(Clone, Copy, Debug, PartialEq, Eq)]
pub struct Header {
    /// What it holds.
    pub kind: Kind,
    /// The order of its numbers.
    pub order: Order,
    /// How many bytes it has.
    pub size: usize,
}

fn kind_of(block_type: u32) -> Kind
    ensures { result ≡ blocks.kind_of block_type }
{
    match block_type {
        0x0a0d_0d0a => Kind::Section,
        1 => Kind::Interface,
        3 => Kind::Simple,
        6 => Kind::Enhanced,
        _ => Kind::Other,
    }
}

impl Kind {
    /// How many bytes a block has at least.
    fn least_size(self) -> usize
        ensures same { result ≡ blocks.least_size self }
        ensures some { 12 ≤ result }
    {
        match self {
            Kind::Section => 28,
            Kind::Interface => 20,
            Kind::Simple => 16,
            Kind::Enhanced => 32,
            Kind::Other => 12,
        }
    }
}

fn magic_order(bytes: &[u8]) -> Option<Order>
    requires { 12 ≤ length bytes.now }
    ensures { result ≡ blocks.magic_order bytes.now }
{
    let magic = &bytes[8..];
    if Order::Big.read_u32(magic) == 0x1a2b_3c4d {
        Some(Order::Big)
    } else if Order::Little.read_u32(magic) == 0x1a2b_3c4d {
        Some(Order::Little)
    } else {
        None
    }
}

/// The order of a block's numbers, in a section of this order.
fn order_of(order: Order, kind: Kind, bytes: &[u8]) -> Option<Order>
    requires { 12 ≤ length bytes.now }
    ensures { result ≡ blocks.order_of order kind bytes.now }
{
    match kind {
        Kind::Section => magic_order(bytes),
        Kind::Interface | Kind::Simple | Kind::Enhanced | Kind::Other => Some(order),
    }
}

fn size_of(order: Order, bytes: &[u8]) -> usize
    requires { 12 ≤ length bytes.now }
    ensures { result ≡ blocks.size_of order bytes.now }
{
    order.read_u32(&bytes[4..]) as usize
}

fn is_size(kind: Kind, size: usize) -> bool
    ensures { result ≡ blocks.is_size kind size }
{
    size % 4 == 0 && size >= kind.least_size()
}

fn has_copy(order: Order, bytes: &[u8], size: usize) -> bool
    requires some { 4 ≤ size }
    requires room { size ≤ length bytes.now }
    requires same { size ≡ blocks.size_of order bytes.now }
    ensures { result ≡ blocks.has_copy order bytes.now }
{
    order.read_u32(from_place(bytes, size - 4)) as usize == size
}

fn sized(place: usize, bytes: &[u8], kind: Kind, order: Order) -> Result<Header, CaptureError>
    requires header { 12 ≤ length bytes.now }
    requires place { place + length bytes.now < 2 ^ 64 }
    ensures same { result ≡ blocks.sized place bytes.now kind order }
    ensures whole { IfOk result (λ h. h.size ≤ length bytes.now) }
    ensures least { IfOk result (λ h. blocks.least_size h.kind ≤ h.size) }
{
    let size = size_of(order, bytes);
    if !is_size(kind, size) {
        return Err(bad(place + 4, CaptureReason::Length));
    }
    if bytes.len() < size {
        return Err(bad(place, CaptureReason::Cut));
    }
    if !has_copy(order, bytes, size) {
        return Err(bad(place + 4, CaptureReason::Length));
    }
    Ok(Header { kind, order, size })
}

/// The header of the block at the start of these bytes, which begin at a place of the file, in a section
/// of this order.
///
/// # Errors
///
/// `Bad` with the block's first fault: `Cut` at its first byte, `Length` at its length, `Magic` at the
/// magic of a section header.
#[tactic(auto, unfolding(crate::specs::Blocks::header))]
pub fn header_of(order: Order, place: usize, bytes: &[u8]) -> Result<Header, CaptureError>
    requires { place + length bytes.now < 2 ^ 64 }
    ensures same { result ≡ blocks.header order place bytes.now }
    ensures whole { IfOk result (λ h. h.size ≤ length bytes.now) }
    ensures least { IfOk result (λ h. blocks.least_size h.kind ≤ h.size) }
{
    if bytes.len() < 12 {
        return Err(bad(place, CaptureReason::Cut));
    }
    let kind = kind_of(order.read_u32(bytes));
    match order_of(order, kind, bytes) {
        Some(order) => sized(place, bytes, kind, order),
        None => Err(bad(place + 8, CaptureReason::Magic)),
    }
}
