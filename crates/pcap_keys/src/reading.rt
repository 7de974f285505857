ghost use Rattle.std.specs.Prelude.{◌≡◌, ◌≤◌, ◌<◌, ◌+◌, ◌^◌, length, slice_get, Ok, IfOk};
ghost use Rattle.pcap_keys.specs.Blocks as blocks;
ghost use Rattle.pcap_keys.specs.Sections as sections;
ghost use Rattle.pcap_keys.specs.Sections.{Becomes, BecomesBy};
ghost use Rattle.pcap_keys.specs.Captured.{IsUnlessMemory};

use crate::block::{Header, Kind, header_of};
use crate::clock::time;
use crate::error::{CaptureError, CaptureReason};
use crate::facts::{Frame, Frames};
use crate::fault::bad;
use crate::format::Order;
use crate::interface::{Interface, interface_of};
use crate::place::{bytes_at, from_place};
use frame_facts::{Facts, facts_of};
use set_model::Listed;
use std::alloc::Global;

/// What is known of a file of pcapng after its first blocks.
#[derive(Drop)]
pub struct Reading {
    /// The order of the section's numbers.
    pub order: Order,
    /// The section's interfaces.
    pub interfaces: Listed<Interface>,
    /// The time of the first packet that has one, in milliseconds.
    pub start: Option<u128>,
    /// The moment of the last packet.
    pub moment: u64,
    /// The packets.
    pub frames: Frames,
}

/// The time of the first packet that has one, if this packet has this time.
fn start_or(start: Option<u128>, time: u128) -> u128
    ensures { result ≡ sections.start_or start time }
{
    match start {
        Some(start) => start,
        None => time,
    }
}

/// The moment of a packet at this time.
fn moment_of(start: Option<u128>, time: u128) -> u64
    ensures { result ≡ sections.moment_of start time }
{
    let after = time.saturating_sub(start_or(start, time));
    if after < 1 << 64 {
        after as u64
    } else {
        u64::MAX
    }
}

/// Whether a section has a version that is read: 1.0, or 1.2, which is the same.
fn is_version(order: Order, block: &[u8]) -> bool
    requires { 28 ≤ length block.now }
    ensures { result ≡ sections.is_version order block.now }
{
    order.read_u16(&block[12..]) == 1 && matches!(order.read_u16(&block[14..]), 0 | 2)
}

/// How many bytes of a packet were kept, under a snapshot length.
fn kept_of(most: u32, size: u32) -> usize
    ensures { result ≡ sections.kept_of most size }
{
    if most == 0 || size < most {
        size as usize
    } else {
        most as usize
    }
}

/// The stamp of an enhanced packet block.
fn stamp_of(order: Order, block: &[u8]) -> u64
    requires { 32 ≤ length block.now }
    ensures { result ≡ sections.stamp_of order block.now }
{
    (u64::from(order.read_u32(&block[12..])) << 32) + u64::from(order.read_u32(&block[16..]))
}

impl Reading {
    /// What is known before the first block.
    pub fn new(alloc: Global) -> Self
        ensures { result ≡ sections.nothing_read }
    {
        Reading {
            order: Order::Little,
            interfaces: Listed::new(alloc),
            start: None,
            moment: 0,
            frames: Frames::new(alloc),
        }
    }

    /// Adds a packet at a moment.
    fn push_frame(&mut self, moment: u64, facts: Option<Facts>) -> Result<(), CaptureError>
        ensures { Becomes result self.new (Ok (sections.with_frame self.old moment facts)) }
    {
        self.moment = moment;
        self.frames.push(Frame { moment, facts })?;
        Ok(())
    }

    /// Adds a packet at a time.
    fn push_timed(&mut self, time: u128, facts: Option<Facts>) -> Result<(), CaptureError>
        ensures { Becomes result self.new (Ok (sections.with_timed self.old time facts)) }
    {
        let moment = moment_of(self.start, time);
        self.start = Some(start_or(self.start, time));
        self.push_frame(moment, facts)
    }

    /// Begins a section.
    #[tactic(auto, unfolding(crate::specs::Sections::section))]
    fn begin_section(
        &mut self,
        alloc: Global,
        order: Order,
        place: usize,
        block: &[u8],
    ) -> Result<(), CaptureError>
        requires fields { 28 ≤ length block.now }
        requires place { place + length block.now < 2 ^ 64 }
        ensures { Becomes result self.new (sections.section order place block.now self.old) }
    {
        if !is_version(order, block) {
            return Err(bad(place + 12, CaptureReason::Version));
        }
        self.order = order;
        self.interfaces = Listed::new(alloc);
        Ok(())
    }

    /// Declares an interface.
    #[tactic(auto, unfolding(crate::specs::Sections::described))]
    fn declare(&mut self, order: Order, place: usize, block: &[u8]) -> Result<(), CaptureError>
        requires fields { 20 ≤ length block.now }
        requires place { place + length block.now < 2 ^ 64 }
        ensures { Becomes result self.new (sections.described order place block.now self.old) }
    {
        match interface_of(order, place, block) {
            Ok(interface) => {
                self.interfaces.push(interface)?;
                Ok(())
            }
            Err(e) => Err(e),
        }
    }

    /// An interface of the section.
    fn interface(&self, number: u32) -> Option<Interface>
        ensures { result ≡ slice_get self.now.interfaces number }
    {
        self.interfaces.as_slice().get(number as usize).copied()
    }

    /// Adds the packet of an enhanced packet block, if its interface is declared.
    fn enhanced_of(
        &mut self,
        order: Order,
        place: usize,
        block: &[u8],
        interface: Option<Interface>,
    ) -> Result<(), CaptureError>
        requires fields { 32 ≤ length block.now }
        requires place { place + length block.now < 2 ^ 64 }
        ensures { Becomes result self.new (sections.enhanced_of order place block.now self.old interface) }
    {
        match interface {
            None => Err(bad(place + 8, CaptureReason::Interface)),
            Some(interface) => {
                let kept = order.read_u32(from_place(block, 20)) as usize;
                if block.len() - 32 < kept {
                    return Err(bad(place + 20, CaptureReason::Length));
                }
                let facts = facts_of(interface.link, bytes_at(block, 28, kept));
                self.push_timed(time(interface.clock, stamp_of(order, block)), facts)
            }
        }
    }

    #[tactic(auto, unfolding(crate::specs::Sections::enhanced))]
    fn add_enhanced(&mut self, order: Order, place: usize, block: &[u8]) -> Result<(), CaptureError>
        requires fields { 32 ≤ length block.now }
        requires place { place + length block.now < 2 ^ 64 }
        ensures { Becomes result self.new (sections.enhanced order place block.now self.old) }
    {
        let interface = self.interface(order.read_u32(from_place(block, 8)));
        self.enhanced_of(order, place, block, interface)
    }

    /// Adds the packet of a simple packet block, if its interface is declared.
    fn simple_of(
        &mut self,
        order: Order,
        place: usize,
        block: &[u8],
        interface: Option<Interface>,
    ) -> Result<(), CaptureError>
        requires fields { 16 ≤ length block.now }
        requires place { place + length block.now < 2 ^ 64 }
        ensures { Becomes result self.new (sections.simple_of order place block.now self.old interface) }
    {
        match interface {
            None => Err(bad(place, CaptureReason::Interface)),
            Some(interface) => {
                let kept = kept_of(interface.most, order.read_u32(from_place(block, 8)));
                if block.len() - 16 < kept {
                    return Err(bad(place + 8, CaptureReason::Length));
                }
                let facts = facts_of(interface.link, bytes_at(block, 12, kept));
                self.push_frame(self.moment, facts)
            }
        }
    }

    #[tactic(auto, unfolding(crate::specs::Sections::simple))]
    fn add_simple(&mut self, order: Order, place: usize, block: &[u8]) -> Result<(), CaptureError>
        requires fields { 16 ≤ length block.now }
        requires place { place + length block.now < 2 ^ 64 }
        ensures { Becomes result self.new (sections.simple order place block.now self.old) }
    {
        let interface = self.interface(0);
        self.simple_of(order, place, block, interface)
    }

    /// Reads the contents of a block.
    fn take_block(
        &mut self,
        alloc: Global,
        header: Header,
        place: usize,
        block: &[u8],
    ) -> Result<(), CaptureError>
        requires fields { blocks.least_size header.kind ≤ length block.now }
        requires place { place + length block.now < 2 ^ 64 }
        ensures { Becomes result self.new (sections.of_kind header.kind header.order place block.now self.old) }
    {
        match header.kind {
            Kind::Section => self.begin_section(alloc, header.order, place, block),
            Kind::Interface => self.declare(header.order, place, block),
            Kind::Simple => self.add_simple(header.order, place, block),
            Kind::Enhanced => self.add_enhanced(header.order, place, block),
            Kind::Other => Ok(()),
        }
    }

    /// Reads the block at the start of these bytes, which begin at a place of the file. Returns its length.
    ///
    /// # Errors
    ///
    /// `Bad` with the block's first fault. `Memory` if memory runs out.
    #[tactic(auto, unfolding(crate::specs::Sections::block))]
    pub fn read_block(
        &mut self,
        alloc: Global,
        place: usize,
        bytes: &[u8],
    ) -> Result<usize, CaptureError>
        requires { place + length bytes.now < 2 ^ 64 }
        ensures read { BecomesBy result self.new (sections.block place bytes.now self.old) }
        ensures size { IfOk result (λ size. size ≤ length bytes.now) }
        ensures some { IfOk result (λ size. 12 ≤ size) }
    {
        match header_of(self.order, place, bytes) {
            Ok(header) => {
                self.take_block(alloc, header, place, &bytes[..header.size])?;
                Ok(header.size)
            }
            Err(e) => Err(e),
        }
    }
}

/// The packets of a file of pcapng, block by block.
///
/// # Errors
///
/// `Bad` with the first fault. `Memory` if memory runs out.
pub fn read_sections(alloc: Global, text: &[u8]) -> Result<Frames, CaptureError>
    ensures { IsUnlessMemory result (sections.sections text.now) }
{
    let mut reading = Reading::new(alloc);
    let mut place = 0;
    'file: while place < text.len() {
        match reading.read_block(alloc, place, from_place(text, place)) {
            Ok(size) => place += size,
            Err(e) => return Err(e),
        }
    }
    Ok(reading.frames)
}
