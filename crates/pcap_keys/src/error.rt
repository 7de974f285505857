use set_model::Memory;

/// Why bytes weren't read as a capture.
#[derive(Clone, Copy, Debug, PartialEq, Eq)]
pub enum CaptureError {
    /// They aren't a capture: the byte of the first fault, counted from 0, and the reason.
    Bad { byte: u64, reason: CaptureReason },
    /// Out of memory.
    Memory,
}

/// What is wrong with a capture.
#[derive(Clone, Copy, Debug, PartialEq, Eq)]
pub enum CaptureReason {
    /// It doesn't begin with a magic of libpcap's classic format or as a file of pcapng, or a section
    /// header has another magic.
    Magic,
    /// Its header, a record or a block isn't whole.
    Cut,
    /// Its version isn't 2.4, or a section's isn't 1.0.
    Version,
    /// The link type of the file or of an interface isn't supported.
    LinkType,
    /// A block's length isn't a multiple of four, or too small for the block, or differs from its copy at
    /// the block's end; or the bytes that were kept of a packet aren't within its block.
    Length,
    /// The interface of a packet isn't declared in the packet's section.
    Interface,
    /// An option of an interface isn't whole, or its value isn't one of its code.
    Options,
}

impl From<Memory> for CaptureError {
    ghost use Rattle.std.specs.Prelude.{◌≡◌};
    ghost use Rattle.pcap_keys.specs.declared.error.CaptureError.TheVariants.{Memory};

    ghost from_gives = { λ _ e. e ≡ Memory };

    fn from(_: Memory) -> CaptureError {
        CaptureError::Memory
    }
}
