ghost use Rattle.std.specs.Prelude.{◌≡◌};
ghost use Rattle.pcap_keys.specs.declared.error.CaptureError.TheVariants.{Bad};

use crate::error::{CaptureError, CaptureReason};

/// The refusal of a capture at a byte.
pub fn bad(byte: usize, reason: CaptureReason) -> CaptureError
    ensures { result ≡ Bad byte reason }
{
    CaptureError::Bad {
        byte: byte as u64,
        reason,
    }
}
