ghost use Rattle.std.specs.Prelude.{◌≡◌, ◌++◌, OnOk, OnErr, IfSome, take};

use set_model::Memory;
use std::fmt::{Display, InlineText, Write};

/// Appends bytes.
pub(crate) fn append(out: &mut Vec<u8>, bytes: &[u8]) -> Result<(), Memory>
    ensures ok { OnOk result (out.new.items ≡ out.old.items ++ bytes.now) }
    ensures err { OnErr result (out.new.items ≡ out.old.items) }
{
    out.extend_from_slice(bytes)?;
    Ok(())
}

/// Appends the display of a value, which has at most 48 bytes.
pub(crate) fn append_display<D: Display + Drop>(out: &mut Vec<u8>, value: D) -> Result<(), Memory>
    ensures ok { OnOk result (IfSome (D.output value) (λ text. out.new.items ≡ out.old.items ++ text)) }
    ensures err { OnErr result (out.new.items ≡ out.old.items) }
{
    let mut text = InlineText::<48>::new();
    match text.write(value) {
        Ok(()) => append(out, text.as_str().as_bytes()),
        Err(_) => Err(Memory),
    }
}

/// After an error, cuts what was appended since there were `len` bytes.
pub(crate) fn cut_at_error(
    written: Result<(), Memory>,
    len: usize,
    out: &mut Vec<u8>,
) -> Result<(), Memory>
    ensures same { result ≡ written }
    ensures ok { OnOk result (out.new.items ≡ out.old.items) }
    ensures err { OnErr result (out.new.items ≡ take len out.old.items) }
{
    if written.is_err() {
        out.truncate(len);
    }
    written
}
