//! A key in words.
ghost use Rattle.std.specs.Prelude.{◌≡◌, ◌++◌, true, OnOk};
ghost use Rattle.set_model.specs.Key.{key_fits};
ghost use Rattle.element_text.specs.ElementText.{key_text};
ghost use Rattle.element_text.specs.Kept.{KeepsBytes};

use addr_text::write_value;
use set_model::{Kind, Memory};
use text_pieces::append;

/// Appends a key as a key file has it: `192.0.2.77 . 443`.
///
/// # Errors
///
/// `Memory` if memory runs out. The old bytes are still there, before what was appended.
pub fn write_key(kinds: &[Kind], key: &[u128], out: &mut Vec<u8>) -> Result<(), Memory>
    requires { key_fits kinds.now key.now ≡ true }
    ensures ok { OnOk result (out.new.items ≡ out.old.items ++ key_text kinds.now key.now) }
    ensures kept { KeepsBytes out.old.items out.new.items }
{
    let mut separator: &[u8] = b"";
    'fields: for (field, value) in key.iter().enumerate() {
        append(separator, out)?;
        write_value(kinds[field], *value, out)?;
        separator = b" . ";
    }
    Ok(())
}
