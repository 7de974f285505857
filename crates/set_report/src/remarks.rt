ghost use Rattle.std.specs.Prelude.{◌≡◌, ◌++◌, All, length, OnOk, OnErr};
ghost use Rattle.set_report.specs.Remarks.{remarks_text};
ghost use Rattle.set_report.specs.Writes.{NamesSet};
ghost use Rattle.text_pieces.specs.Appends.{AppendsPart};

use crate::events::write_events;
use set_model::{Events, Memory, Schema};

/// Appends the lines of events, in their order, each after `# `. They are comments, so the listing
/// after them can be read as a script.
///
/// # Errors
///
/// `Memory` if memory runs out. A front of the text is then appended.
pub fn write_remarks(schema: &Schema, events: &Events, out: &mut Vec<u8>) -> Result<(), Memory>
    requires { All (NamesSet (length schema.now)) events.now }
    ensures ok { OnOk result (out.new.items ≡ out.old.items ++ remarks_text schema.now events.now) }
    ensures err { OnErr result (AppendsPart out.old.items out.new.items (remarks_text schema.now events.now)) }
{
    write_events(schema, events, b"# ", out)
}
