//! The reports of a log's transactions, as text.
ghost use Rattle.std.specs.Prelude.{◌≡◌, ◌++◌, length, All, IfOk, OnOk};
ghost use Rattle.control_desk.specs.Woven.{said};
ghost use Rattle.set_report.specs.Writes.{NamesSet};
ghost use Rattle.desk_run.specs.DeskText.{clerk_prefix, entry_text, log_text};

use control_desk::{Entry, Log};
use set_model::{Duplicate, Events, Memory, Schema};
use set_report::write_events;
use std::alloc::Global;
use text_pieces::Piece::{Number, Word};
use text_pieces::append_pieces;

/// The control thread's number, in front of each of its lines.
fn prefix_of(alloc: Global, clerk: u32) -> Result<Vec<u8>, Memory>
    ensures { IfOk result (λ prefix. prefix.items ≡ clerk_prefix clerk) }
{
    let mut prefix = Vec::new(alloc);
    append_pieces(
        &[Word(b"# clerk "), Number(u64::from(clerk)), Word(b" ")],
        &mut prefix,
    )?;
    Ok(prefix)
}

/// The reports of an entry: its refusals, and then its end.
fn events_of(alloc: Global, entry: &Entry) -> Result<Events, Memory>
    ensures { IfOk result (λ events. events ≡ said entry.now) }
{
    let mut events = entry.refused.copy(alloc)?;
    events.push(entry.end)?;
    Ok(events)
}

/// Appends the reports of a transaction, each line after the number of the control thread that submitted it.
fn write_entry(
    alloc: Global,
    schema: &Schema,
    entry: &Entry,
    out: &mut Vec<u8>,
) -> Result<(), Memory>
    requires { All (NamesSet (length schema.now)) (said entry.now) }
    ensures { OnOk result (out.new.items ≡ out.old.items ++ entry_text schema.now entry.now) }
{
    let events = events_of(alloc, entry)?;
    let prefix = prefix_of(alloc, entry.clerk)?;
    write_events(schema, &events, prefix.as_slice(), out)
}

/// Appends the reports of all transactions of a log, in their order.
pub(crate) fn write_log(
    alloc: Global,
    schema: &Schema,
    log: &Log,
    out: &mut Vec<u8>,
) -> Result<(), Memory>
    requires { All (λ e. All (NamesSet (length schema.now)) (said e)) log.now }
    ensures { OnOk result (out.new.items ≡ out.old.items ++ log_text schema.now log.now) }
{
    for entry in log.as_slice() {
        write_entry(alloc, schema, entry, out)?;
    }
    Ok(())
}
