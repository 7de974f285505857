//! Readers that know what a control committed.
ghost use Rattle.std.specs.Prelude.{◌≡◌, map, All, IfOk, OnOk};
ghost use Rattle.script_start.specs.Meeting.{IsReaderOf, up_to_date};

use gen_publish::{Control, Reader};
use set_model::Memory;
use std::alloc::Global;

/// The control takes what the reader notes, and the reader what the control notes.
fn met(control: &mut Control, reader: Reader) -> Reader
    requires { IsReaderOf control.old reader }
    ensures same { control.new ≡ control.old }
    ensures met { result ≡ up_to_date control.old reader }
{
    let mut reader = reader;
    control.hear(reader.note());
    reader.meet(control.note());
    reader
}

/// The readers after each met the control.
pub(crate) fn all_met(
    alloc: Global,
    control: &mut Control,
    readers: Vec<Reader>,
) -> Result<Vec<Reader>, Memory>
    requires { All (IsReaderOf control.old) readers.items }
    ensures same { control.new ≡ control.old }
    ensures met { IfOk result (λ all. all.items ≡ map (up_to_date control.old) readers.items) }
{
    let mut all = Vec::new(alloc);
    'readers: for reader in readers {
        all.push(met(control, reader))?;
    }
    Ok(all)
}
