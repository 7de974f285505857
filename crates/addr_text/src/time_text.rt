ghost use Rattle.std.specs.Prelude.{ℕ, ◌≡◌, ◌≤◌, ◌++◌, ◌∷◌, [], ◌/◌, ◌%◌, OnOk, OnErr, decimal, flat_map};
ghost use Rattle.addr_text.specs.Times.{IsTime, longest_time};
ghost use Rattle.addr_text.specs.Written.{unit_counts, count_text, count_views, time_text};

use crate::append::{append, append_display, cut_at_error};
use set_model::Memory;

/// How many of a unit a time has.
#[derive(Clone, Copy)]
struct Count {
    count: u64,
    unit: &'static [u8],
}

fn write_number(n: u64, unit: &[u8], out: &mut Vec<u8>) -> Result<(), Memory>
    ensures ok { OnOk result (out.new.items ≡ out.old.items ++ (decimal n ++ unit.now)) }
    ensures err { OnErr result (out.new.items ≡ out.old.items) }
{
    let len = out.len();
    append_display(out, n)?;
    let written = append(out, unit);
    cut_at_error(written, len, out)
}

/// Appends a count and its unit, unless the count is 0.
fn write_count(n: u64, unit: &[u8], out: &mut Vec<u8>) -> Result<(), Memory>
    ensures ok { OnOk result (out.new.items ≡ out.old.items ++ count_text (n, unit.now)) }
    ensures err { OnErr result (out.new.items ≡ out.old.items) }
{
    if n == 0 {
        return Ok(());
    }
    write_number(n, unit, out)
}

fn write_counts(counts: &[Count], out: &mut Vec<u8>) -> Result<(), Memory>
    ensures ok { OnOk result (out.new.items ≡ out.old.items ++ flat_map count_text (count_views counts.now)) }
    ensures err { OnErr result (out.new.items ≡ out.old.items) }
{
    let len = out.len();
    for count in counts {
        if let Err(memory) = write_count(count.count, count.unit, out) {
            out.truncate(len);
            return Err(memory);
        }
    }
    Ok(())
}

/// Appends the text of a time in milliseconds: its days, hours, minutes, seconds and milliseconds that
/// aren't 0. Hours are below 24, minutes and seconds below 60, and milliseconds below 1000. The time 0
/// is `0s`.
///
/// # Errors
///
/// `Memory` if memory runs out; `out` is then as before.
#[tactic(auto, unfolding(crate::specs::Written::time_text))]
pub fn write_time(ms: u64, out: &mut Vec<u8>) -> Result<(), Memory>
    ensures ok { OnOk result (out.new.items ≡ out.old.items ++ time_text ms) }
    ensures err { OnErr result (out.new.items ≡ out.old.items) }
{
    if ms == 0 {
        return append(out, b"0s");
    }
    let counts = [
        Count {
            count: ms / 86_400_000,
            unit: b"d",
        },
        Count {
            count: ms / 3_600_000 % 24,
            unit: b"h",
        },
        Count {
            count: ms / 60_000 % 60,
            unit: b"m",
        },
        Count {
            count: ms / 1_000 % 60,
            unit: b"s",
        },
        Count {
            count: ms % 1_000,
            unit: b"ms",
        },
    ];
    write_counts(&counts, out)
}

/// The text that is written for a time means this time, up to the longest time that is read.
pub fn written_time_law(_ms: u64)
    requires { _ms ≤ longest_time }
    ensures { IsTime (time_text _ms) _ms }
{}
