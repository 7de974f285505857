ghost use Rattle.std.specs.Prelude.{◌+◌, ◌<◌, ◌^◌, ◌↔◌, IsTrue};

use gen_publish::Control;

/// The first number that no generation has.
const NO_NUMBER: u64 = 1 << 63;

/// Whether there are enough numbers for so many more generations.
pub fn has_numbers(control: &Control, generations: u64) -> bool
    ensures { IsTrue result ↔ (control.now.work.base.number + generations < 2 ^ 63) }
{
    match control.number().checked_add(generations) {
        Some(number) => number < NO_NUMBER,
        None => false,
    }
}
