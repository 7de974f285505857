//! Sets that a script declares.
ghost use Rattle.std.specs.Prelude.{◌≤◌, length, IfOk};
ghost use Rattle.set_script.specs.Limits.{most_sets};

use set_model::{Memory, Schema};
use set_script::read_script;
use std::alloc::Global;

/// The sets that a script declares; none if it is refused.
pub fn schema_of(alloc: Global, text: &[u8]) -> Result<Schema, Memory>
    ensures { IfOk result (λ schema. length schema ≤ most_sets) }
{
    match read_script(alloc, text) {
        Ok(script) => Ok(script.schema),
        Err(_) => Ok(Schema::new(alloc)),
    }
}
