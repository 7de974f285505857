ghost use Rattle.std.specs.Prelude.{◌≡◌, ◌<◌, ◌≤◌, ◌^◌, [], ◌∷◌, length, All, IfOk};
ghost use Rattle.set_model.specs.Control.{first_generation};
ghost use Rattle.set_space.specs.Open.{CanBeBuilt, opened};
ghost use Rattle.gen_publish.specs.Publish.{AllFresh};

use gen_publish::{Control, Reader, start};
use set_model::{Duplicate, Memory, Schema};
use std::alloc::Global;

/// A control before its first step, with a copy of the declared sets, and so many readers of it.
///
/// # Errors
///
/// `Memory` if memory runs out.
pub fn start_run(
    alloc: Global,
    schema: &Schema,
    readers: u32,
) -> Result<(Control, Vec<Reader>), Memory>
    requires count { (0 < readers) × (readers ≤ 16) }
    requires sets { All CanBeBuilt schema.now }
    requires few_sets { length schema.now ≤ 2 ^ 32 }
    ensures control { IfOk result (λ r. (r.0.schema ≡ schema.now) × (r.0.readers ≡ readers) × (r.0.committed ≡ first_generation schema.now ∷ []) × (r.0.work ≡ opened (first_generation schema.now))) }
    ensures readers { IfOk result (λ r. (length r.1.items ≡ readers) × AllFresh r.0.of schema.now (first_generation schema.now ∷ []) 0 r.1.items) }
{
    let declared = schema.copy(alloc)?;
    start(alloc, declared, readers)
}
