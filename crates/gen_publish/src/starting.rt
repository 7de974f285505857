//! Starts a control and its readers.
ghost use Rattle.std.specs.Prelude.{◌≡◌, ◌<◌, ◌≤◌, ◌^◌, [], ◌∷◌, length, map, All, IfOk};
ghost use Rattle.std.specs.Arc.{arc_value};
ghost use Rattle.set_model.specs.Control.{first_generation};
ghost use Rattle.set_space.specs.Open.{CanBeBuilt, opened};
ghost use Rattle.gen_publish.specs.Publish.{AllFresh, IsSeen, reader_view};

use crate::berth::{Berth, first_berths};
use crate::control::Control;
use crate::reader::{Reader, Tools};
use gen_slots::{Pass, make};
use pipapo_image::Scratch;
use set_model::{Memory, Schema};
use set_space::{Generation, Work};
use std::alloc::Global;
use std::sync::Arc;

/// Makes a reader for each pass.
fn seat(
    alloc: Global,
    passes: Vec<Pass<Berth>>,
    schema: &Arc<Schema, Global>,
) -> Result<Vec<Reader>, Memory>
    requires { All (λ p. IsSeen (arc_value schema.now) p.seen) passes.items }
    ensures { IfOk result (λ v. v.items ≡ map (reader_view (arc_value schema.now)) passes.items) }
{
    let mut readers = Vec::new(alloc);
    'passes: for pass in passes {
        let tools = Tools {
            schema: Arc::try_clone(schema)?,
            scratch: Box::new(alloc, Scratch::new(alloc)?)?,
        };
        readers.push(Reader::seated(pass, tools))?;
    }
    Ok(readers)
}

/// A control at generation 0, and its readers, which have seen that generation. The reader at place i
/// has the number i.
///
/// # Errors
///
/// `Memory` if memory runs out.
pub fn start(alloc: Global, schema: Schema, readers: u32) -> Result<(Control, Vec<Reader>), Memory>
    requires count { (0 < readers) × (readers ≤ 16) }
    requires sets { All CanBeBuilt schema }
    requires few_sets { length schema ≤ 2 ^ 32 }
    ensures control { IfOk result (λ r. (r.0.schema ≡ schema) × (r.0.readers ≡ readers) × (r.0.committed ≡ first_generation schema ∷ []) × (r.0.work ≡ opened (first_generation schema))) }
    ensures readers { IfOk result (λ r. (length r.1.items ≡ readers) × AllFresh r.0.of schema (first_generation schema ∷ []) 0 r.1.items) }
{
    let schema = Arc::new(alloc, schema)?;
    let first = Arc::new(alloc, Generation::first(alloc, &schema)?)?;
    let (writer, passes) = make(alloc, first_berths(alloc, &first, readers)?)?;
    let seated = seat(alloc, passes, &schema)?;
    let work = Work::new(alloc, first)?;
    Ok((
        Control::seated(alloc, writer, work, schema, readers),
        seated,
    ))
}
