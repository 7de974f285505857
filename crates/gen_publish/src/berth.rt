//! The content of a slot's berth: one reader's pointer to the slot's generation.
ghost use Rattle.std.specs.Prelude.{◌≡◌, length, IfOk};
ghost use Rattle.std.specs.Arc.{arc_value};
ghost use Rattle.history_laws.specs.States.{AllShow, AllAre};

use gen_slots::Version;
use set_model::Memory;
use set_space::Generation;
use std::alloc::Global;
use std::sync::Arc;

/// A shared generation.
#[derive(Drop)]
pub struct Berth {
    pub(crate) generation: Arc<Generation, Global>,
}

impl Version for Berth {
    ghost use Rattle.std.specs.Arc.{arc_value};
    ghost use Rattle.gen_publish.specs.Publish.{Follows};

    type State = Generation;

    ghost state = { λ b. arc_value b.generation };

    ghost follows = { Follows };
}

/// The berths at the start, one for each reader.
#[tactic(auto, using(crate::proofs::Berths::all_are_more))]
pub(crate) fn first_berths(
    alloc: Global,
    generation: &Arc<Generation, Global>,
    readers: u32,
) -> Result<Vec<Berth>, Memory>
    ensures { IfOk result (λ v. (length v.items ≡ readers) × AllAre (λ b. arc_value b.generation) (arc_value generation.now) v.items) }
{
    let mut berths = Vec::new(alloc);
    'readers: for _ in 0..readers {
        berths.push(Berth {
            generation: Arc::try_clone(generation)?,
        })?;
    }
    Ok(berths)
}

/// The berths of the next generation, one for each reader.
#[tactic(auto, using(crate::proofs::Berths::all_show_more))]
pub(crate) fn next_berths(
    alloc: Global,
    generation: &Arc<Generation, Global>,
    readers: u32,
) -> Result<Vec<Option<Berth>>, Memory>
    ensures { IfOk result (λ v. (length v.items ≡ readers) × AllShow (λ b. arc_value b.generation) (arc_value generation.now) v.items) }
{
    let mut berths = Vec::new(alloc);
    'readers: for _ in 0..readers {
        berths.push(Some(Berth {
            generation: Arc::try_clone(generation)?,
        }))?;
    }
    Ok(berths)
}
