ghost use Rattle.std.specs.Prelude.{◌≡◌, ◌<◌, IfOk, Some, All, length, map, slice_get};
ghost use Rattle.std.specs.Arc.{arc_value};
ghost use Rattle.set_model.specs.SetState.{empty_set};
ghost use Rattle.set_model.specs.Control.{first_generation};
ghost use Rattle.set_space.specs.Open.{CanBeBuilt};

use crate::kept_set::KeptSet;
use crate::sets::Sets;
use set_model::{Memory, Schema, SetDecl};
use std::alloc::Global;
use std::marker::Model;
use std::sync::Arc;

/// The sets at a commit, and the number of the commit.
#[derive(Drop)]
pub struct Generation {
    /// The number of the commit. Number 0 is the start.
    pub number: u64,
    /// The declared sets, in their order.
    pub sets: Sets,
}

impl Model for Generation {
    ghost use Rattle.set_model.specs.Control.{Generation};

    ghost Value = { Generation };

    ghost view = { λ g. record { number = g.number; sets = g.sets } };
}

/// A declared set, without elements.
fn empty_set(alloc: Global, set: &SetDecl) -> Result<Arc<KeptSet, Global>, Memory>
    requires { CanBeBuilt set.now }
    ensures { IfOk result (λ kept. arc_value kept ≡ empty_set set.now.kinds set.now.size set.now.disjoint) }
{
    let kept = KeptSet::new(alloc, &set.kinds, set.size, set.disjoint)?;
    Ok(Arc::new(alloc, kept)?)
}

fn empty_sets(alloc: Global, schema: &Schema) -> Result<Sets, Memory>
    requires { All CanBeBuilt schema.now }
    ensures { IfOk result (λ sets. sets ≡ map (λ d. empty_set d.kinds d.size d.disjoint) schema.now) }
{
    let mut sets = Sets::new(alloc);
    'sets: for set in schema.as_slice() {
        sets.push(empty_set(alloc, set)?)?;
    }
    Ok(sets)
}

impl Generation {
    /// Generation 0: every declared set, without elements.
    ///
    /// # Errors
    ///
    /// `Memory` if memory runs out.
    pub fn first(alloc: Global, schema: &Schema) -> Result<Generation, Memory>
        requires { All CanBeBuilt schema.now }
        ensures { IfOk result (λ g. g ≡ first_generation schema.now) }
    {
        let sets = empty_sets(alloc, schema)?;
        Ok(Generation { number: 0, sets })
    }
    /// The set at a place.
    pub(crate) fn set(&self, set: u32) -> &KeptSet
        requires { set < length self.now.sets }
        ensures { slice_get self.now.sets set ≡ Some result.now }
    {
        self.sets.at(u64::from(set))
    }

    /// The shared set at a place.
    pub(crate) fn shared(&self, set: u32) -> &Arc<KeptSet, Global>
        requires { set < length self.now.sets }
        ensures { slice_get self.now.sets set ≡ Some (arc_value result.now) }
    {
        self.sets.shared(u64::from(set))
    }

    pub(crate) fn len(&self) -> u64
        ensures { result ≡ length self.now.sets }
    {
        self.sets.len()
    }
}
