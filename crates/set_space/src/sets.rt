ghost use Rattle.std.specs.Prelude.{◌≡◌, ◌<◌, ◌++◌, ◌∷◌, [], length, slice_get, Some, IfOk, OnOk};
ghost use Rattle.std.specs.Arc.{arc_value};

use crate::kept_set::KeptSet;
use set_model::Memory;
use std::alloc::Global;
use std::marker::Model;
use std::sync::Arc;

/// The sets of a generation. Generations share each set that is the same in them. Contracts see the
/// list of the sets' states.
#[derive(Drop)]
pub struct Sets {
    pub(crate) items: Vec<Arc<KeptSet, Global>>,
}

impl Model for Sets {
    ghost use Rattle.std.specs.Arc.{arc_value};
    ghost use Rattle.std.specs.Prelude.{List, map};
    ghost use Rattle.set_model.specs.SetState.{State};

    ghost Value = { List State };

    ghost view = { λ a. map (λ set. arc_value set) a.items.items };
}

impl Sets {
    /// No sets. It takes no memory.
    pub(crate) fn new(alloc: Global) -> Sets
        ensures { result ≡ [] }
    {
        Sets {
            items: Vec::new(alloc),
        }
    }

    /// How many sets there are.
    pub fn len(&self) -> u64
        ensures { result ≡ length self.now }
    {
        self.items.len() as u64
    }

    /// The set at place `i`.
    pub fn at(&self, i: u64) -> &KeptSet
        requires { i < length self.now }
        ensures { slice_get self.now i ≡ Some result.now }
    {
        &self.items[i as usize]
    }

    /// The shared set at place `i`.
    pub(crate) fn shared(&self, i: u64) -> &Arc<KeptSet, Global>
        requires { i < length self.now }
        ensures { slice_get self.now i ≡ Some (arc_value result.now) }
    {
        &self.items[i as usize]
    }

    /// The set at place `i`, which is shared from now on. It stays as it is, and in memory, as long as it is shared.
    ///
    /// # Errors
    ///
    /// `Memory` if there are too many references to count.
    pub fn share(&self, i: u64) -> Result<Arc<KeptSet, Global>, Memory>
        requires { i < length self.now }
        ensures { IfOk result (λ set. slice_get self.now i ≡ Some (arc_value set)) }
    {
        Ok(Arc::try_clone(self.shared(i))?)
    }

    /// Adds a set at the end.
    ///
    /// # Errors
    ///
    /// `Memory` if memory runs out.
    pub(crate) fn push(&mut self, set: Arc<KeptSet, Global>) -> Result<(), Memory>
        ensures { OnOk result (self.new ≡ self.old ++ arc_value set ∷ []) }
    {
        self.items.push(set)?;
        Ok(())
    }
}
