ghost use Rattle.std.specs.Prelude.{◌≡◌, ◌<◌, ◌≤◌, [], ◌∷◌, ◌++◌, length, All, OnOk, nat_lt};
ghost use Rattle.set_script.specs.Limits.{most_sets, HasShortTimeout};

use set_model::{Listed, Memory, Schema, SetDecl};
use std::alloc::Global;
use std::marker::Model;

const MOST_SETS: u64 = 64;

/// The sets that a script has declared so far. There are no more of them than a script may declare.
/// Each set's timeout, if it has one, is a time that a text may mean.
#[derive(Drop)]
pub struct Declared {
    sets: Schema,
}

impl Model for Declared {
    ghost use Rattle.std.specs.Prelude.{List, ◌≤◌, length, All};
    ghost use Rattle.set_model.specs.declared.script.SetDecl.{SetDecl};
    ghost use Rattle.set_script.specs.Limits.{most_sets, HasShortTimeout};

    ghost Value = { List SetDecl };

    ghost view = { λ d. d.sets };

    ghost invariant = { λ d. (length d.sets ≤ most_sets) × All HasShortTimeout d.sets };
}

impl Declared {
    /// No sets. It takes no memory.
    pub fn new(alloc: Global) -> Self
        ensures { result ≡ [] }
    {
        Declared {
            sets: Listed::new(alloc),
        }
    }

    /// How many sets there are.
    pub fn len(&self) -> u32
        ensures { result ≡ length self.now }
    {
        self.sets.len() as u32
    }

    /// Whether one more set may be declared.
    pub fn has_room(&self) -> bool
        ensures { result ≡ nat_lt (length self.now) most_sets }
    {
        self.sets.len() < MOST_SETS
    }

    /// The sets, in the order of their declarations.
    pub fn as_slice(&self) -> &[SetDecl]
        ensures sets { result.now ≡ self.now }
        ensures few { length result.now ≤ most_sets }
        ensures short { All HasShortTimeout result.now }
    {
        self.sets.as_slice()
    }

    /// Declares one more set. `Memory` leaves the sets as they were.
    pub fn push(&mut self, decl: SetDecl) -> Result<(), Memory>
        requires room { length self.old < most_sets }
        requires short { HasShortTimeout decl }
        ensures { OnOk result (self.new ≡ self.old ++ decl ∷ []) }
    {
        self.sets.push(decl)
    }

    /// The schema of the sets.
    pub fn into_schema(self) -> Schema
        ensures { result ≡ self }
    {
        self.sets
    }
}
