//! The log of transactions.
ghost use Rattle.std.specs.Prelude.{◌≡◌, ◌<◌, ◌++◌, [], ◌∷◌, Some, length, slice_get};

use crate::logged_steps::LoggedSteps;
use set_model::{Event, Events};
use std::alloc::Global;
use std::marker::Model;

/// One submitted transaction, and its outcome.
#[derive(Drop)]
pub struct Entry {
    /// The number of the control thread that submitted it, from 1.
    pub clerk: u32,
    /// Its changes, and the commit or abort that ends it.
    pub steps: LoggedSteps,
    /// Whether refused changes were skipped and didn't fail it.
    pub keep_going: bool,
    /// Its refused changes, in their order.
    pub refused: Events,
    /// How it ended.
    pub end: Event,
}

/// The submitted transactions, in the order in which they were done. Contracts see it as the list of
/// its entries.
#[derive(Drop)]
pub struct Log {
    pub(crate) alloc: Global,
    pub(crate) entries: Vec<Entry>,
}

impl Model for Log {
    ghost use Rattle.std.specs.Prelude.{List};
    ghost use Rattle.control_desk.specs.declared.entry.Entry.{Entry};

    ghost Value = { List Entry };

    ghost view = { λ a. a.entries.items };
}

impl Log {
    /// The empty log. It takes no memory.
    pub fn new(alloc: Global) -> Log
        ensures { result ≡ [] }
    {
        Log {
            alloc,
            entries: Vec::new(alloc),
        }
    }

    /// How many entries there are.
    pub fn len(&self) -> u64
        ensures { result ≡ length self.now }
    {
        self.entries.len() as u64
    }

    /// The entry at place `i`.
    pub fn at(&self, i: u64) -> &Entry
        requires { i < length self.now }
        ensures { slice_get self.now i ≡ Some result.now }
    {
        &self.entries[i as usize]
    }

    /// The entries, in their order. The log is gone.
    pub fn into_entries(self) -> Vec<Entry>
        ensures { result.items ≡ self }
    {
        self.entries
    }

    /// The entries, in their order.
    pub fn as_slice(&self) -> &[Entry]
        ensures { result.now ≡ self.now }
    {
        self.entries.as_slice()
    }
}
