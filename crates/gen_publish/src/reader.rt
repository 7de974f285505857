//! The readers, which never wait and take no memory.
ghost use Rattle.std.specs.Prelude.{◌≡◌, ℕ, ◌+◌, ◌↔◌, length, IsTrue};
ghost use Rattle.std.specs.Arc.{arc_value};
ghost use Rattle.history_laws.specs.Histories.{StartsWith, EndsWith, longer};
ghost use Rattle.set_model.specs.Control.{Generation};
ghost use Rattle.set_model.specs.Runnable.{IsFitting};
ghost use Rattle.gen_publish.specs.Publish.{IsSeen, IsLookup, reader_view};

use crate::berth::Berth;
use crate::note::Note;
use gen_slots::Pass;
use pipapo_image::Scratch;
use set_model::{Found, Key, Schema, fits};
use set_space::Sets;
use std::alloc::Global;
use std::marker::Model;
use std::sync::Arc;

/// What a reader needs for lookups: the declared sets, and the rows that a lookup works in. They are in
/// a box, so an enter and a leave move only a pointer to them.
#[derive(Drop)]
pub(crate) struct Tools {
    pub(crate) schema: Arc<Schema, Global>,
    pub(crate) scratch: Box<Scratch, Global>,
}

/// A reader that holds no generation.
#[derive(Drop)]
pub struct Reader {
    pass: Pass<Berth>,
    tools: Tools,
}

impl Model for Reader {
    ghost use Rattle.std.specs.Arc.{arc_value};
    ghost use Rattle.gen_publish.specs.Publish.{ReaderView, IsSeen, reader_view};

    ghost Value = { ReaderView };

    ghost view = { λ r. reader_view (arc_value r.tools.schema) r.pass };

    ghost invariant = { λ r. IsSeen (arc_value r.tools.schema) r.pass.seen };
}

/// A reader that holds a generation. The generation is kept until `leave`. If the `Held` is dropped
/// instead, it is kept for good.
#[derive(Drop)]
pub struct Held {
    inner: gen_slots::Held<Berth>,
    tools: Tools,
}

impl Model for Held {
    ghost use Rattle.std.specs.Arc.{arc_value};
    ghost use Rattle.gen_publish.specs.Publish.{ReaderView, IsSeen, reader_view};

    ghost Value = { ReaderView };

    ghost view = { λ h. reader_view (arc_value h.tools.schema) h.inner };

    ghost invariant = { λ h. IsSeen (arc_value h.tools.schema) h.inner.seen };
}

impl Reader {
    pub(crate) fn seated(pass: Pass<Berth>, tools: Tools) -> Reader
        requires { IsSeen (arc_value tools.schema) pass.seen }
        ensures { result ≡ reader_view (arc_value tools.schema) pass }
    {
        Reader { pass, tools }
    }

    /// Makes one atomic addition, and holds the generation that is published at that moment. It takes
    /// no memory.
    pub fn enter(self) -> Held
        ensures seen { StartsWith result.seen self.seen }
        ensures moves { result.moves ≡ self.moves + 1 }
        ensures same { (result.of ≡ self.of) × (result.schema ≡ self.schema) × (result.reader ≡ self.reader) }
    {
        let Reader { pass, tools } = self;
        let inner = pass.enter();
        inner.known();
        Held { inner, tools }
    }

    /// A note of what this reader has seen, for another thread. It takes no memory.
    pub fn note(&mut self) -> Note
        ensures note { (result.of ≡ self.old.of) × (result.list ≡ self.old.seen) }
        ensures same { self.new ≡ self.old }
    {
        Note {
            inner: self.pass.note(),
        }
    }

    /// Takes a note. The reader has then seen the longer of both lists; the other list is a front of
    /// it. It takes no memory.
    pub fn meet(&mut self, note: Note)
        requires { note.of ≡ self.old.of }
        ensures seen { self.new ≡ record self.old { seen = longer self.old.seen note.list } }
        ensures one_list { StartsWith self.new.seen self.old.seen × StartsWith self.new.seen note.list }
    {
        let Note { inner } = note;
        self.pass.meet(inner);
        self.pass.known();
    }
}

impl Held {
    /// The number of the held generation, which is the last that this reader has seen.
    pub fn generation(&self) -> u64
        ensures last { (g : Generation) → EndsWith self.now.seen g → result ≡ g.number }
        ensures place { result + 1 ≡ length self.now.seen }
    {
        self.inner.get().generation.number
    }

    /// The sets of the held generation. A set that is shared from here stays after `leave`.
    pub fn sets(&self) -> &Sets
        ensures sets { (g : Generation) → EndsWith self.now.seen g → result.now ≡ g.sets }
        ensures many { length result.now ≡ length self.now.schema }
    {
        &self.inner.get().generation.sets
    }

    /// Whether `lookup` accepts this key: the set is declared, and each field has one value of its
    /// kind.
    pub fn fits(&self, set: u32, key: &Key) -> bool
        ensures { (now : ℕ) → (IsTrue result ↔ IsFitting self.now.schema (record { set = set; key = key.now; now = now })) }
    {
        let schema = &self.tools.schema;
        let place = u64::from(set);
        place < schema.len() && fits(&schema.at(place).kinds, key)
    }

    /// The first element of a set of the held generation that is live at `now`, in milliseconds, and holds the key. `None`
    /// exactly if there is none. It takes no memory.
    pub fn lookup(&mut self, set: u32, key: &Key, now: u64) -> Option<Found>
        requires { IsFitting self.old.schema (record { set = set; key = key.now; now = now }) }
        ensures found { (g : Generation) → EndsWith self.old.seen g → IsLookup g set key.now now result }
        ensures same { self.new ≡ self.old }
    {
        let generation = &self.inner.get().generation;
        generation
            .sets
            .at(u64::from(set))
            .find(key, now, &mut self.tools.scratch)
    }

    /// Makes one atomic addition, after which the reader holds nothing. It takes no memory.
    pub fn leave(self) -> Reader
        ensures { result ≡ record self { moves = self.moves + 1 } }
    {
        let Held { inner, tools } = self;
        Reader {
            pass: inner.leave(),
            tools,
        }
    }
}
