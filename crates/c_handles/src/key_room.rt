//! The keys that lookups write their values into.
ghost use Rattle.std.specs.Prelude.{◌≡◌, ◌↔◌, ◌*◌, length, slice_get, Some, IsTrue, IfOk};
ghost use Rattle.history_laws.specs.Histories.{EndsWith};
ghost use Rattle.set_model.specs.Control.{Generation};
ghost use Rattle.gen_publish.specs.Publish.{declared_kinds};
ghost use Rattle.packed_values.specs.Packed.{packed_length};

use crate::object::id_or_none;
use gen_publish::Held;
use packed_values::{key_length, read_key};
use set_model::{Duplicate, Key, Kinds, Memory, Schema};
use std::alloc::Global;
use std::marker::Model;

/// The kinds of a set's fields, how many bytes a key has, and a key of as many values. What its values are doesn't matter:
/// each lookup writes all.
#[derive(Drop)]
pub struct KeyRoom {
    kinds: Kinds,
    size: usize,
    key: Key,
}

impl Model for KeyRoom {
    ghost use Rattle.std.specs.Prelude.{◌≡◌, List, length};
    ghost use Rattle.set_model.specs.declared.kind.Kind.{Kind};
    ghost use Rattle.packed_values.specs.Packed.{packed_length};

    ghost Value = { List Kind };

    ghost view = { λ r. r.kinds };

    ghost invariant = { λ r. (length r.key ≡ length r.kinds) × (r.size ≡ packed_length r.kinds) };
}

/// A key of so many values, all 0.
fn blank_key(alloc: Global, fields: u64) -> Result<Key, Memory>
    ensures { IfOk result (λ key. length key ≡ fields) }
{
    let mut key = Key::new(alloc);
    'fields: while key.len() < fields {
        key.push(0)?;
    }
    Ok(key)
}

impl KeyRoom {
    ghost use Rattle.c_handles.specs.Calls.{IsIdIn};

    fn of(alloc: Global, kinds: &Kinds) -> Result<KeyRoom, Memory>
        ensures { IfOk result (λ room. room ≡ kinds.now) }
    {
        let Some(size) = key_length(kinds.as_slice()) else {
            return Err(Memory);
        };
        Ok(KeyRoom {
            kinds: kinds.copy(alloc)?,
            size,
            key: blank_key(alloc, kinds.len())?,
        })
    }

    /// How many bytes a key has.
    pub(crate) fn size(&self) -> usize
        ensures { result ≡ packed_length self.now }
    {
        self.size
    }

    /// Whether a key has so many bytes.
    pub(crate) fn takes(&self, bytes: usize) -> bool
        ensures { IsTrue result ↔ (bytes ≡ packed_length self.now) }
    {
        bytes == self.size
    }

    /// Whether so many keys have so many bytes together.
    pub(crate) fn takes_all(&self, count: usize, bytes: usize) -> bool
        ensures { IsTrue result ↔ (bytes ≡ count * packed_length self.now) }
    {
        match count.checked_mul(self.size) {
            Some(all) => bytes == all,
            None => false,
        }
    }

    /// Looks a key up in the held generation, and gives the element's id, or the largest number. (A number comes back in a
    /// register, and what was found through memory.)
    pub(crate) fn find(&mut self, held: &mut Held, set: u32, bytes: &[u8], now: u64) -> u64
        requires bytes { length bytes.now ≡ packed_length self.old }
        requires declared { slice_get (declared_kinds held.old.schema) set ≡ Some self.old }
        ensures same { (self.new ≡ self.old) × (held.new ≡ held.old) }
        ensures id { (g : Generation) → EndsWith held.old.seen g → IsIdIn g self.old set bytes.now now result }
    {
        read_key(self.key.as_mut_slice(), self.kinds.as_slice(), bytes);
        id_or_none(held.lookup(set, &self.key, now))
    }
}

/// Room for a key of each declared set.
pub(crate) fn key_rooms(alloc: Global, schema: &Schema) -> Result<Vec<KeyRoom>, Memory>
    ensures { IfOk result (λ rooms. rooms.items ≡ declared_kinds schema.now) }
{
    let mut rooms = Vec::new(alloc);
    'sets: for set in schema.as_slice() {
        rooms.push(KeyRoom::of(alloc, &set.kinds)?)?;
    }
    Ok(rooms)
}
