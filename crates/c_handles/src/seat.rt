//! A reader, and the keys that it looks up with.
ghost use Rattle.std.specs.Prelude.{◌≡◌, ◌<◌, ◌*◌, length, slice_get, Some, IfOk, IfErr, OnOk, OnErr};
ghost use Rattle.history_laws.specs.Histories.{EndsWith};
ghost use Rattle.set_model.specs.Control.{Generation};
ghost use Rattle.gen_publish.specs.Publish.{declared_kinds};
ghost use Rattle.packed_values.specs.Packed.{packed_length};
ghost use Rattle.c_handles.specs.Seats.{IsDeclaredAt, IsSeated, Stays, WentIn, WentOut};
ghost use Rattle.c_handles.specs.Calls.{AreFound, HasEntered, HasFound, HasFoundAll, HasGeneration, TakesKey, TakesKeys, seen_at, kinds_in};
ghost use Rattle.c_handles.specs.Elements.{IsSetAt, RefusesHeldSet};
ghost use Rattle.c_handles.specs.Notes.{HasLooked, HasSeenUpTo, RefusesMeeting};
ghost use Rattle.c_handles.specs.Causes.{IsNotIn, IsNotOut, RefusesKeys};

use crate::elements::Elements;
use crate::fault::Fault;
use crate::key_room::KeyRoom;
use crate::place::Place;
use gen_publish::{Held, Reader};
use std::marker::Model;
use std::mem::replace;

/// A reader, and room for a key of each declared set.
#[derive(Drop)]
pub struct Seat {
    place: Place,
    rooms: Vec<KeyRoom>,
}

impl Model for Seat {
    ghost use Rattle.c_handles.specs.Seats.{SeatView, IsSeated};

    ghost Value = { SeatView };

    ghost view = { λ s. record { place = s.place; kinds = s.rooms.items } };

    ghost invariant = { λ s. IsSeated s.place s.rooms.items };
}

/// Looks as many keys up in the held generation as there are places for ids, and gives the generation's number.
fn find_all(
    held: &mut Held,
    room: &mut KeyRoom,
    set: u32,
    bytes: &[u8],
    now: u64,
    ids: &mut [u64],
) -> u64
    requires bytes { length bytes.now ≡ length ids.old * packed_length room.old }
    requires declared { slice_get (declared_kinds held.old.schema) set ≡ Some room.old }
    ensures same { (room.new ≡ room.old) × (held.new ≡ held.old) }
    ensures ids { (g : Generation) → EndsWith held.old.seen g → AreFound g room.old set bytes.now now ids.new result }
{
    let size = room.size();
    let mut rest = bytes;
    'keys: for i in 0..ids.len() {
        let (first, others) = rest.split_at(size);
        rest = others;
        ids[i] = room.find(held, set, first, now);
    }
    held.generation()
}

/// Looks a key up in the published generation. The reader, which holds none, holds it meanwhile.
#[inline(never)]
fn look_up_published(
    place: &mut Place,
    room: &mut KeyRoom,
    set: u32,
    key: &[u8],
    now: u64,
) -> Result<u64, Fault>
    requires bytes { length key.now ≡ packed_length room.old }
    requires declared { IsDeclaredAt place.old set room.old }
    requires out { IsNotIn place.old }
    ensures room { room.new ≡ room.old }
    ensures ok { IfOk result (HasFound (seen_at place.old) (seen_at place.new) room.old set key.now now) }
    ensures stays { Stays place.old place.new }
    ensures refused { IfErr result (λ fault. (fault ≡ Fault.Turn) × (place.old ≡ Place.Nowhere)) }
    ensures err { OnErr result (place.new ≡ place.old) }
{
    let Place::Out(reader) = replace(place, Place::Nowhere) else {
        return Err(Fault::Turn);
    };
    let mut held = reader.enter();
    let id = room.find(&mut held, set, key, now);
    *place = Place::Out(held.leave());
    Ok(id)
}

/// Looks a key up in the held generation, or in the published one.
fn look_up(
    place: &mut Place,
    room: &mut KeyRoom,
    set: u32,
    key: &[u8],
    now: u64,
) -> Result<u64, Fault>
    requires bytes { length key.now ≡ packed_length room.old }
    requires declared { IsDeclaredAt place.old set room.old }
    ensures room { room.new ≡ room.old }
    ensures ok { IfOk result (HasFound (seen_at place.old) (seen_at place.new) room.old set key.now now) }
    ensures stays { Stays place.old place.new }
    ensures refused { IfErr result (λ fault. (fault ≡ Fault.Turn) × (place.old ≡ Place.Nowhere)) }
    ensures err { OnErr result (place.new ≡ place.old) }
{
    match place {
        Place::In(held) => Ok(room.find(held, set, key, now)),
        Place::Out(_) => look_up_published(place, room, set, key, now),
        Place::Nowhere => Err(Fault::Turn),
    }
}

/// Looks keys up, all in the published generation. The reader, which holds none, holds it meanwhile.
#[inline(never)]
fn look_all_up_published(
    place: &mut Place,
    room: &mut KeyRoom,
    set: u32,
    keys: &[u8],
    now: u64,
    ids: &mut [u64],
) -> Result<u64, Fault>
    requires bytes { length keys.now ≡ length ids.old * packed_length room.old }
    requires declared { IsDeclaredAt place.old set room.old }
    requires out { IsNotIn place.old }
    ensures room { room.new ≡ room.old }
    ensures ok { IfOk result (HasFoundAll (seen_at place.old) (seen_at place.new) room.old set keys.now now ids.new) }
    ensures stays { Stays place.old place.new }
    ensures refused { IfErr result (λ fault. (fault ≡ Fault.Turn) × (place.old ≡ Place.Nowhere)) }
    ensures err { OnErr result ((place.new ≡ place.old) × (ids.new ≡ ids.old)) }
{
    let Place::Out(reader) = replace(place, Place::Nowhere) else {
        return Err(Fault::Turn);
    };
    let mut held = reader.enter();
    let number = find_all(&mut held, room, set, keys, now, ids);
    *place = Place::Out(held.leave());
    Ok(number)
}

/// Looks keys up in the held generation, or all in the published one.
fn look_all_up(
    place: &mut Place,
    room: &mut KeyRoom,
    set: u32,
    keys: &[u8],
    now: u64,
    ids: &mut [u64],
) -> Result<u64, Fault>
    requires bytes { length keys.now ≡ length ids.old * packed_length room.old }
    requires declared { IsDeclaredAt place.old set room.old }
    ensures room { room.new ≡ room.old }
    ensures ok { IfOk result (HasFoundAll (seen_at place.old) (seen_at place.new) room.old set keys.now now ids.new) }
    ensures stays { Stays place.old place.new }
    ensures refused { IfErr result (λ fault. (fault ≡ Fault.Turn) × (place.old ≡ Place.Nowhere)) }
    ensures err { OnErr result ((place.new ≡ place.old) × (ids.new ≡ ids.old)) }
{
    match place {
        Place::In(held) => Ok(find_all(held, room, set, keys, now, ids)),
        Place::Out(_) => look_all_up_published(place, room, set, keys, now, ids),
        Place::Nowhere => Err(Fault::Turn),
    }
}

impl Seat {
    pub(crate) fn new(reader: Reader, rooms: Vec<KeyRoom>) -> Seat
        requires { rooms.items ≡ declared_kinds reader.schema }
        ensures { (result.place ≡ Place.Out reader) × (result.kinds ≡ rooms.items) }
    {
        Seat {
            place: Place::Out(reader),
            rooms,
        }
    }

    /// Holds the published generation, and gives its number.
    pub(crate) fn enter(&mut self) -> Result<u64, Fault>
        ensures ok { IfOk result (HasEntered (seen_at self.old.place) (seen_at self.new.place)) }
        ensures moved { OnOk result (WentIn self.old.place self.new.place) }
        ensures kinds { self.new.kinds ≡ self.old.kinds }
        ensures refused { IfErr result (λ fault. (fault ≡ Fault.Turn) × IsNotOut self.old.place) }
        ensures err { OnErr result (self.new ≡ self.old) }
    {
        match replace(&mut self.place, Place::Nowhere) {
            Place::Out(reader) => {
                let held = reader.enter();
                let number = held.generation();
                self.place = Place::In(held);
                Ok(number)
            }
            Place::In(held) => {
                self.place = Place::In(held);
                Err(Fault::Turn)
            }
            Place::Nowhere => Err(Fault::Turn),
        }
    }

    /// Holds nothing any more.
    pub(crate) fn leave(&mut self) -> Result<(), Fault>
        ensures seen { seen_at self.new.place ≡ seen_at self.old.place }
        ensures moved { OnOk result (WentOut self.old.place self.new.place) }
        ensures kinds { self.new.kinds ≡ self.old.kinds }
        ensures refused { IfErr result (λ fault. (fault ≡ Fault.Turn) × IsNotIn self.old.place) }
        ensures err { OnErr result (self.new ≡ self.old) }
    {
        match replace(&mut self.place, Place::Nowhere) {
            Place::In(held) => {
                self.place = Place::Out(held.leave());
                Ok(())
            }
            Place::Out(reader) => {
                self.place = Place::Out(reader);
                Err(Fault::Turn)
            }
            Place::Nowhere => Err(Fault::Turn),
        }
    }

    /// The number of the held generation.
    pub(crate) fn generation(&self) -> Result<u64, Fault>
        ensures ok { IfOk result (HasGeneration (seen_at self.now.place)) }
        ensures refused { IfErr result (λ fault. (fault ≡ Fault.Turn) × IsNotIn self.now.place) }
    {
        match &self.place {
            Place::In(held) => Ok(held.generation()),
            Place::Out(_) => Err(Fault::Turn),
            Place::Nowhere => Err(Fault::Turn),
        }
    }

    /// The elements of a set of the held generation.
    pub(crate) fn elements(&self, set: u32) -> Result<Elements, Fault>
        ensures ok { IfOk result (IsSetAt self.now.place set) }
        ensures declared { OnOk result (RefusesHeldSet self.now.place set Fault.Memory) }
        ensures refused { IfErr result (RefusesHeldSet self.now.place set) }
    {
        match &self.place {
            Place::In(held) => Elements::of_held(held, set),
            Place::Out(_) => Err(Fault::Turn),
            Place::Nowhere => Err(Fault::Turn),
        }
    }

    /// The number of the last generation that the reader has seen. If it holds none, it looks at the published one first.
    pub(crate) fn look(&mut self) -> Result<u64, Fault>
        ensures ok { IfOk result (HasGeneration (seen_at self.new.place)) }
        ensures looked { HasLooked self.old self.new }
        ensures refused { IfErr result (λ fault. (fault ≡ Fault.Turn) × (self.old.place ≡ Place.Nowhere)) }
        ensures err { OnErr result (self.new ≡ self.old) }
    {
        match replace(&mut self.place, Place::Nowhere) {
            Place::In(held) => {
                let number = held.generation();
                self.place = Place::In(held);
                Ok(number)
            }
            Place::Out(reader) => {
                let held = reader.enter();
                let number = held.generation();
                self.place = Place::Out(held.leave());
                Ok(number)
            }
            Place::Nowhere => Err(Fault::Turn),
        }
    }

    /// Whether the last generation that the reader has seen is that of a note, or a later one. If it holds none, it looks at the
    /// published one first.
    pub(crate) fn meet(&mut self, note: u64) -> Result<(), Fault>
        ensures ok { OnOk result (HasSeenUpTo note (seen_at self.new.place)) }
        ensures looked { HasLooked self.old self.new }
        ensures refused { IfErr result (RefusesMeeting note self.old self.new) }
    {
        let last = match self.look() {
            Ok(last) => last,
            Err(fault) => return Err(fault),
        };
        if last < note {
            return Err(Fault::Note);
        }
        Ok(())
    }

    /// Looks a key up in the held generation, or in the published one.
    pub(crate) fn lookup(&mut self, set: u32, key: &[u8], now: u64) -> Result<u64, Fault>
        ensures ok { IfOk result (HasFound (seen_at self.old.place) (seen_at self.new.place) (kinds_in self.old.kinds set) set key.now now) }
        ensures taken { OnOk result (TakesKey self.old.kinds set (length key.now)) }
        ensures stays { Stays self.old.place self.new.place }
        ensures kinds { self.new.kinds ≡ self.old.kinds }
        ensures refused { IfErr result (RefusesKeys (λ kinds. packed_length kinds) set (length key.now) self.old) }
        ensures err { OnErr result (self.new ≡ self.old) }
    {
        let place = set as usize;
        if self.rooms.len() <= place {
            return Err(Fault::Set);
        }
        if !self.rooms[place].takes(key.len()) {
            return Err(Fault::Length);
        }
        look_up(&mut self.place, &mut self.rooms[place], set, key, now)
    }

    /// Looks keys up in the held generation, or all in the published one.
    pub(crate) fn lookup_all(
        &mut self,
        set: u32,
        keys: &[u8],
        now: u64,
        ids: &mut [u64],
    ) -> Result<u64, Fault>
        ensures ok { IfOk result (HasFoundAll (seen_at self.old.place) (seen_at self.new.place) (kinds_in self.old.kinds set) set keys.now now ids.new) }
        ensures taken { OnOk result (TakesKeys self.old.kinds set (length ids.old) (length keys.now)) }
        ensures stays { Stays self.old.place self.new.place }
        ensures kinds { self.new.kinds ≡ self.old.kinds }
        ensures refused { IfErr result (RefusesKeys (λ kinds. length ids.old * packed_length kinds) set (length keys.now) self.old) }
        ensures err { OnErr result ((self.new ≡ self.old) × (ids.new ≡ ids.old)) }
    {
        let place = set as usize;
        if self.rooms.len() <= place {
            return Err(Fault::Set);
        }
        if !self.rooms[place].takes_all(ids.len(), keys.len()) {
            return Err(Fault::Length);
        }
        look_all_up(&mut self.place, &mut self.rooms[place], set, keys, now, ids)
    }
}
