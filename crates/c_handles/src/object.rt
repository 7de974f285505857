//! What a handle holds.
ghost use Rattle.std.specs.Prelude.{◌≡◌, ◌<◌, ◌*◌, length, Some, IfOk, IfErr, OnOk, OnErr};
ghost use Rattle.c_handles.specs.Seats.{Stays, WentIn, WentOut};
ghost use Rattle.c_handles.specs.Calls.{HasEntered, HasFound, HasFoundAll, HasGeneration, HasMoved, TakesKey, TakesKeys, seen_of, kinds_in, kinds_of};
ghost use Rattle.c_handles.specs.Causes.{RefusesEntry, RefusesHolder, RefusesLookup, RefusesLookups};
ghost use Rattle.c_handles.specs.Codes.{id_of};

use crate::elements::Elements;
use crate::fault::Fault;
use crate::seat::Seat;
use gen_publish::Control;
use set_model::Found;

/// A control, a reader, or the elements of a set.
#[derive(Drop)]
pub enum Object {
    Control(Control),
    Reader(Seat),
    Elements(Elements),
}

/// The id that C gets: the largest number if nothing is found.
pub(crate) fn id_or_none(found: Option<Found>) -> u64
    ensures { result ≡ id_of found }
{
    match found {
        Some(found) => found.id,
        None => u64::MAX,
    }
}

impl Object {
    /// Holds the published generation, and gives its number.
    pub(crate) fn enter(&mut self) -> Result<u64, Fault>
        ensures ok { IfOk result (HasEntered (seen_of self.old) (seen_of self.new)) }
        ensures moved { OnOk result (HasMoved WentIn (Some self.old) (Some self.new)) }
        ensures refused { IfErr result (RefusesEntry self.old) }
        ensures err { OnErr result (self.new ≡ self.old) }
    {
        match self {
            Object::Control(_) | Object::Elements(_) => Err(Fault::Handle),
            Object::Reader(seat) => seat.enter(),
        }
    }

    /// Holds nothing any more.
    pub(crate) fn leave(&mut self) -> Result<(), Fault>
        ensures seen { seen_of self.new ≡ seen_of self.old }
        ensures moved { OnOk result (HasMoved WentOut (Some self.old) (Some self.new)) }
        ensures refused { IfErr result (RefusesHolder self.old) }
        ensures err { OnErr result (self.new ≡ self.old) }
    {
        match self {
            Object::Control(_) | Object::Elements(_) => Err(Fault::Handle),
            Object::Reader(seat) => seat.leave(),
        }
    }

    /// The number of the held generation.
    pub(crate) fn generation(&self) -> Result<u64, Fault>
        ensures ok { IfOk result (HasGeneration (seen_of self.now)) }
        ensures refused { IfErr result (RefusesHolder self.now) }
    {
        match self {
            Object::Control(_) | Object::Elements(_) => Err(Fault::Handle),
            Object::Reader(seat) => seat.generation(),
        }
    }

    /// Looks a key up.
    pub(crate) fn lookup(&mut self, set: u32, key: &[u8], now: u64) -> Result<u64, Fault>
        ensures ok { IfOk result (HasFound (seen_of self.old) (seen_of self.new) (kinds_in (kinds_of self.old) set) set key.now now) }
        ensures taken { OnOk result (TakesKey (kinds_of self.old) set (length key.now)) }
        ensures moved { OnOk result (HasMoved Stays (Some self.old) (Some self.new)) }
        ensures refused { IfErr result (RefusesLookup set (length key.now) self.old) }
        ensures err { OnErr result (self.new ≡ self.old) }
        ensures kinds { kinds_of self.new ≡ kinds_of self.old }
    {
        match self {
            Object::Control(_) | Object::Elements(_) => Err(Fault::Handle),
            Object::Reader(seat) => seat.lookup(set, key, now),
        }
    }

    /// Looks keys up in one generation, and gives its number.
    pub(crate) fn lookup_all(
        &mut self,
        set: u32,
        keys: &[u8],
        now: u64,
        ids: &mut [u64],
    ) -> Result<u64, Fault>
        ensures ok { IfOk result (HasFoundAll (seen_of self.old) (seen_of self.new) (kinds_in (kinds_of self.old) set) set keys.now now ids.new) }
        ensures taken { OnOk result (TakesKeys (kinds_of self.old) set (length ids.old) (length keys.now)) }
        ensures moved { OnOk result (HasMoved Stays (Some self.old) (Some self.new)) }
        ensures refused { IfErr result (RefusesLookups set (length ids.old) (length keys.now) self.old) }
        ensures err { OnErr result ((self.new ≡ self.old) × (ids.new ≡ ids.old)) }
        ensures kinds { kinds_of self.new ≡ kinds_of self.old }
    {
        match self {
            Object::Control(_) | Object::Elements(_) => Err(Fault::Handle),
            Object::Reader(seat) => seat.lookup_all(set, keys, now, ids),
        }
    }
}
