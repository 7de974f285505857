//! What C holds: a box as its pointer, or null.
ghost use Rattle.std.specs.Prelude.{◌≡◌, Some, None, Option};
ghost use Rattle.std.specs.Option.{MatchOption};
ghost use Rattle.c_handles.specs.declared.object.Object.{Object as Of};
ghost use Rattle.c_handles.specs.Holding.{holds};

use crate::loose::Loose;
use crate::object::Object;
use std::alloc::Global;
use std::marker::Model;
use std::mem::replace;
use std::ptr::null_mut;

/// What C sees of an object: nothing.
#[repr(C)]
#[derive(Drop)]
pub struct Opaque {
    byte: u8,
}

/// A box as its pointer, or null. The allocator takes no bytes.
#[repr(C)]
pub struct Handle {
    at: *mut Opaque,
    alloc: Global,
    pub ghost held: { Option Of },
}

impl Model for Handle {
    ghost also_owns = { λ h. holds h.alloc h.at h.held };
}

unsafe impl Send for Handle {}

impl Handle {
    /// The empty handle.
    pub fn none(alloc: Global) -> Handle
        ensures { result.held ≡ None }
    {
        Handle {
            at: null_mut(),
            alloc,
        }
    }

    fn of(loose: Loose<Object, Global>) -> Handle
        ensures { result.held ≡ Some loose.value }
    {
        let Loose { at, alloc } = loose;
        Handle {
            at: at as *mut Opaque,
            alloc,
        }
    }

    fn into_loose(self) -> Option<Loose<Object, Global>>
        ensures { MatchOption result (self.held ≡ None) (λ b. self.held ≡ Some b.value) }
    {
        let Handle { at, alloc } = self;
        if at.is_null() {
            None
        } else {
            Some(Loose {
                at: at as *mut Object,
                alloc,
            })
        }
    }

    /// What is held, which leaves the handle empty.
    pub fn take(&mut self, alloc: Global) -> Option<Box<Object>>
        ensures old { MatchOption result (self.old.held ≡ None) (λ b. self.old.held ≡ Some b.value) }
        ensures new { self.new.held ≡ None }
    {
        match replace(self, Handle::none(alloc)).into_loose() {
            Some(loose) => Some(loose.into_box()),
            None => None,
        }
    }

    /// Holds a box. What was held ends.
    pub fn put(&mut self, boxed: Box<Object>)
        ensures { self.new.held ≡ Some boxed.value }
    {
        *self = Handle::of(Loose::of(boxed));
    }
}

impl Drop for Handle {
    fn drop(self) {
        if let Some(loose) = self.into_loose() {
            drop(loose.into_box());
        }
    }
}
