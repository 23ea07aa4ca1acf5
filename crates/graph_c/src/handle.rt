//! A handle that C keeps: a pointer to a graph, or to nothing.
ghost use Rattle.std.specs.Prelude.{◌≡◌, Option, Some, None, IsSome};
ghost use Rattle.graph_c.specs.Owned.{held_owns};
ghost use Rattle.graph_c.specs.declared.held.Held.{Held};

use crate::held::Held;
use std::alloc::Global;
use std::marker::Model;
use std::ptr::null_mut;

/// A pointer that owns what it points to. C knows it as `void *`.
#[repr(C)]
#[derive(Drop)]
pub struct Handle {
    at: *mut u8,
    pub ghost value: { Option Held },
}

impl Model for Handle {
    ghost also_owns = { λ h. held_owns h.at h.value };
}

impl Handle {
    /// It points to nothing.
    pub fn none() -> Handle
        ensures { result.value ≡ None }
    {
        Handle { at: null_mut() }
    }

    /// It points to this.
    pub fn of(held: Box<Held>) -> Handle
        ensures { result.value ≡ Some held.value }
    {
        let at = Box::into_raw(held);
        Handle { at: at.cast() }
    }

    /// What it points to, which must be something.
    pub fn into_box(self, alloc: Global) -> Box<Held>
        requires { IsSome self.value }
        ensures { Some result.value ≡ self.value }
    {
        let Handle { at } = self;
        unsafe { Box::from_raw(alloc, at.cast()) }
    }
}
