//! What create gives a C program, and destroy takes back.

ghost use Rattle.std.specs.Prelude.{Option};
ghost use Rattle.tlsf_heap.specs.Counted.{Counted};

use crate::unboxed::Unboxed;
use std::alloc::Global;
use std::marker::Model;
use std::ptr::null_mut;
use tlsf_heap::Heap;

/// Where create puts a handle: the same in C as a handle. It holds none where a C program starts it with zeros.
#[repr(C)]
#[derive(Drop)]
pub struct Made {
    at: *mut u8,
    pub ghost value: { Option Counted },
}

impl Model for Made {
    ghost use Rattle.tlsf_c.specs.Owned.{owned};

    ghost also_owns = { λ m. owned m.at m.value };
}

impl Made {
    ghost use Rattle.std.specs.Prelude.{◌≡◌, Some};
    ghost use Rattle.std.specs.Option.{MatchOption};
    ghost use Rattle.tlsf_c.specs.Creation.{zeros};

    /// The handle of a heap whose box was taken apart.
    pub(crate) fn of(unboxed: Unboxed<Heap, Global>) -> Made
        ensures { result.value ≡ Some unboxed.value }
    {
        let Unboxed { at, alloc: _ } = unboxed;
        Made { at: at as *mut u8 }
    }

    /// No handle.
    pub(crate) fn zeros() -> Made
        ensures { result ≡ zeros }
    {
        Made { at: null_mut() }
    }

    /// The parts of the box of the heap that is held, if one is.
    pub(crate) fn into_unboxed(self, alloc: Global) -> Option<Unboxed<Heap, Global>>
        ensures { MatchOption result (self ≡ zeros) (λ unboxed. self.value ≡ Some unboxed.value) }
    {
        let Made { at } = self;
        if at.is_null() {
            None
        } else {
            let at = at as *mut Heap;
            Some(Unboxed { at, alloc })
        }
    }
}
