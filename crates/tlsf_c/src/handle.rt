//! What a C program holds of a heap.

ghost use Rattle.tlsf_heap.specs.Counted.{Counted};

use std::marker::Model;
use tlsf_heap::Heap;

/// A heap as a C program holds it: where it stands. It owns the heap and the memory that this stands in.
#[repr(C)]
pub struct Handle {
    at: *mut u8,
    pub ghost value: { Counted },
}

impl Model for Handle {
    ghost use Rattle.tlsf_c.specs.Owned.{owned_heap};

    ghost also_owns = { λ h. owned_heap h.at h.value };
}

impl Handle {
    ghost use Rattle.std.specs.Prelude.{◌≡◌};
    ghost use types.Logic.{sem};
    ghost use Rattle.tlsf_c.specs.Lends.{LendsHeap};

    /// The heap, to be called.
    pub(crate) fn heap(&mut self) -> &mut Heap
        ensures* writes_back { sem 𝓛 (LendsHeap self.entry result) }
        ensures value { result.now ≡ self.old.value }
    {
        unsafe { &mut *(self.at as *mut Heap) }
    }
}
