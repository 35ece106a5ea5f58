//! A live block as a C program knows it.

use tlsf_heap::Ptr;

/// What a C program knows a live block by: the place where it begins, in bytes, and its slot. It may be stale.
#[repr(C)]
#[derive(Clone, Copy)]
pub struct Block {
    /// Where the block begins, in bytes.
    pub place: u32,
    /// Its slot.
    pub slot: u16,
}

impl Block {
    ghost use Rattle.std.specs.Prelude.{◌≡◌};
    ghost use Rattle.tlsf_c.specs.Answers.{pointer_of};

    /// The block that a pointer of the heap names.
    pub(crate) fn of(ptr: Ptr) -> Block
        ensures { pointer_of result ≡ ptr }
    {
        Block {
            place: ptr.place(),
            slot: ptr.slot(),
        }
    }

    /// The pointer of the heap.
    pub(crate) fn ptr(self) -> Ptr
        ensures { result ≡ pointer_of self }
    {
        Ptr::new(self.place, self.slot)
    }
}
