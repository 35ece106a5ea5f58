//! A pointer to a block.

use std::marker::Model;

/// What a caller knows a live block by: the place where it begins, in bytes, and its slot. It may be
/// stale: it is live where a live block has both.
#[derive(Clone, Copy, Debug, PartialEq, Eq)]
pub struct Ptr {
    place: u32,
    slot: u16,
}

impl Model for Ptr {
    ghost use Rattle.tlsf_heap.specs.Pointer.{Pointer};

    ghost Value = { Pointer };

    ghost view = { λ p. record { place = p.place; slot = p.slot } };

    ghost inverse = { λ v. record { place = v.place; slot = v.slot } };
}

impl Ptr {
    ghost use Rattle.std.specs.Prelude.{◌≡◌};

    /// The pointer with this place, in bytes, and this slot.
    pub fn new(place: u32, slot: u16) -> Ptr
        ensures { result ≡ record { place = place; slot = slot } }
    {
        Ptr { place, slot }
    }

    /// Where the block begins, in bytes.
    pub fn place(self) -> u32
        ensures { result ≡ self.place }
    {
        self.place
    }

    /// The block's slot.
    pub fn slot(self) -> u16
        ensures { result ≡ self.slot }
    {
        self.slot
    }
}
