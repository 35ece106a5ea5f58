//! A block as it was read, or as it is to be.

ghost use Rattle.std.specs.Prelude.{◌≡◌};
ghost use Rattle.tlsf_heap.specs.Inner.Spans.{span_of};

use tlsf_store::{Record, Slot};

/// What is known of a block: its slot, its place and size in bytes, and the block behind it in its pool.
#[derive(Clone, Copy)]
pub(crate) struct Span {
    pub(crate) slot: Slot,
    pub(crate) place: u32,
    pub(crate) size: u32,
    pub(crate) next: Option<Slot>,
}

impl Span {
    /// The block of a slot, by its record.
    pub(crate) fn of(slot: Slot, block: &Record) -> Span
        ensures { result ≡ span_of slot block.now }
    {
        Span {
            slot,
            place: block.place,
            size: block.size,
            next: block.next,
        }
    }
}
