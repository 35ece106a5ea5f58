//! A heap and what is held in it.

use crate::heap::index::Index;
use tlsf_heap::Heaped;

/// A heap, and the blocks of it that are held, by address.
#[derive(Drop)]
pub(crate) struct Holder<H: Heaped> {
    pub(crate) heap: H,
    pub(crate) held: Index,
}
