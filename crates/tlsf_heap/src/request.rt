//! What a heap is asked for.

use crate::Ptr;

/// What a heap is asked for.
#[derive(Clone, Copy, Debug, PartialEq, Eq)]
pub enum Request {
    /// A pool: where it begins, and how many bytes it has.
    AddPool(u64, u64),
    /// That the pool that begins at the place is gone.
    RemovePool(u64),
    /// A live block of at least this many bytes.
    Malloc(u64),
    /// A live block at a multiple of an alignment, of at least this many bytes.
    Memalign(u64, u64),
    /// That the pointer's block becomes free.
    Free(Ptr),
    /// That the pointer's block, or a new one where there is none, has room for this many bytes.
    Realloc(Option<Ptr>, u64),
    /// The size of the pointer's block.
    BlockSize(Ptr),
}
