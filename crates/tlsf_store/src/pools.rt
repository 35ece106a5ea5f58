//! A pool of a heap.

use super::Slot;

/// One pool: where it begins and how long it is, in bytes, and the record of its first block.
#[derive(Clone, Copy, Debug, Default, PartialEq, Eq)]
pub struct Pool {
    /// Where the pool begins, in bytes.
    pub base: u32,
    /// How long the pool is, in bytes.
    pub bytes: u32,
    /// The pool's first block.
    pub first: Slot,
}
