//! Why a call of the heap is refused.

use std::alloc::AllocError;

/// Why a call of the heap is refused. A refused call leaves the heap's content as it was.
#[derive(Clone, Copy, Debug, PartialEq, Eq)]
pub enum Refusal {
    /// No byte was asked for.
    ZeroSize = 1,
    /// No block that fits is free, or more was asked for than a block can have.
    NoFit = 2,
    /// A rest would be left, and the table has no room for it.
    TableFull = 3,
    /// The pointer names no live block.
    BadPointer = 4,
    /// The alignment isn't a power of two, or is too large.
    BadAlign = 5,
    /// Base or size of the pool aren't allowed, or it overlaps another.
    BadPool = 6,
    /// The heap has as many pools as it can have.
    PoolsFull = 7,
    /// A block of the pool is live.
    PoolInUse = 8,
    /// Memory for the answer was refused.
    OutOfMemory = 9,
    /// No pool begins there.
    NoPool = 10,
}

const _: () = prove!(
    Refusal::ZeroSize as u32 == 1
        && Refusal::NoFit as u32 == 2
        && Refusal::TableFull as u32 == 3
        && Refusal::BadPointer as u32 == 4
        && Refusal::BadAlign as u32 == 5
        && Refusal::BadPool as u32 == 6
        && Refusal::PoolsFull as u32 == 7
        && Refusal::PoolInUse as u32 == 8
        && Refusal::OutOfMemory as u32 == 9
        && Refusal::NoPool as u32 == 10
);

impl From<AllocError> for Refusal {
    ghost use Rattle.std.specs.Prelude.{◌≡◌};
    ghost use Rattle.tlsf_heap.specs.declared.refusal.Refusal.TheVariants.{OutOfMemory};

    ghost from_gives = { λ _ refusal. refusal ≡ OutOfMemory };

    fn from(_: AllocError) -> Self {
        Refusal::OutOfMemory
    }
}
