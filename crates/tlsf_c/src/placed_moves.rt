//! Pools of a heap that was loaded get memory.

ghost use Rattle.std.specs.Prelude.{◌≡◌, ◌≢◌, ℕ, ◌+◌, ◌-◌, ◌^◌, ◌<◌, ◌≤◌, length, slice_index_or, true, false};
ghost use Rattle.tlsf_heap.specs.Counted.{IsUnchanged};
ghost use Rattle.tlsf_c.specs.Kept.{StandsWhere};
ghost use Rattle.tlsf_c.specs.Moving.{FitsMemory, IsMovedTo};

use crate::front::{FRONT, UNIT};
use crate::placed_loading::LoadedHeap;
use crate::placed_pool::PlacedPool;

/// Gives the pool of an entry the memory from `memory` on, `bytes` bytes, as `tlsf_placed_add_pool` would: its first block begins
/// eight bytes in front of a multiple of 16.
///
/// The answer is whether its units have room there, and the bytes end at the address `last` or before.
#[unsafe(no_mangle)]
pub extern "C" fn tlsf_placed_move(
    heap: &mut LoadedHeap,
    entry: u32,
    memory: u64,
    bytes: u64,
    last: u64,
) -> bool
    ensures moved { result ≡ true → IsMovedTo memory bytes last entry heap.old.pools heap.new.pools }
    ensures refused { result ≡ false → entry < 8 → (pool : PlacedPool) → slice_index_or heap.old.pools entry pool ≡ pool → FitsMemory memory bytes last pool → ⊥ }
    ensures pools { result ≡ false → heap.new.pools ≡ heap.old.pools }
    ensures figures { heap.new.figures ≡ heap.old.figures }
    ensures owner { heap.new.owner ≡ heap.old.owner }
    ensures stands { StandsWhere heap.old.handle heap.new.handle }
    ensures unchanged { heap.new.handle.value ≡ heap.old.handle.value }
{
    if entry >= 8
        || memory > last
        || bytes > last - memory
        || memory > u64::MAX - (FRONT + (UNIT - 1))
    {
        return false;
    }
    let pool = heap.pools[entry as usize];
    let first = (memory + FRONT + (UNIT - 1)) / UNIT * UNIT;
    let whole = (memory + bytes).saturating_sub(first - FRONT) / UNIT * UNIT;
    if whole < FRONT || pool.reach > whole - FRONT {
        return false;
    }
    heap.pools[entry as usize] = PlacedPool {
        first,
        reach: pool.reach,
        place: pool.place,
        number: pool.number,
        owner: pool.owner,
    };
    true
}
