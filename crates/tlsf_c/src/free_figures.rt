//! Figures of what is free in a heap with addresses.

ghost use Rattle.std.specs.Prelude.{◌≡◌, ◌+◌, ◌^◌, ◌≤◌, All, sum_by, option_and_then};
ghost use Rattle.tlsf_class.specs.Classes.{class, need};
ghost use Rattle.tlsf_class.specs.Rounding.{round};
ghost use Rattle.tlsf_heap.specs.Content.{blocks_of};
ghost use Rattle.tlsf_heap.specs.Counted.{Reads};
ghost use Rattle.tlsf_c.specs.FreeFigures.{free_bytes, entry_bytes, IsLargestWithFront, AreFreeWithin, IsBelowClass};
ghost use Rattle.tlsf_c.specs.Fronts.{front};
ghost use Rattle.tlsf_c.specs.Kept.{Keeps};
ghost use Rattle.tlsf_c.specs.PlacedPools.{IsPlaced};

use crate::figures::tlsf_heap_largest_request;
use crate::front::FRONT;
use crate::placed_heap::PlacedHeap;
use crate::placed_pool::PlacedPool;
use tlsf_class::{GREATEST_SIZE, UNIT, class_for, low, round};

/// What is free.
#[repr(C)]
#[derive(Clone, Copy)]
pub struct FreeFigures {
    /// The bytes of the free blocks, with the eight in front of each.
    pub bytes: u64,
    /// For this many bytes or fewer `tlsf_placed_malloc` never answers `NoFit`; 0 where no block is free.
    pub largest_request: u64,
    /// No free block has more bytes behind a front; 0 where no block is free.
    pub largest_free: u64,
}

/// The bytes of the pool that an entry holds, 0 where it holds none.
#[inline(always)]
fn entry_bytes(pool: &PlacedPool) -> u64
    requires placed { IsPlaced pool.now }
    ensures value { result ≡ entry_bytes pool.now }
    ensures few { result ≤ 2 ^ 33 }
{
    if pool.reach == 0 {
        0
    } else {
        pool.reach + FRONT
    }
}

/// The bytes of all pools.
fn bytes_of_pools(pools: &[PlacedPool; 8]) -> u64
    requires placed { All IsPlaced pools.now }
    ensures { result ≡ sum_by entry_bytes pools.now }
{
    let mut bytes = 0;
    for pool in pools {
        bytes += entry_bytes(pool);
    }
    bytes
}

/// The most bytes of a free block, where the lists have a block for a request of `largest` bytes and for no greater one: a unit
/// less than the lowest size of the next class.
fn most_free(largest: u32) -> u32
    ensures { IsBelowClass result (option_and_then need (round (largest + 1))) }
{
    let Some(size) = round(u64::from(largest) + 1) else {
        return GREATEST_SIZE;
    };
    match class_for(size) {
        Some(class) => low(class) - UNIT,
        None => GREATEST_SIZE,
    }
}

/// What is free goes to `out`. At most two touches.
///
/// For more than `largest_request` bytes `tlsf_placed_malloc` looks at one more list, and may find a block there. No free block
/// has more than `largest_free`. With a front, both numbers are sizes of one class.
#[unsafe(no_mangle)]
pub extern "C" fn tlsf_placed_free_figures(heap: &mut PlacedHeap, out: &mut FreeFigures)
    ensures bytes { out.new.bytes ≡ free_bytes (blocks_of heap.old.handle.value.content.pools) }
    ensures largest { IsLargestWithFront out.new.largest_request heap.old.handle.value.content }
    ensures most { AreFreeWithin out.new.largest_free (blocks_of heap.old.handle.value.content.pools) }
    ensures near { class (out.new.largest_request + front) ≡ class (out.new.largest_free + front) }
    ensures none { out.new.bytes ≡ 0 → (out.new.largest_request ≡ 0) × (out.new.largest_free ≡ 0) }
    ensures read { Reads 2 heap.old.handle.value heap.new.handle.value }
    ensures kept { Keeps heap.old heap.new }
    ensures figures { heap.new.figures ≡ heap.old.figures }
{
    heap.handle.heap().keeps_good();
    let live = heap.figures.bytes + FRONT * u64::from(heap.figures.blocks);
    let bytes = bytes_of_pools(&heap.pools) - live;
    let largest = tlsf_heap_largest_request(&mut heap.handle);
    let most = most_free(largest);
    *out = FreeFigures {
        bytes,
        largest_request: u64::from(largest).saturating_sub(FRONT),
        largest_free: u64::from(most).saturating_sub(FRONT),
    };
}
