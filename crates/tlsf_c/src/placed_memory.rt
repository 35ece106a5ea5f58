//! Memory becomes a pool of a heap with addresses.

ghost use Rattle.std.specs.Prelude.{◌≡◌, ◌≢◌, ◌+◌, ◌-◌, ◌^◌, ◌<◌, ◌≤◌, All, true, false};
ghost use Rattle.tlsf_heap.specs.declared.refusal.Refusal.TheVariants.{BadAlign, BadPool};
ghost use Rattle.tlsf_heap.specs.Counted.{IsUnchanged};
ghost use Rattle.tlsf_heap.specs.Memalign.{is_alignment};
ghost use Rattle.tlsf_heap.specs.Touches.{AtMost, add_pool_touches};
ghost use Rattle.tlsf_c.specs.Fronts.{front};
ghost use Rattle.tlsf_c.specs.Kept.{StandsWhere};
ghost use Rattle.tlsf_c.specs.PlacedPools.{CanBePlaced, IsClearOf};
ghost use Rattle.tlsf_c.specs.PoolPlaces.{first_in, bytes_in, IsPoolAdded, IsPoolRefused};
ghost use Rattle.tlsf_c.specs.Status.{number};

use crate::front::{FRONT, UNIT};
use crate::placed_heap::PlacedHeap;
use crate::placed_pools::add_pool_at;
use crate::pool_places::place_for;
use crate::status::number;
use tlsf_heap::{Refusal, is_alignment};

/// A pool, as one free block, of the whole units of 16 bytes in the memory from `memory` on, `bytes` bytes. The first begins
/// eight bytes in front of a multiple of 16. The pool's places and addresses are equal modulo `align`. `entry` gets which of
/// the entries holds it. At most 25 touches.
///
/// The status is 0 or the number of `BadAlign`, `BadPool`, `PoolsFull` or `TableFull`. It is that of `BadPool` also where the
/// memory has no unit or overlaps another pool's bytes, or where no places are left.
#[unsafe(no_mangle)]
pub extern "C" fn tlsf_placed_add_pool(
    heap: &mut PlacedHeap,
    memory: u64,
    bytes: u64,
    align: u64,
    entry: &mut u32,
) -> u32
    ensures added { result ≡ 0 → IsPoolAdded align (first_in memory) (bytes_in memory bytes) entry.new heap.old.pools heap.new.pools heap.old.handle.value.content heap.new.handle.value.content }
    ensures placed { result ≡ 0 → CanBePlaced (first_in memory) (bytes_in memory bytes) × All (IsClearOf (first_in memory) (bytes_in memory bytes - front)) heap.old.pools }
    ensures within { result ≡ 0 → memory + bytes < 2 ^ 64 }
    ensures bad_align { is_alignment align ≡ false → result ≡ number BadAlign }
    ensures beyond { is_alignment align ≡ true → 2 ^ 64 ≤ memory + bytes → result ≡ number BadPool }
    ensures no_place { is_alignment align ≡ true → (CanBePlaced (first_in memory) (bytes_in memory bytes) × All (IsClearOf (first_in memory) (bytes_in memory bytes - front)) heap.old.pools → ⊥) → result ≡ number BadPool }
    ensures reason { result ≢ 0 → is_alignment align ≡ true → memory + bytes < 2 ^ 64 → CanBePlaced (first_in memory) (bytes_in memory bytes) → All (IsClearOf (first_in memory) (bytes_in memory bytes - front)) heap.old.pools → IsPoolRefused align (first_in memory) (bytes_in memory bytes) result heap.old.pools heap.old.handle.value.content }
    ensures unchanged { result ≢ 0 → IsUnchanged heap.old.handle.value heap.new.handle.value × (heap.new.pools ≡ heap.old.pools) }
    ensures figures { heap.new.figures ≡ heap.old.figures }
    ensures owner { heap.new.owner ≡ heap.old.owner }
    ensures stands { StandsWhere heap.old.handle heap.new.handle }
    ensures bound { AtMost add_pool_touches heap.old.handle.value.touches heap.new.handle.value.touches }
{
    if !is_alignment(align) {
        return number(Refusal::BadAlign);
    }
    if memory > u64::MAX - bytes || memory > u64::MAX - (FRONT + (UNIT - 1)) {
        return number(Refusal::BadPool);
    }
    let first = (memory + FRONT + (UNIT - 1)) / UNIT * UNIT;
    let start = first - FRONT;
    let whole = (memory + bytes).saturating_sub(start) / UNIT * UNIT;
    match place_for(&heap.pools, align, first, whole) {
        Some(place) => add_pool_at(heap, first, whole, place, entry),
        None => number(Refusal::BadPool),
    }
}
