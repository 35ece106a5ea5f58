//! Pools of a heap with addresses come and go.

ghost use Rattle.std.specs.Prelude.{◌≡◌, ◌↔◌, ◌≢◌, ℕ, ◌+◌, ◌-◌, ◌^◌, ◌<◌, ◌≤◌, ◌⊎◌, All, map, Ok, Err, OnOk, IfErr, OnErr, MatchOption, true, false, length, slice_index_or, IsTrue};
ghost use Rattle.tlsf_heap.specs.declared.refusal.Refusal.TheVariants.{BadPool, PoolsFull, NoPool};
ghost use Rattle.tlsf_heap.specs.Counted.{IsUnchanged, range_of};
ghost use Rattle.tlsf_heap.specs.Pools.{add_pool, remove_pool};
ghost use Rattle.tlsf_heap.specs.Touches.{AtMost, add_pool_touches, remove_pool_touches};
ghost use Rattle.tlsf_c.specs.Kept.{StandsWhere};
ghost use Rattle.tlsf_c.specs.LiveFigures.{IsLiveChange};
ghost use Rattle.tlsf_c.specs.PlacedPools.{IsPlaced, IsClearOf, CanBePlaced, IsEnteredAt, IsVacatedAt};
ghost use Rattle.tlsf_c.specs.RangeMoves.{IsRangeAdded, IsRangeRemoved};
ghost use Rattle.tlsf_c.specs.Status.{number, status_of};

use crate::front::{FRONT, UNIT};
use crate::placed_heap::PlacedHeap;
use crate::placed_pool::PlacedPool;
use crate::status::{SERVED, number};
use tlsf_heap::{Heap, Refusal};

/// `Heap::add_pool`, and which ranges of places are pools then.
fn enter(heap: &mut Heap, place: u64, bytes: u64) -> Result<(), Refusal>
    ensures ok { OnOk result (add_pool place bytes heap.old.content ≡ Ok heap.new.content) }
    ensures ranges { OnOk result (IsRangeAdded place bytes (map range_of heap.old.content.pools) (map range_of heap.new.content.pools)) }
    ensures live { OnOk result (IsLiveChange 0 0 0 0 heap.old.content heap.new.content) }
    ensures refused { IfErr result (λ refusal. add_pool place bytes heap.old.content ≡ Err refusal) }
    ensures unchanged { OnErr result (IsUnchanged heap.old heap.new) }
    ensures bound { AtMost add_pool_touches heap.old.touches heap.new.touches }
{
    heap.keeps_good();
    let added = heap.add_pool(place, bytes);
    heap.keeps_good();
    added
}

/// `Heap::remove_pool`, and which ranges of places are pools then.
fn leave(heap: &mut Heap, place: u64) -> Result<(), Refusal>
    ensures ok { OnOk result (remove_pool place heap.old.content ≡ Ok heap.new.content) }
    ensures ranges { OnOk result (IsRangeRemoved place (map range_of heap.old.content.pools) (map range_of heap.new.content.pools)) }
    ensures live { OnOk result (IsLiveChange 0 0 0 0 heap.old.content heap.new.content) }
    ensures refused { IfErr result (λ refusal. remove_pool place heap.old.content ≡ Err refusal) }
    ensures unchanged { OnErr result (IsUnchanged heap.old heap.new) }
    ensures bound { AtMost remove_pool_touches heap.old.touches heap.new.touches }
{
    heap.keeps_good();
    let removed = heap.remove_pool(place);
    heap.keeps_good();
    removed
}

/// The first entry that holds no pool.
fn vacant_entry(pools: &[PlacedPool; 8]) -> Option<usize>
    ensures { MatchOption result (All (λ pool. 0 < pool.reach) pools.now) (λ entry. (entry < length pools.now) × ((d : PlacedPool) → (slice_index_or pools.now entry d).reach ≡ 0)) }
{
    for entry in 0..pools.len() {
        if pools[entry].reach == 0 {
            return Some(entry);
        }
    }
    None
}

/// Whether no pool overlaps the bytes behind an address, with the front before it.
fn is_clear(pools: &[PlacedPool; 8], first: u64, reach: u64) -> bool
    requires placed { All IsPlaced pools.now }
    requires some { 16 ≤ first }
    requires long { 0 < reach }
    requires ends { first + reach ≤ 2 ^ 64 }
    ensures clear { result ≡ true → All (IsClearOf first reach) pools.now }
    ensures overlaps { result ≡ false → All (IsClearOf first reach) pools.now → ⊥ }
{
    for pool in pools {
        if pool.reach != 0
            && first - FRONT <= pool.first + (pool.reach - 1)
            && pool.first - FRONT <= first + (reach - 1)
        {
            return false;
        }
    }
    true
}

/// Whether a pool of this size, in bytes, can have its first block at this address.
fn can_be_placed(first: u64, bytes: u64) -> bool
    ensures { IsTrue result ↔ (CanBePlaced first bytes) }
{
    first % UNIT == 0 && first >= UNIT && bytes >= UNIT && first - 1 <= u64::MAX - bytes
}

/// A pool of `bytes` bytes, as one free block, whose address is `first`: the pool begins eight bytes before it, and has the
/// places from `place` on. `entry` gets which of the entries holds it. At most 25 touches.
///
/// The status is 0 or the number of `BadPool`, `PoolsFull` or `TableFull`. It is that of `BadPool` also where the pool can't
/// have that address, or overlaps another pool's bytes.
pub(crate) fn add_pool_at(
    heap: &mut PlacedHeap,
    first: u64,
    bytes: u64,
    place: u64,
    entry: &mut u32,
) -> u32
    ensures ok { result ≡ 0 → add_pool place bytes heap.old.handle.value.content ≡ Ok heap.new.handle.value.content }
    ensures entered { result ≡ 0 → IsEnteredAt first bytes place entry.new heap.old.pools heap.new.pools }
    ensures placed { result ≡ 0 → CanBePlaced first bytes × All (IsClearOf first (bytes - 8)) heap.old.pools }
    ensures reason { result ≢ 0 → CanBePlaced first bytes → All (IsClearOf first (bytes - 8)) heap.old.pools → (result ≡ status_of (add_pool place bytes heap.old.handle.value.content)) ⊎ ((result ≡ number PoolsFull) × All (λ pool. 0 < pool.reach) heap.old.pools) }
    ensures no_place { (CanBePlaced first bytes × All (IsClearOf first (bytes - 8)) heap.old.pools → ⊥) → result ≡ number BadPool }
    ensures unchanged { result ≢ 0 → IsUnchanged heap.old.handle.value heap.new.handle.value × (heap.new.pools ≡ heap.old.pools) }
    ensures figures { heap.new.figures ≡ heap.old.figures }
    ensures owner { heap.new.owner ≡ heap.old.owner }
    ensures stands { StandsWhere heap.old.handle heap.new.handle }
    ensures bound { AtMost add_pool_touches heap.old.handle.value.touches heap.new.handle.value.touches }
{
    if !can_be_placed(first, bytes) || !is_clear(&heap.pools, first, bytes - FRONT) {
        return number(Refusal::BadPool);
    }
    let Some(vacant) = vacant_entry(&heap.pools) else {
        return number(Refusal::PoolsFull);
    };
    let old = heap.pools[vacant];
    match enter(heap.handle.heap(), place, bytes) {
        Ok(()) => {
            heap.pools[vacant] = PlacedPool {
                first,
                reach: bytes - FRONT,
                place: place as u32,
                number: old.number,
                owner: old.owner,
            };
            *entry = vacant as u32;
            SERVED
        }
        Err(refusal) => number(refusal),
    }
}

/// The pool that an entry holds is gone. At most 26 touches.
///
/// The status is 0, or the number of `NoPool` where the entry holds none, or that of `PoolInUse`.
#[unsafe(no_mangle)]
pub extern "C" fn tlsf_placed_remove_pool(heap: &mut PlacedHeap, entry: u32) -> u32
    ensures ok { result ≡ 0 → (pool : PlacedPool) × ((slice_index_or heap.old.pools entry pool ≡ pool) × (remove_pool pool.place heap.old.handle.value.content ≡ Ok heap.new.handle.value.content)) }
    ensures vacated { result ≡ 0 → IsVacatedAt entry heap.old.pools heap.new.pools }
    ensures unchanged { result ≢ 0 → IsUnchanged heap.old.handle.value heap.new.handle.value × (heap.new.pools ≡ heap.old.pools) }
    ensures reason { result ≢ 0 → entry < 8 → (pool : PlacedPool) → slice_index_or heap.old.pools entry pool ≡ pool → 0 < pool.reach → result ≡ status_of (remove_pool pool.place heap.old.handle.value.content) }
    ensures beyond { 8 ≤ entry → result ≡ number NoPool }
    ensures empty { entry < 8 → (pool : PlacedPool) → slice_index_or heap.old.pools entry pool ≡ pool → pool.reach ≡ 0 → result ≡ number NoPool }
    ensures figures { heap.new.figures ≡ heap.old.figures }
    ensures owner { heap.new.owner ≡ heap.old.owner }
    ensures stands { StandsWhere heap.old.handle heap.new.handle }
    ensures bound { AtMost remove_pool_touches heap.old.handle.value.touches heap.new.handle.value.touches }
{
    if entry >= 8 {
        return number(Refusal::NoPool);
    }
    let pool = heap.pools[entry as usize];
    if pool.reach == 0 {
        return number(Refusal::NoPool);
    }
    match leave(heap.handle.heap(), u64::from(pool.place)) {
        Ok(()) => {
            heap.pools[entry as usize] = PlacedPool {
                first: 0,
                reach: 0,
                place: 0,
                number: pool.number,
                owner: pool.owner,
            };
            SERVED
        }
        Err(refusal) => number(refusal),
    }
}
