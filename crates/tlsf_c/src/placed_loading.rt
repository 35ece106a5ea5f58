//! A heap that was loaded gets addresses.

ghost use Rattle.std.specs.Prelude.{◌≡◌, ℕ, ◌+◌, ◌*◌, ◌^◌, ◌<◌, ◌≤◌, ◌↔◌, All, AllPairs, Contains, map, max, length, slice_index_or, true, false, IsTrue};
ghost use Rattle.std.specs.List.{AllWithin};
ghost use Rattle.tlsf_heap.specs.Counted.{IsUnchanged, range_of};
ghost use Rattle.tlsf_c.specs.Adopting.{FitEntries, IsWhole};
ghost use Rattle.tlsf_c.specs.Kept.{StandsWhere};
ghost use Rattle.tlsf_c.specs.PlacedPools.{IsPlaced, AreApart, IsEntryOf, IsEntered, placed_range};

use crate::front::{FRONT, UNIT};
use crate::handle::Handle;
use crate::live_count::count_live;
use crate::live_figures::{LiveFigures, lowest_bits};
use crate::placed_pool::PlacedPool;
use crate::pool_places::END_OF_PLACES;

/// A heap that was loaded, and entries for its pools. It becomes a heap with addresses where they fit.
#[repr(C)]
pub struct LoadedHeap {
    /// A word of the program's, which no call changes.
    pub owner: u64,
    /// The heap.
    pub handle: Handle,
    /// An entry for each of its pools. The others hold none.
    pub pools: [PlacedPool; 8],
    /// The most live bytes so far. The other figures may be anything.
    pub figures: LiveFigures,
}

/// Whether places and addresses are in units, and none is above what 32 and 64 bits tell.
fn is_placed(pool: &PlacedPool) -> bool
    ensures { IsTrue result ↔ IsPlaced pool.now }
{
    let place = u64::from(pool.place);
    pool.reach <= END_OF_PLACES
        && place + pool.reach <= END_OF_PLACES
        && place % UNIT == 0
        && pool.first % UNIT == 0
        && (pool.reach == 0 || (pool.first >= UNIT && pool.first - 1 <= u64::MAX - pool.reach))
}

/// Whether the places and addresses of each entry are in units, and none is above what 32 and 64 bits tell.
fn are_placed(pools: &[PlacedPool; 8]) -> bool
    ensures { IsTrue result ↔ (All IsPlaced pools.now) }
{
    for pool in pools {
        if !is_placed(pool) {
            return false;
        }
    }
    true
}

/// Whether the bytes of two pools don't overlap, and they begin at different places.
fn is_apart(one: &PlacedPool, other: &PlacedPool) -> bool
    requires placed { IsPlaced one.now }
    requires other_placed { IsPlaced other.now }
    ensures { IsTrue result ↔ AreApart one.now other.now }
{
    one.reach == 0
        || other.reach == 0
        || (one.place != other.place
            && (one.first - FRONT > other.first + (other.reach - 1)
                || other.first - FRONT > one.first + (one.reach - 1)))
}

/// Whether a pool is apart from each entry from one on.
fn is_apart_from(pools: &[PlacedPool; 8], pool: &PlacedPool, start: usize) -> bool
    requires placed { IsPlaced pool.now }
    requires all_placed { All IsPlaced pools.now }
    requires within { start ≤ 8 }
    ensures { IsTrue result ↔ (AllWithin (AreApart pool.now) pools.now start 8) }
{
    for k in start..8 {
        if !is_apart(pool, &pools[k]) {
            return false;
        }
    }
    true
}

/// Whether the entries are apart.
fn are_apart(pools: &[PlacedPool; 8]) -> bool
    requires placed { All IsPlaced pools.now }
    ensures { IsTrue result ↔ (AllPairs AreApart pools.now) }
{
    for k in 0..8 {
        if !is_apart_from(pools, &pools[k], k + 1) {
            return false;
        }
    }
    true
}

/// Whether the entry's pool is among these ranges of places.
pub(crate) fn has_range(ranges: &[(u64, u64)], place: u64, bytes: u64) -> bool
    ensures { IsTrue result ↔ (Contains ranges.now (place, bytes)) }
{
    for range in ranges {
        if range.0 == place && range.1 == bytes {
            return true;
        }
    }
    false
}

/// Whether each entry holds no pool, or one of these ranges.
pub(crate) fn are_of(pools: &[PlacedPool; 8], ranges: &[(u64, u64)]) -> bool
    requires placed { All IsPlaced pools.now }
    ensures { IsTrue result ↔ (All (IsEntryOf ranges.now) pools.now) }
{
    for pool in pools {
        if pool.reach != 0 && !has_range(ranges, u64::from(pool.place), pool.reach + FRONT) {
            return false;
        }
    }
    true
}

/// Whether an entry holds this range.
fn is_entered(pools: &[PlacedPool; 8], range: &(u64, u64)) -> bool
    requires placed { All IsPlaced pools.now }
    ensures { IsTrue result ↔ (IsEntered pools.now range.now) }
{
    for pool in pools {
        if pool.reach != 0 && u64::from(pool.place) == range.0 && pool.reach + FRONT == range.1 {
            return true;
        }
    }
    false
}

/// Whether an entry holds each of these ranges.
fn are_entered(pools: &[PlacedPool; 8], ranges: &[(u64, u64)]) -> bool
    requires placed { All IsPlaced pools.now }
    ensures { IsTrue result ↔ (All (IsEntered pools.now) ranges.now) }
{
    for range in ranges {
        if !is_entered(pools, range) {
            return false;
        }
    }
    true
}

/// Whether the entries are those of the pools that have these ranges, with addresses that they can have.
fn fit(pools: &[PlacedPool; 8], ranges: &[(u64, u64)]) -> bool
    ensures { IsTrue result ↔ (FitEntries ranges.now pools.now) }
{
    if !are_placed(pools) {
        return false;
    }
    if !are_apart(pools) {
        return false;
    }
    if !are_of(pools, ranges) {
        return false;
    }
    are_entered(pools, ranges)
}

/// Whether the entries of a heap that was loaded are those of its pools, with addresses that they can have. Then its figures
/// become those of its live blocks, and it is a heap with addresses. It reads each block.
#[unsafe(no_mangle)]
pub extern "C" fn tlsf_placed_adopt(heap: &mut LoadedHeap) -> bool
    ensures whole { result ≡ true → IsWhole heap.new.pools heap.new.figures heap.new.handle.value.content }
    ensures refused { result ≡ false → FitEntries (map range_of heap.old.handle.value.content.pools) heap.old.pools → ⊥ }
    ensures most { result ≡ true → heap.new.figures.most_bytes ≡ max heap.old.figures.most_bytes heap.new.figures.bytes }
    ensures figures { result ≡ false → heap.new.figures ≡ heap.old.figures }
    ensures pools { heap.new.pools ≡ heap.old.pools }
    ensures owner { heap.new.owner ≡ heap.old.owner }
    ensures stands { StandsWhere heap.old.handle heap.new.handle }
    ensures unchanged { IsUnchanged heap.old.handle.value heap.new.handle.value }
{
    let ranges = heap.handle.heap().pools();
    if !fit(&heap.pools, ranges.as_slice()) {
        return false;
    }
    let inner = heap.handle.heap();
    inner.keeps_good();
    let live = count_live(inner);
    let bytes = live.bytes - FRONT * live.blocks;
    let most_bytes = heap.figures.most_bytes.max(bytes);
    heap.figures = LiveFigures {
        bytes,
        most_bytes,
        blocks: live.blocks as u32,
        most_again: lowest_bits(most_bytes),
    };
    true
}
