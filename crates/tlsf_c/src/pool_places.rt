//! Where a new pool of a heap with addresses has its places.

ghost use Rattle.std.specs.Prelude.{◌≡◌, ◌↔◌, ℕ, ◌+◌, ◌%◌, ◌^◌, ◌<◌, ◌≤◌, All, MatchOption, true, IsTrue};
ghost use Rattle.tlsf_heap.specs.Memalign.{is_alignment};
ghost use Rattle.tlsf_c.specs.PlacedPools.{IsPlaced};
ghost use Rattle.tlsf_c.specs.PoolPlaces.{IsLike, IsBeside, HasRoom, IsNextLike};

use crate::front::FRONT;
use crate::placed_pool::PlacedPool;

/// One more than the last place.
pub(crate) const END_OF_PLACES: u64 = 1 << 32;

/// The first place from another on that equals the address modulo the alignment.
fn next_like(align: u64, address: u64, from: u64) -> u64
    requires is { is_alignment align ≡ true }
    requires low { from ≤ 2 ^ 33 }
    ensures { IsNextLike align address from result }
{
    let mask = align - 1;
    let ahead = address & mask;
    let behind = from & mask;
    if behind <= ahead {
        from + (ahead - behind)
    } else {
        from + (align - behind) + ahead
    }
}

/// Whether the places from this one on, one for each of these bytes, are no pool's.
fn has_room(pools: &[PlacedPool; 8], place: u64, bytes: u64) -> bool
    requires placed { All IsPlaced pools.now }
    requires low { place ≤ 2 ^ 34 }
    ensures { IsTrue result ↔ (HasRoom place bytes pools.now) }
{
    if bytes > END_OF_PLACES || place + bytes > END_OF_PLACES {
        return false;
    }
    for pool in pools {
        let start = u64::from(pool.place);
        if pool.reach != 0 && start < place + bytes && place < start + pool.reach + FRONT {
            return false;
        }
    }
    true
}

/// A place for a pool of these bytes that equals the address modulo the alignment. No pool has its places.
pub(crate) fn place_for(
    pools: &[PlacedPool; 8],
    align: u64,
    address: u64,
    bytes: u64,
) -> Option<u64>
    requires placed { All IsPlaced pools.now }
    requires is { is_alignment align ≡ true }
    ensures { MatchOption result ((place : ℕ) → IsLike align address place → HasRoom place bytes pools.now → ⊥) (λ place. IsLike align address place × HasRoom place bytes pools.now) }
{
    let lowest = next_like(align, address, 0);
    if has_room(pools, lowest, bytes) {
        return Some(lowest);
    }
    for pool in pools {
        let place = next_like(align, address, u64::from(pool.place) + pool.reach + FRONT);
        if pool.reach != 0 && has_room(pools, place, bytes) {
            return Some(place);
        }
    }
    None
}
