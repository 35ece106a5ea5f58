//! The pool of a placed heap that has a place or an address.

ghost use Rattle.std.specs.Prelude.{All, Contains, MatchOption};
ghost use Rattle.tlsf_c.specs.PlacedPools.{IsPlaced, HasPlace, HasAddress, IsAt};

use crate::placed_pool::PlacedPool;

/// The pool that has a block's place, if one has. It is for where that isn't the first.
#[inline(never)]
#[cold]
pub(crate) fn later_pool_of(pools: &[PlacedPool; 8], place: u32) -> Option<&PlacedPool>
    requires { All IsPlaced pools.now }
    ensures { MatchOption result (All (λ pool. HasPlace pool place → ⊥) pools.now) (λ pool. Contains pools.now pool.now × HasPlace pool.now place) }
{
    for pool in pools {
        if pool.has_place(place) {
            return Some(pool);
        }
    }
    None
}

/// The place of the block at an address, if a pool has it.
#[inline(always)]
pub(crate) fn place_at(pools: &[PlacedPool; 8], address: u64) -> Option<u32>
    requires { All IsPlaced pools.now }
    ensures { MatchOption result (All (λ pool. HasAddress pool address → ⊥) pools.now) (λ place. (pool : PlacedPool) × Contains pools.now pool × IsAt pool place address) }
{
    let first = &pools[0];
    let pool = if first.has_address(address) {
        first
    } else {
        pool_at(pools, address)?
    };
    Some(pool.place_of(address))
}

/// The pool that has a block's address, if one has. It is for where that isn't the first.
#[inline(never)]
#[cold]
pub(crate) fn pool_at(pools: &[PlacedPool; 8], address: u64) -> Option<&PlacedPool>
    requires { All IsPlaced pools.now }
    ensures { MatchOption result (All (λ pool. HasAddress pool address → ⊥) pools.now) (λ pool. Contains pools.now pool.now × HasAddress pool.now address) }
{
    for pool in pools {
        if pool.has_address(address) {
            return Some(pool);
        }
    }
    None
}
