//! The pools of a table.

ghost use Rattle.std.specs.Prelude.{◌≡◌};
ghost use Rattle.tlsf_heap.specs.Images.Rules.{is_pool, has_packed_pools};
ghost use Rattle.tlsf_heap.specs.Images.Findings.{Finds};

use super::HasSections;
use tlsf_store::{MOST_POOLS, Pool, can_be_pool};

/// Whether the pool can be at its range, from a place on, and its first record is one of this many.
pub(crate) fn is_pool(count: u32, from: u64, pool: &Pool) -> bool
    ensures { result ≡ is_pool count from pool.now }
{
    let base = u64::from(pool.base);
    can_be_pool(base, u64::from(pool.bytes)) && from <= base && u32::from(pool.first.0) < count
}

/// Whether the entries with pools come first, and these pass `is_pool`, each from the end of the one before on.
pub(crate) fn has_packed_pools<T: HasSections>(table: &mut T) -> bool
    ensures { Finds result (has_packed_pools (T.sections table.old)) T.sections T.cells T.touches table.old table.new }
{
    let count = table.count();
    let mut from = 0;
    let mut ended = false;
    for number in 0..MOST_POOLS as u32 {
        if let Some(pool) = table.pool(number) {
            if ended || !is_pool(count, from, &pool) {
                return false;
            }
            from = u64::from(pool.base) + u64::from(pool.bytes);
        } else {
            ended = true;
        }
    }
    true
}
