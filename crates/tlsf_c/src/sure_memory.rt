//! The bytes of memory in which a heap with addresses never refuses a program that keeps to its numbers.

ghost use Rattle.std.specs.Prelude.{◌≡◌, ◌<◌, Some, None};
ghost use Rattle.tlsf_c.specs.SureMemory.{sure_pool_with_fronts, sure_memory};

use crate::front::{FRONT, UNIT};
use crate::heap_places::table_bytes;
use tlsf_heap::{class_size, sure_pool};

/// The bytes of the pool.
fn sure_pool_with_fronts(blocks: u32, bytes: u64, largest: u64) -> Option<u64>
    ensures { result ≡ sure_pool_with_fronts blocks bytes largest }
{
    let asked = if largest == 0 {
        0
    } else {
        largest.saturating_add(FRONT)
    };
    let fronts = u64::from(blocks) * UNIT;
    sure_pool(
        u64::from(blocks),
        bytes.saturating_add(fronts),
        class_size(1, asked),
    )
}

/// The bytes of memory for a control part of `part` bytes, a table of 2 * `blocks` + 3 records and a pool that is always enough.
/// At most `blocks` blocks are live, which have at most `bytes` bytes, each rounded up to 16. None is asked for with more than
/// `largest` bytes. Up to eight bytes in front of the control part may be skipped.
///
/// The answer is 0 where no memory is enough, or `largest` is 0.
#[unsafe(no_mangle)]
pub extern "C" fn tlsf_placed_sure_bytes(part: u32, blocks: u32, bytes: u64, largest: u64) -> u64
    ensures sure { 0 < result → sure_memory part blocks bytes largest ≡ Some result }
    ensures none { result ≡ 0 → sure_memory part blocks bytes largest ≡ None }
{
    match sure_pool_with_fronts(blocks, bytes, largest) {
        Some(pool) => {
            let records = 2 * u64::from(blocks) + 3;
            u64::from(part) + FRONT + table_bytes(records) + UNIT + pool
        }
        None => 0,
    }
}
