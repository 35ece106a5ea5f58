//! What is live in a heap, counted block by block.

ghost use Rattle.std.specs.Prelude.{◌≡◌, ◌^◌, ◌≤◌, length};
ghost use Rattle.tlsf_heap.specs.Content.{blocks_of};
ghost use Rattle.tlsf_heap.specs.Counted.{IsUnchanged, Reads};
ghost use Rattle.tlsf_heap.specs.Cursors.{rows_behind, is_at_row};
ghost use Rattle.tlsf_heap.specs.Implied.{live_blocks};
ghost use Rattle.tlsf_heap.specs.Room.{live_bytes};
ghost use Rattle.tlsf_c.specs.LiveCounts.{used_rows, used_bytes};

use tlsf_heap::{Cursor, Heap};

/// How many blocks are live, and their bytes, with the eight in front of each.
#[derive(Clone, Copy)]
pub(crate) struct LiveCount {
    pub(crate) blocks: u64,
    pub(crate) bytes: u64,
}

/// What is live among the rows from a cursor on.
fn count_rows(heap: &mut Heap, cursor: Cursor) -> LiveCount
    requires stands { is_at_row heap.old.rows cursor }
    requires few { length (rows_behind heap.old.rows cursor) ≤ 2 ^ 32 }
    ensures blocks { result.blocks ≡ used_rows (rows_behind heap.old.rows cursor) }
    ensures bytes { result.bytes ≡ used_bytes (rows_behind heap.old.rows cursor) }
    ensures read { Reads (length (rows_behind heap.old.rows cursor)) heap.old heap.new }
{
    let mut blocks = 0;
    let mut bytes = 0;
    let mut here = cursor;
    while let Some(next) = heap.row(here) {
        if next.0.used {
            blocks += 1;
            bytes += u64::from(next.0.size);
        }
        here = next.1;
    }
    LiveCount { blocks, bytes }
}

/// What is live in the heap. It reads each block.
pub(crate) fn count_live(heap: &mut Heap) -> LiveCount
    ensures blocks { result.blocks ≡ live_blocks heap.old.content }
    ensures bytes { result.bytes ≡ live_bytes (blocks_of heap.old.content.pools) }
    ensures unchanged { IsUnchanged heap.old heap.new }
    ensures floor { heap.old.touches ≤ heap.new.touches }
{
    heap.keeps_good();
    let pools = heap.pools();
    let ranges = pools.as_slice();
    let mut blocks = 0;
    let mut bytes = 0;
    for range in ranges {
        if let Ok(cursor) = heap.first(range.0) {
            let counted = count_rows(heap, cursor);
            blocks += counted.blocks;
            bytes += counted.bytes;
        }
    }
    LiveCount { blocks, bytes }
}
