//! The rows of a pool that has an address.

ghost use Rattle.std.specs.Prelude.{◌≡◌, ℕ, ◌-◌, ◌^◌, ◌<◌, ◌≤◌, ◌⊎◌, map, length, slice_index_or};
ghost use Rattle.std.specs.List.{AllByRecursion};
ghost use Rattle.tlsf_heap.specs.Counted.{IsUnchanged, Reads};
ghost use Rattle.tlsf_heap.specs.Cursors.{rows_behind, is_at_row};
ghost use Rattle.tlsf_heap.specs.Rows.{rows_from};
ghost use Rattle.tlsf_heap.specs.Walk.{walk_touches};
ghost use Rattle.tlsf_c.specs.Kept.{Keeps};
ghost use Rattle.tlsf_c.specs.PlacedPools.{IsPlaced};
ghost use Rattle.tlsf_c.specs.PlacedRows.{IsRowOf, placed_row, from_address, behind, WalksFrom};
ghost use Rattle.tlsf_c.specs.Room.{put_over};

use crate::front::FRONT;
use crate::placed_heap::PlacedHeap;
use crate::placed_pool::PlacedPool;
use crate::placed_row::PlacedRow;
use crate::room::put;
use tlsf_heap::{Cursor, Heap};

/// Puts the rows from a cursor on whose address is `from` or behind it into `rows`, as many as there is room for. Answers how
/// many there are, with room or without.
fn fill(
    heap: &mut Heap,
    cursor: Cursor,
    pool: &PlacedPool,
    from: u64,
    rows: &mut [PlacedRow],
) -> u64
    requires stands { is_at_row heap.old.rows cursor }
    requires few { length (rows_behind heap.old.rows cursor) ≤ 2 ^ 32 }
    requires placed { IsPlaced pool.now }
    requires within { AllByRecursion (IsRowOf pool.now) (rows_behind heap.old.rows cursor) }
    ensures rows { rows.new ≡ put_over (map (placed_row pool.now) (from_address pool.now from (rows_behind heap.old.rows cursor))) rows.old }
    ensures count { result ≡ length (from_address pool.now from (rows_behind heap.old.rows cursor)) }
    ensures read { Reads (length (rows_behind heap.old.rows cursor)) heap.old heap.new }
{
    let mut count = 0;
    let mut here = cursor;
    while let Some(next) = heap.row(here) {
        let row = PlacedRow::of(pool, next.0);
        if from <= row.address {
            put(rows, count, row);
            count += 1;
        }
        here = next.1;
    }
    count
}

/// Puts blocks of the pool that an entry holds into `rows`, in order of address: those whose address is `from` or behind it.
/// As many are put as there is room for, and the answer is how many. Then `from` gets the address behind the last of these,
/// where the next piece begins. At most four touches, and one more for each block of the pool.
///
/// The answer is 0 also where the entry holds no pool.
#[unsafe(no_mangle)]
pub extern "C" fn tlsf_placed_walk(
    heap: &mut PlacedHeap,
    entry: u32,
    from: &mut u64,
    rows: &mut [PlacedRow],
) -> u64
    ensures walked { entry < 8 → (pool : PlacedPool) → slice_index_or heap.old.pools entry pool ≡ pool → 0 < pool.reach → WalksFrom pool from.old result heap.old.handle.value.content.pools rows.old rows.new }
    ensures none { (8 ≤ entry) ⊎ ((pool : PlacedPool) → (slice_index_or heap.old.pools entry pool).reach ≡ 0) → (result ≡ 0) × (rows.new ≡ rows.old) }
    ensures next { 0 < result → (row : PlacedRow) → from.new ≡ behind (slice_index_or rows.new (result - 1) row) }
    ensures stays { result ≡ 0 → from.new ≡ from.old }
    ensures unchanged { IsUnchanged heap.old.handle.value heap.new.handle.value }
    ensures read { entry < 8 → (pool : PlacedPool) → slice_index_or heap.old.pools entry pool ≡ pool → Reads (walk_touches (rows_from pool.place heap.old.handle.value.content.pools)) heap.old.handle.value heap.new.handle.value }
    ensures kept { Keeps heap.old heap.new }
    ensures figures { heap.new.figures ≡ heap.old.figures }
{
    if entry >= 8 {
        return 0;
    }
    let pool = heap.pools[entry as usize];
    if pool.reach == 0 {
        return 0;
    }
    let inner = heap.handle.heap();
    inner.keeps_good();
    let Ok(cursor) = inner.first(u64::from(pool.place)) else {
        return 0;
    };
    let count = fill(inner, cursor, &pool, *from, rows);
    let put = count.min(rows.len() as u64);
    if put > 0 {
        let last = rows[put as usize - 1];
        *from = last
            .address
            .saturating_add(u64::from(last.bytes))
            .saturating_add(FRONT);
    }
    put
}
