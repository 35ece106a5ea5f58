//! The rows of a pool.

ghost use Rattle.std.specs.Prelude.{◌≡◌, ◌≢◌, ◌^◌, ◌≤◌, Ok, IfOk, length};
ghost use Rattle.tlsf_heap.specs.Counted.{Reads};
ghost use Rattle.tlsf_heap.specs.Cursors.{rows_behind, is_at_row};
ghost use Rattle.tlsf_heap.specs.Rows.{rows_from};
ghost use Rattle.tlsf_heap.specs.Walk.{walk_touches};
ghost use Rattle.tlsf_c.specs.Kept.{StandsWhere};
ghost use Rattle.tlsf_c.specs.Rows.{IsFilled, from_place};
ghost use Rattle.tlsf_c.specs.Status.{status_of};

use crate::handle::Handle;
use crate::room::put;
use crate::row::Row;
use crate::status::{SERVED, number};
use tlsf_heap::{Cursor, Heap};

/// Puts rows of the pool that begins at the place `base` into `rows`: those that begin at the place `from` or behind
/// it. They are put in order, as many as there is room for. How many there are, with room or without, goes into
/// `count`. At most four touches, and one more for each row of the pool.
///
/// The status is 0, or the number of `NoPool` where no pool begins there.
#[unsafe(no_mangle)]
pub extern "C" fn tlsf_heap_walk(
    handle: &mut Handle,
    base: u64,
    from: u64,
    rows: &mut [Row],
    count: &mut u64,
) -> u32
    ensures status { status_of (rows_from base handle.old.value.content.pools) ≡ result }
    ensures filled { IfOk (rows_from base handle.old.value.content.pools) (λ given. IsFilled (from_place from given) count.new rows.old rows.new) }
    ensures rows_stay { result ≢ 0 → rows.new ≡ rows.old }
    ensures count_stays { result ≢ 0 → count.new ≡ count.old }
    ensures stands { StandsWhere handle.old handle.new }
    ensures read { Reads (walk_touches (rows_from base handle.old.value.content.pools)) handle.old.value handle.new.value }
{
    let heap = handle.heap();
    heap.keeps_good();
    match heap.first(base) {
        Ok(cursor) => {
            *count = fill(heap, cursor, from, rows);
            SERVED
        }
        Err(refusal) => number(refusal),
    }
}

/// Puts the rows from a cursor on that begin at the place `from` or behind it into `rows`, as many as there is room
/// for. Answers how many there are, with room or without.
fn fill(heap: &mut Heap, cursor: Cursor, from: u64, rows: &mut [Row]) -> u64
    requires stands { is_at_row heap.old.rows cursor }
    requires few { length (rows_behind heap.old.rows cursor) ≤ 2 ^ 32 }
    ensures filled { IsFilled (from_place from (rows_behind heap.old.rows cursor)) result rows.old rows.new }
    ensures read { Reads (length (rows_behind heap.old.rows cursor)) heap.old heap.new }
{
    let mut count = 0;
    let mut here = cursor;
    while let Some(next) = heap.row(here) {
        if from <= next.0.place as u64 {
            let row = Row {
                place: next.0.place,
                size: next.0.size,
                used: next.0.used,
            };
            put(rows, count, row);
            count += 1;
        }
        here = next.1;
    }
    count
}
