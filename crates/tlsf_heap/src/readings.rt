//! Readings: the rows of a pool, the size of a block, the records in use, and the greatest request.

ghost use Rattle.std.specs.Prelude.{◌≡◌, ◌+◌, ◌-◌, ◌<◌, ◌≤◌, Ok, Err, IfOk, IfErr};
ghost use Rattle.tlsf_store.specs.Cells.{most_pools};
ghost use Rattle.tlsf_heap.specs.Touches.{block_size_touches};
ghost use Rattle.tlsf_heap.specs.Content.{used_records};
ghost use Rattle.tlsf_heap.specs.Inner.Following.{Stands, content_of};
ghost use Rattle.tlsf_heap.specs.Rows.{rows_from};
ghost use Rattle.tlsf_heap.specs.Pointer.{block_size_ptr};
ghost use Rattle.tlsf_heap.specs.Readings.{FindsRows, GivesRow, TouchesForRow, IsLargestRequest};
ghost use Rattle.tlsf_heap.specs.Cursors.{rows_by, rows_behind, is_at_row, begins_below, slot_if, AreInOrder, IsNarrowed};
ghost use Rattle.tlsf_store.specs.CountedCells.{LeavesAfter};
ghost use Rattle.tlsf_heap.specs.Inner.Answers.{Leaves};

use crate::free::live;
use crate::search::last_class;
use crate::{Cursor, Ptr, Refusal, Row};
use tlsf_class::low;
use tlsf_store::{MOST_POOLS, Pool, Slot, Store};

/// Half of the pool entries.
const HALF: u32 = MOST_POOLS as u32 / 2;

/// The cursor at the first row of the pool that begins at `base`, found by halving. Four touches.
///
/// # Errors
///
/// `NoPool` where no pool begins there.
pub(crate) fn first(store: &mut Store, base: u64) -> Result<Cursor, Refusal>
    requires { Stands store.old.cells }
    ensures found { FindsRows result (rows_from base (content_of store.old.cells).pools) (rows_behind (rows_by store.old.cells.records)) (is_at_row (rows_by store.old.cells.records)) }
    ensures left { LeavesAfter store.old.cells 4 store.old store.new }
{
    let place = skip(store, base, 0, HALF);
    let place = skip(store, base, place, HALF / 2);
    let place = skip(store, base, place, HALF / 4);
    match first_if(store.pool(place), base) {
        Some(slot) => Ok(Cursor {
            next: Some(u32::from(slot.0)),
        }),
        None => Err(Refusal::NoPool),
    }
}

/// Passes the next `width` pools where the last of them begins below `base`. One touch.
fn skip(store: &mut Store, base: u64, place: u32, width: u32) -> u32
    requires some { 0 < width }
    requires within { place + width + width ≤ most_pools }
    requires in_order { AreInOrder base store.old.cells.pools }
    requires narrowed { IsNarrowed base store.old.cells.pools place (place + width + width - 1) }
    ensures narrowed { IsNarrowed base store.old.cells.pools result (result + width - 1) }
    ensures within { result + width ≤ place + width + width }
    ensures left { LeavesAfter store.old.cells 1 store.old store.new }
{
    if is_below(store.pool(place + width - 1), base) {
        place + width
    } else {
        place
    }
}

/// Whether the pool, if there is one, begins below `base`.
fn is_below(pool: Option<Pool>, base: u64) -> bool
    ensures { result ≡ begins_below base pool }
{
    pool.is_some_and(|pool| u64::from(pool.base) < base)
}

/// The first block of the pool, if it begins at `base`.
fn first_if(pool: Option<Pool>, base: u64) -> Option<Slot>
    ensures { result ≡ slot_if base pool }
{
    match pool {
        Some(pool) if u64::from(pool.base) == base => Some(pool.first),
        _ => None,
    }
}

/// The row at the cursor, and the cursor behind it; none behind the last row. One touch where there is a
/// row.
pub(crate) fn row(store: &mut Store, cursor: Cursor) -> Option<(Row, Cursor)>
    requires stands { Stands store.old.cells }
    requires there { is_at_row (rows_by store.old.cells.records) cursor }
    ensures given { GivesRow result (rows_behind (rows_by store.old.cells.records) cursor) (rows_behind (rows_by store.old.cells.records)) (is_at_row (rows_by store.old.cells.records)) }
    ensures cells { store.new.cells ≡ store.old.cells }
    ensures touched { TouchesForRow 1 result store.old.touches store.new.touches }
{
    let next = cursor.next?;
    if next >= store.records() {
        return None;
    }
    let block = store.read(Slot(next as u16));
    let row = Row {
        place: block.place,
        size: block.size,
        used: block.state.is_live(),
    };
    let behind = Cursor {
        next: slot_number(block.next),
    };
    Some((row, behind))
}

/// The number of a slot, if there is one.
fn slot_number(slot: Option<Slot>) -> Option<u32>
    ensures { result ≡ slot }
{
    slot.map(|slot| u32::from(slot.0))
}

/// The size in bytes of the block that the pointer is of. At most one touch.
///
/// # Errors
///
/// `BadPointer` unless a live block has both the pointer's place and its slot.
pub(crate) fn block_size(store: &mut Store, ptr: Ptr) -> Result<u32, Refusal>
    requires { Stands store.old.cells }
    ensures ok { IfOk result (λ bytes. block_size_ptr ptr (content_of store.old.cells) ≡ Ok bytes) }
    ensures refused { IfErr result (λ refusal. block_size_ptr ptr (content_of store.old.cells) ≡ Err refusal) }
    ensures left { Leaves store.old.cells block_size_touches store.old store.new }
{
    let Some(block) = live(store, ptr) else {
        return Err(Refusal::BadPointer);
    };
    Ok(block.size)
}

/// How many records are in use: one a block. At most one touch.
pub(crate) fn records_used(store: &mut Store) -> u32
    requires { Stands store.old.cells }
    ensures value { result ≡ used_records (content_of store.old.cells) }
    ensures left { Leaves store.old.cells 1 store.old store.new }
{
    store.records() - store.vacant()
}

/// The most bytes for which the lists have a block: the lowest size of the last class whose list isn't empty, and 0 where
/// all are. At most two touches.
pub(crate) fn largest_request(store: &mut Store) -> u32
    requires { Stands store.old.cells }
    ensures value { IsLargestRequest result (content_of store.old.cells) }
    ensures left { Leaves store.old.cells 2 store.old store.new }
{
    match last_class(store) {
        Some(class) => low(class),
        None => 0,
    }
}
