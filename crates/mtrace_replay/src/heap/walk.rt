//! The walk over a heap's pools and their blocks.

ghost use Rattle.std.specs.Prelude.{flat_map};
ghost use Rattle.tlsf_heap.specs.Bare.{bare};
ghost use Rattle.mtrace_replay.specs.Rows.{pool_rows, PutsOf};
ghost use Rattle.mtrace_replay.specs.Texts.{row_text, rows_text, walk_report};

use crate::heap::text::{pool_text, row_text};
use mtrace_log::{Failed, Sink, put_all};
use tlsf_heap::{Cursor, Heaped};

/// Puts a line for each row from the cursor on.
fn put_rows<H: Heaped, W: Sink>(writer: &mut W, heap: &mut H, cursor: Cursor) -> Result<(), Failed>
    requires { H.stands heap.old cursor }
    ensures { PutsOf H.content result (flat_map row_text (H.rest heap.old cursor)) (W.shown writer.old) (W.shown writer.new) heap.old heap.new }
{
    let mut here = cursor;
    while let Some(next) = heap.row(here) {
        put_all(writer, row_text(next.0).as_slice())?;
        here = next.1;
    }
    Ok(())
}

/// Puts the rows of the pool that begins at the place `base`.
fn put_rows_at<H: Heaped, W: Sink>(writer: &mut W, heap: &mut H, base: u64) -> Result<(), Failed>
    ensures { PutsOf H.content result (flat_map row_text (pool_rows (H.content heap.old).pools base)) (W.shown writer.old) (W.shown writer.new) heap.old heap.new }
{
    match heap.first(base) {
        Ok(cursor) => put_rows(writer, heap, cursor),
        Err(_) => Ok(()),
    }
}

/// Puts the line of a pool and its rows.
fn put_pool<H: Heaped, W: Sink>(
    writer: &mut W,
    heap: &mut H,
    range: (u64, u64),
) -> Result<(), Failed>
    ensures { PutsOf H.content result (rows_text range (pool_rows (H.content heap.old).pools range.0)) (W.shown writer.old) (W.shown writer.new) heap.old heap.new }
{
    put_all(writer, pool_text(range.0, range.1).as_slice())?;
    put_rows_at(writer, heap, range.0)
}

/// Puts the report of the walk: the pools in order of base, each with its blocks in order of place.
///
/// # Errors
///
/// `Failed` where the writer failed, or took no byte of some: then a beginning of the report is put.
pub fn put_walk<H: Heaped, W: Sink>(writer: &mut W, heap: &mut H) -> Result<(), Failed>
    ensures { PutsOf H.content result (walk_report (bare (H.content heap.old))) (W.shown writer.old) (W.shown writer.new) heap.old heap.new }
{
    heap.keeps_good();
    let pools = heap.pools();
    for range in pools.as_slice() {
        put_pool(writer, heap, *range)?;
    }
    Ok(())
}
