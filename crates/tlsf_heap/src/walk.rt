//! A walk of a pool: a visit of each of its rows.

ghost use Rattle.std.specs.Prelude.{◌≡◌, OnOk, IfErr, OnErr, Err};
ghost use Rattle.tlsf_heap.specs.Rows.{rows_from};
ghost use Rattle.tlsf_heap.specs.Walk.{IsWalk, walk_touches};
ghost use Rattle.tlsf_heap.specs.Inner.Following.{Stands, content_of};
ghost use Rattle.tlsf_heap.specs.Inner.Answers.{Leaves};

use crate::readings::{first, row};
use crate::{Refusal, Row};
use tlsf_store::Store;

/// Visits each row of the pool that begins at `base`, in order. At most four touches, and one more for each
/// row.
///
/// # Errors
///
/// `NoPool` where no pool begins there: no row is visited then.
pub(crate) fn walk<F: FnMut(Row)>(
    store: &mut Store,
    base: u64,
    visit: &mut F,
) -> Result<(), Refusal>
    requires stands { Stands store.old.cells }
    requires callable { F.IsAlwaysCallable visit.old }
    ensures ok { OnOk result (IsWalk (λ p x q. F.step p x tt q) base (content_of store.old.cells).pools visit.old visit.new) }
    ensures refused { IfErr result (λ refusal. rows_from base (content_of store.old.cells).pools ≡ Err refusal) }
    ensures untouched { OnErr result (visit.new ≡ visit.old) }
    ensures left { Leaves store.old.cells (walk_touches (rows_from base (content_of store.old.cells).pools)) store.old store.new }
{
    let mut cursor = first(store, base)?;
    while let Some((row, next)) = row(store, cursor) {
        visit(row);
        cursor = next;
    }
    Ok(())
}
