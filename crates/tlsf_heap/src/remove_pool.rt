//! remove_pool: a pool that is one free block leaves.

ghost use Rattle.std.specs.Prelude.{◌≡◌, ◌%◌, ◌<◌, ◌≤◌, ◌&&◌, length, is_none, All, Ok, Err, []};
ghost use Rattle.tlsf_class.specs.Classes.{unit};
ghost use Rattle.tlsf_store.specs.Cells.{most_pools};
ghost use Rattle.tlsf_store.specs.Records.{record_at, is_free_state};
ghost use Rattle.tlsf_heap.specs.Touches.{AtMost, remove_pool_touches};
ghost use Rattle.tlsf_heap.specs.Pools.{remove_pool};
ghost use Rattle.tlsf_heap.specs.Inner.Nodes.{Listed, entries_in};
ghost use Rattle.tlsf_heap.specs.Inner.Positions.{plug};
ghost use Rattle.tlsf_heap.specs.Inner.Represents.{Represents};
ghost use Rattle.tlsf_heap.specs.Inner.At.{At, StandsAt, without_area};
ghost use Rattle.tlsf_heap.specs.Inner.Following.{Stands};
ghost use Rattle.tlsf_heap.specs.Inner.Answers.{AnswersOver};

use crate::Refusal;
use crate::entries::{entries, entries_without, pool_number, set_entries};
use crate::free_lists::unlink;
use tlsf_store::{Pool, Record, Slot, Store};

/// The pool that begins at `base` leaves the store, and its one free block its class's list. At most 26 touches.
///
/// # Errors
///
/// As `Heap::remove_pool`.
pub(crate) fn remove_pool(store: &mut Store, base: u64) -> Result<(), Refusal>
    requires { Stands store.old.cells }
    ensures { AnswersOver result (λ done old new. remove_pool base old ≡ Ok new) (λ refusal old. remove_pool base old ≡ Err refusal) remove_pool_touches store.old store.new }
{
    let entries = entries(store);
    let Some(number) = pool_number(entries.as_slice(), base) else {
        return Err(Refusal::NoPool);
    };
    let entry = entries.as_slice()[number];
    let slot = entry.first;
    let block = store.read(slot);
    if !is_alone(&block) {
        return Err(Refusal::PoolInUse);
    }
    let rest = entries_without(entries.as_slice(), number);
    drop_pool(store, slot, &block, rest.as_slice());
    Ok(())
}

/// Whether the first block of a pool is free, and the only one.
fn is_alone(block: &Record) -> bool
    ensures { result ≡ (is_free_state block.now.state && is_none block.now.next) }
{
    block.state.is_free() && block.next.is_none()
}

/// The one free block of a pool, of this record, leaves its class's list, its record is vacant, and these are
/// the entries. At most 16 touches.
fn drop_pool(store: &mut Store, slot: Slot, block: &Record, entries: &[Pool])
    requires stands { (at : At) × StandsAt slot Listed store.old.cells at }
    requires read { block.now ≡ record_at store.old.cells.records slot }
    requires in_units { block.now.place % unit ≡ 0 }
    requires count { length store.old.cells.pools ≡ most_pools }
    requires few { length entries.now ≤ most_pools }
    requires below { All (λ entry. entry.first < length store.old.cells.records) entries.now }
    ensures leads { (at : At) → StandsAt slot Listed store.old.cells at → at.position.before ≡ [] → at.nodes ≡ [] → entries.now ≡ entries_in (plug at.position.areas_before at.position.areas_behind) → Represents store.new.cells (without_area at) }
    ensures touches { AtMost 16 store.old.touches store.new.touches }
{
    unlink(store, block);
    store.give_vacant(slot);
    set_entries(store, entries);
}
