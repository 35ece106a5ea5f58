//! add_pool: a pool enters, as one free block.

ghost use Rattle.std.specs.Prelude.{◌≡◌, ◌<◌, ◌&&◌, true, ◌∷◌, length, All, Some, Ok, Err};
ghost use Rattle.std.specs.List.{list_all};
ghost use Rattle.tlsf_store.specs.Cells.{most_pools};
ghost use Rattle.tlsf_heap.specs.Touches.{AtMost, add_pool_touches};
ghost use Rattle.tlsf_heap.specs.Inner.Edits.{IsUsed};
ghost use Rattle.tlsf_heap.specs.Pools.{can_be_pool, add_pool};
ghost use Rattle.tlsf_heap.specs.Inner.Entries.{entries_of, is_entry_apart};
ghost use Rattle.tlsf_heap.specs.Inner.Nodes.{Layout, pool_laid};
ghost use Rattle.tlsf_heap.specs.Inner.Represents.{Represents};
ghost use Rattle.tlsf_heap.specs.Inner.Following.{Stands};
ghost use Rattle.tlsf_heap.specs.Inner.Answers.{AnswersOver};

use crate::Refusal;
use crate::entries::{entries, entries_with, first_behind, is_apart, set_entries};
use crate::free_lists::put_first;
use crate::image::VACANT;
use tlsf_class::class_of;
use tlsf_store::{Pool, Record, State, Store, can_be_pool};

/// A pool of `bytes` bytes from the place `base` on enters the store, as one free block. At most 25
/// touches.
///
/// # Errors
///
/// As `Heap::add_pool`.
pub(crate) fn add_pool(store: &mut Store, base: u64, bytes: u64) -> Result<(), Refusal>
    requires { Stands store.old.cells }
    ensures { AnswersOver result (λ done old new. add_pool base bytes old ≡ Ok new) (λ refusal old. add_pool base bytes old ≡ Err refusal) add_pool_touches store.old store.new }
{
    let entries = entries(store);
    if !can_enter(entries.as_slice(), base, bytes) {
        return Err(Refusal::BadPool);
    }
    if entries.is_full() {
        return Err(Refusal::PoolsFull);
    }
    let Some(slot) = store.take_vacant() else {
        return Err(Refusal::TableFull);
    };
    let entry = Pool {
        base: base as u32,
        bytes: bytes as u32,
        first: slot,
    };
    put_pool(store, entries.as_slice(), entry);
    Ok(())
}

/// Whether base and bytes can be those of a pool, which overlaps no pool of the entries.
fn can_enter(entries: &[Pool], base: u64, bytes: u64) -> bool
    ensures { result ≡ can_be_pool base bytes && list_all (is_entry_apart base bytes) entries.now }
{
    can_be_pool(base, bytes) && is_apart(entries, base, bytes)
}

/// Makes a pool one free block, whose slot was taken, the first of its class's list, and puts its entry
/// among the others. At most 15 touches.
fn put_pool(store: &mut Store, entries: &[Pool], entry: Pool)
    requires can { can_be_pool entry.base entry.bytes ≡ true }
    requires room { length entries.now < most_pools }
    requires count { length store.old.cells.pools ≡ most_pools }
    requires entries { entries.now ≡ entries_of store.old.cells.pools }
    requires below { All (λ e. e.first < length store.old.cells.records) entries.now }
    requires slot_used { IsUsed store.old.cells.records (Some entry.first) }
    requires taken { (layout : Layout) × Represents store.old.cells (record layout { taken = entry.first ∷ layout.taken }) }
    ensures leads { (layout : Layout) → Represents store.old.cells (record layout { taken = entry.first ∷ layout.taken }) → Represents store.new.cells (pool_laid entry layout) }
    ensures touches { AtMost 15 store.old.touches store.new.touches }
{
    let Pool { base, bytes, first } = entry;
    let place = first_behind(entries, base).unwrap_or(entries.len());
    let all = entries_with(entries, place, entry);
    let class = class_of(bytes);
    let second = store.head(class);
    let block = Record {
        place: base,
        size: bytes,
        state: State::Free,
        next_free: second,
        ..VACANT
    };
    store.write(first, block);
    set_entries(store, all.as_slice());
    put_first(store, class, first, &second);
}
