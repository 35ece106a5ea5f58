//! The pool entries of a store, in order of base.

ghost use Rattle.std.specs.Prelude.{◌≡◌, ◌≢◌, ◌+◌, ◌<◌, ◌≤◌, ◌++◌, length, insert, remove, All, IfSome, IfNone, nat_lt, position, slice_index_or};
ghost use Rattle.std.specs.List.{list_all};
ghost use Rattle.arrayvec.specs.ArrayVec.{array_vec_len};
ghost use Rattle.tlsf_store.specs.Cells.{most_pools};
ghost use Rattle.tlsf_heap.specs.Pools.{end_of_places};
ghost use Rattle.tlsf_heap.specs.Inner.Entries.{entries_of, padded_at, with_entries, is_entry_apart};
ghost use Rattle.tlsf_store.specs.CountedCells.{LeavesAfter};

use arrayvec::ArrayVec;
use tlsf_store::{MOST_POOLS, Pool, Store};

/// The entries of the store's pools. One touch an entry.
pub(crate) fn entries(store: &mut Store) -> ArrayVec<Pool, MOST_POOLS>
    requires { length store.old.cells.pools ≡ most_pools }
    ensures value { result.items ≡ entries_of store.old.cells.pools }
    ensures below { All (λ entry. entry.first < length store.old.cells.records) result.items }
    ensures left { LeavesAfter store.old.cells most_pools store.old store.new }
{
    let mut entries = ArrayVec::new();
    for number in 0..MOST_POOLS as u32 {
        if let Some(pool) = store.pool(number) {
            entries.push(pool);
        }
    }
    entries
}

/// The pool of this number; none behind the last entry.
fn pool_at(entries: &[Pool], number: usize) -> Option<Pool>
    ensures { result ≡ padded_at entries.now number }
{
    entries.get(number).copied()
}

/// Writes these entries, and none behind them. One touch an entry.
pub(crate) fn set_entries(store: &mut Store, entries: &[Pool])
    requires count { length store.old.cells.pools ≡ most_pools }
    requires few { length entries.now ≤ most_pools }
    requires below { All (λ entry. entry.first < length store.old.cells.records) entries.now }
    ensures { LeavesAfter (with_entries entries.now store.old.cells) most_pools store.old store.new }
{
    for number in 0..MOST_POOLS {
        store.set_pool(number as u32, pool_at(entries, number));
    }
}

/// Whether the bytes from `base` on overlap no pool of the entries.
pub(crate) fn is_apart(entries: &[Pool], base: u64, bytes: u64) -> bool
    requires { base + bytes ≤ end_of_places }
    ensures { result ≡ list_all (is_entry_apart base bytes) entries.now }
{
    entries.iter().all(|entry| {
        let first = u64::from(entry.base);
        let end = first + u64::from(entry.bytes);
        base + bytes <= first || end <= base
    })
}

/// The number of the first pool that begins behind `base`.
pub(crate) fn first_behind(entries: &[Pool], base: u32) -> Option<usize>
    ensures within { IfSome result (λ number. number ≤ length entries.now) }
    ensures number { result ≡ position (λ entry. nat_lt base entry.base) entries.now }
{
    entries.iter().position(|entry| base < entry.base)
}

/// Appends these entries.
fn push_all(entries: &mut ArrayVec<Pool, MOST_POOLS>, more: &[Pool])
    requires { array_vec_len entries.old + length more.now ≤ most_pools }
    ensures items { entries.new.items ≡ entries.old.items ++ more.now }
{
    for entry in more {
        entries.push(*entry);
    }
}

/// The entries with one more, in front of the one of this number. `ArrayVec::insert` would take 4,096 bytes of stack.
pub(crate) fn entries_with(
    entries: &[Pool],
    number: usize,
    entry: Pool,
) -> ArrayVec<Pool, MOST_POOLS>
    requires within { number ≤ length entries.now }
    requires room { length entries.now < most_pools }
    ensures { result.items ≡ insert entries.now number entry }
{
    let mut all = ArrayVec::new();
    push_all(&mut all, &entries[..number]);
    all.push(entry);
    push_all(&mut all, &entries[number..]);
    all
}

/// The entries without the one of this number. `ArrayVec::remove` would want C's `memmove`.
pub(crate) fn entries_without(entries: &[Pool], number: usize) -> ArrayVec<Pool, MOST_POOLS>
    requires within { number < length entries.now }
    requires few { length entries.now ≤ most_pools }
    ensures { result.items ≡ remove entries.now number }
{
    let mut rest = ArrayVec::new();
    push_all(&mut rest, &entries[..number]);
    push_all(&mut rest, &entries[number + 1..]);
    rest
}

/// The number of the pool that begins at `base`, if there is one.
pub(crate) fn pool_number(entries: &[Pool], base: u64) -> Option<usize>
    ensures found { IfSome result (λ number. (number < length entries.now) × ((d : _) → (slice_index_or entries.now number d).base ≡ base)) }
    ensures none { IfNone result (All (λ entry. entry.base ≢ base) entries.now) }
{
    entries
        .iter()
        .position(|entry| u64::from(entry.base) == base)
}
