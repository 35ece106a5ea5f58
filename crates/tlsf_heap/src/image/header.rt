//! The rules of an image's bytes, in front of what they describe.

ghost use Rattle.std.specs.Prelude.{◌≡◌, ◌+◌, ◌*◌, ◌<◌, ◌≤◌, length};
ghost use Rattle.tlsf_store.specs.Cells.{most_pools};
ghost use Rattle.tlsf_heap.specs.Images.Image.{record_start, two_at, count_at, pools_at, pool_in};
ghost use Rattle.tlsf_heap.specs.Images.Rules.{has_magic, has_length, has_unused_pools, has_pools, has_state, has_states};

use super::bytes::{are_zero, four_at, two_at};
use super::pools::is_pool;
use tlsf_class::{CLASSES, UNIT};
use tlsf_store::{MOST_POOLS, Pool, Slot};

/// What an image begins with.
pub(crate) const MAGIC: &[u8; 8] = b"TLSFIMG1";

/// Where the number of records, the number of pools, and the zero bytes behind them stand.
pub(crate) const COUNT_AT: usize = 8;

pub(crate) const POOLS_AT: usize = 10;

const ZEROS_AT: usize = 12;

/// Where the pool entries begin, and how many bytes each has.
pub(crate) const ENTRIES_AT: usize = 16;

pub(crate) const ENTRY_BYTES: usize = 12;

/// Where the heads begin, and how many bytes each has.
pub(crate) const HEADS_AT: usize = ENTRIES_AT + ENTRY_BYTES * MOST_POOLS;

pub(crate) const HEAD_BYTES: usize = 2;

/// Where the records begin, and how many bytes each has.
pub(crate) const RECORDS_AT: usize = HEADS_AT + HEAD_BYTES * CLASSES as usize;

pub(crate) const RECORD_BYTES: usize = 16;

/// Whether nothing is missing in front of the records, and the magic stands first.
pub(crate) fn has_magic(bytes: &[u8]) -> bool
    ensures { result ≡ has_magic bytes.now }
{
    bytes.len() >= RECORDS_AT && bytes.starts_with(MAGIC)
}

/// Whether there is a record, there are at most as many pools as there can be, and the records end the image.
pub(crate) fn has_length(bytes: &[u8]) -> bool
    requires { record_start 0 ≤ length bytes.now }
    ensures { result ≡ has_length bytes.now }
{
    let count = usize::from(two_at(bytes, COUNT_AT));
    count > 0
        && usize::from(two_at(bytes, POOLS_AT)) <= MOST_POOLS
        && are_zero(bytes, ZEROS_AT, 4)
        && bytes.len() == RECORDS_AT + RECORD_BYTES * count
}

/// Whether the entries behind the pools are zero.
pub(crate) fn has_unused_pools(bytes: &[u8]) -> bool
    requires whole { record_start 0 ≤ length bytes.now }
    requires few { two_at pools_at bytes.now ≤ most_pools }
    ensures { result ≡ has_unused_pools bytes.now }
{
    let pools = usize::from(two_at(bytes, POOLS_AT));
    are_zero(
        bytes,
        ENTRIES_AT + ENTRY_BYTES * pools,
        ENTRY_BYTES * (MOST_POOLS - pools),
    )
}

/// The pool of an entry.
pub(crate) fn pool_in(bytes: &[u8], number: usize) -> Pool
    requires whole { record_start 0 ≤ length bytes.now }
    requires few { number < most_pools }
    ensures { result ≡ pool_in bytes.now number }
{
    let at = ENTRIES_AT + ENTRY_BYTES * number;
    Pool {
        base: four_at(bytes, at),
        bytes: four_at(bytes, at + 4),
        first: Slot(two_at(bytes, at + 8)),
    }
}

/// Whether the pools pass `is_pool`, each from the end of the one before on, and their entries end with
/// zeros.
pub(crate) fn has_pools(bytes: &[u8]) -> bool
    requires whole { record_start 0 ≤ length bytes.now }
    requires few { two_at pools_at bytes.now ≤ most_pools }
    ensures { result ≡ has_pools bytes.now }
{
    let count = u32::from(two_at(bytes, COUNT_AT));
    let mut from = 0;
    for number in 0..usize::from(two_at(bytes, POOLS_AT)) {
        let pool = pool_in(bytes, number);
        if !is_pool(count, from, &pool)
            || !are_zero(bytes, ENTRIES_AT + ENTRY_BYTES * number + 10, 2)
        {
            return false;
        }
        from = u64::from(pool.base) + u64::from(pool.bytes);
    }
    true
}

/// Whether the record's state is vacant, free or live, and a vacant record is zero.
fn has_state(bytes: &[u8], slot: usize) -> bool
    requires { record_start slot + 16 ≤ length bytes.now }
    ensures { result ≡ has_state bytes.now slot }
{
    let at = RECORDS_AT + RECORD_BYTES * slot;
    match four_at(bytes, at + 4) % UNIT {
        0 => are_zero(bytes, at, RECORD_BYTES),
        code => code < 3,
    }
}

/// Whether each record's state is vacant, free or live, and each vacant record is zero.
pub(crate) fn has_states(bytes: &[u8]) -> bool
    requires { record_start (two_at count_at bytes.now) ≡ length bytes.now }
    ensures { result ≡ has_states bytes.now }
{
    (0..usize::from(two_at(bytes, COUNT_AT))).all(|slot| has_state(bytes, slot))
}
