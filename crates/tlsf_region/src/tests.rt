//! Rows of the region, and of the heaps below it.

mod example;
mod heap;
mod hostile;
mod sizes;

use super::*;
use std::alloc::Global;
use std::fmt::Debug;
use std::process::Abort;
use tlsf_heap::{Ptr, Refusal, Row};

/// Compares two values, by one call: a proof goes over `assert_eq!` once here, and not at each place again.
pub(crate) fn expect_eq<T: PartialEq + Debug + Drop>(rt: &impl Abort, found: T, wanted: T) {
    assert_eq!(rt; found, wanted);
}

/// A region of this many bytes and records, where memory isn't refused.
fn made(rt: &impl Abort, alloc: Global, len: u64, records: u32) -> Region {
    match Region::create(alloc, len, records) {
        Ok(region) => region,
        Err(_) => panic!(rt; "no region"),
    }
}

fn refused(alloc: Global, len: u64, records: u32) -> Option<RegionError> {
    Region::create(alloc, len, records).err()
}

/// The number of records is looked at first, and then the length.
#[test]
fn errors_in_order(rt: HostRuntime) {
    let above = (1 << 32) + 1;
    for records in [0, 65_536] {
        expect_eq(
            &rt,
            refused(rt.alloc(), 8, records),
            Some(RegionError::BadCount),
        );
        expect_eq(
            &rt,
            refused(rt.alloc(), above, records),
            Some(RegionError::BadCount),
        );
    }
    for records in [1, 65_535] {
        expect_eq(
            &rt,
            refused(rt.alloc(), above, records),
            Some(RegionError::BadLength),
        );
        expect_eq(&rt, refused(rt.alloc(), 8, records), None);
    }
    expect_eq(&rt, refused(rt.alloc(), 0, 1), None);
}

/// A pool ends at the region's bytes at most.
#[test]
fn pools_within_the_bytes(rt: HostRuntime) {
    let mut region = made(&rt, rt.alloc(), 1024, 4);
    let rows = [
        (0, 1040),
        (16, 1024),
        (1024, 16),
        (1040, 16),
        (u64::MAX, 16),
        (16, u64::MAX),
    ];
    for (base, bytes) in rows {
        expect_eq(&rt, region.add_pool(base, bytes), Err(Refusal::BadPool));
    }
    expect_eq(&rt, region.add_pool(0, 16), Ok(()));
    expect_eq(&rt, region.add_pool(16, 1008), Ok(()));
}

/// Writes 0, 1, 2 and so on over the bytes of a block.
fn count_up(block: &mut [u8]) {
    for index in 0..block.len() {
        block[index] = (index % 256) as u8;
    }
}

/// Whether the bytes are 0, 1, 2 and so on below `count`, and then zeros.
fn counts_up_to(block: &[u8], count: usize) -> bool {
    for index in 0..block.len() {
        let wanted = if index < count { index % 256 } else { 0 };
        if block[index] as usize != wanted {
            return false;
        }
    }
    true
}

/// Fills the block of a pointer, which has this many bytes, with bytes that count up.
fn fill(rt: &impl Abort, region: &mut Region, ptr: Ptr, bytes: usize) {
    let Some(block) = region.bytes_mut(ptr) else {
        panic!(rt; "no bytes");
    };
    expect_eq(rt, block.len(), bytes);
    count_up(block);
}

/// Compares how many bytes the block of a pointer has, and that this many of them count up.
fn expect_filled(rt: &impl Abort, region: &mut Region, ptr: Ptr, bytes: usize, filled: usize) {
    let Some(block) = region.bytes(ptr) else {
        panic!(rt; "no bytes");
    };
    expect_eq(rt, block.len(), bytes);
    assert!(rt; counts_up_to(block, filled));
}

/// A block that moves takes its bytes along, and its old pointer lends none.
#[test]
fn bytes_move(rt: HostRuntime) {
    let mut region = made(&rt, rt.alloc(), 1024, 4);
    expect_eq(&rt, region.add_pool(0, 1024), Ok(()));
    let Ok(p) = region.malloc(100) else {
        panic!(rt; "no block");
    };
    fill(&rt, &mut region, p, 112);
    assert!(rt; region.malloc(1).is_ok());
    let Ok(Some(q)) = region.realloc(Some(p), 200) else {
        panic!(rt; "not moved");
    };
    expect_eq(&rt, q.place(), 128);
    expect_filled(&rt, &mut region, q, 208, 112);
    assert!(rt; region.bytes(p).is_none());
    assert!(rt; region.bytes_mut(p).is_none());
}

/// A pointer of another slot lends no bytes.
#[test]
fn another_slot(rt: HostRuntime) {
    let mut region = made(&rt, rt.alloc(), 64, 4);
    expect_eq(&rt, region.add_pool(0, 64), Ok(()));
    let Ok(p) = region.malloc(8) else {
        panic!(rt; "no block");
    };
    let other = Ptr::new(p.place(), if p.slot() == 0 { 1 } else { 0 });
    assert!(rt; region.bytes(p).is_some());
    assert!(rt; region.bytes(other).is_none());
    assert!(rt; region.bytes_mut(other).is_none());
    expect_eq(&rt, region.block_size(other), Err(Refusal::BadPointer));
}

/// Whether these are the region's pools.
fn has_pools(region: &mut Region, ranges: &[(u64, u64)]) -> bool {
    region.pools().as_slice() == ranges
}

/// The heap's readings, and a block that is freed lends no bytes.
#[test]
fn readings(rt: HostRuntime) {
    let mut region = made(&rt, rt.alloc(), 64, 4);
    expect_eq(&rt, region.add_pool(0, 64), Ok(()));
    assert!(rt; has_pools(&mut region, &[(0, 64)]));
    let Ok(p) = region.malloc(8) else {
        panic!(rt; "no block");
    };
    expect_eq(&rt, region.block_size(p), Ok(16));
    let Ok(cursor) = region.first(0) else {
        panic!(rt; "no pool");
    };
    let Some((row, next)) = region.row(cursor) else {
        panic!(rt; "no row");
    };
    let wanted = Row {
        place: 0,
        size: 16,
        used: true,
    };
    expect_eq(&rt, row, wanted);
    assert!(rt; region.row(next).is_some());
    expect_eq(&rt, region.free(p), Ok(()));
    assert!(rt; region.bytes(p).is_none());
    expect_eq(&rt, region.free(p), Err(Refusal::BadPointer));
}

/// The rows that a walk of the pool gives: how many, and the place of the last one.
fn walked(region: &mut Region, base: u64) -> Result<(usize, u32), Refusal> {
    let mut count: usize = 0;
    let mut last = 0;
    region.walk(base, |row| {
        count = count.saturating_add(1);
        last = row.place;
    })?;
    Ok((count, last))
}

/// Whether a walk is refused for want of a pool, and gives no row.
fn refuses(region: &mut Region, base: u64) -> bool {
    let mut called = false;
    let refused = region.walk(base, |_row| called = true);
    refused == Err(Refusal::NoPool) && !called
}

/// No row is given of a pool that isn't there, wherever that would be.
#[test]
fn walks_at_high_bases(rt: HostRuntime) {
    let mut region = made(&rt, rt.alloc(), 1_048_592, 4);
    for base in [1 << 20, 1 << 31, (1 << 32) - 16, u64::MAX] {
        assert!(rt; refuses(&mut region, base));
    }
    expect_eq(&rt, region.add_pool(1 << 20, 16), Ok(()));
    expect_eq(&rt, walked(&mut region, 1 << 20), Ok((1, 1_048_576)));
}

/// A block at a multiple of its alignment, between a gap and a rest; a pool goes when it is one free block.
#[test]
fn aligned_block_and_pool_that_goes(rt: HostRuntime) {
    let mut region = made(&rt, rt.alloc(), 1024, 4);
    expect_eq(&rt, region.add_pool(16, 256), Ok(()));
    expect_eq(&rt, region.memalign(3, 0), Err(Refusal::BadAlign));
    expect_eq(&rt, region.memalign(8, 0), Err(Refusal::ZeroSize));
    let Ok(p) = region.memalign(64, 32) else {
        panic!(rt; "no block");
    };
    expect_eq(&rt, p.place(), 64);
    expect_eq(&rt, walked(&mut region, 16), Ok((3, 96)));
    expect_eq(&rt, walked(&mut region, 0), Err(Refusal::NoPool));
    assert!(rt; region.check());
    expect_eq(&rt, region.remove_pool(0), Err(Refusal::NoPool));
    expect_eq(&rt, region.remove_pool(16), Err(Refusal::PoolInUse));
    expect_eq(&rt, region.free(p), Ok(()));
    expect_eq(&rt, walked(&mut region, 16), Ok((1, 16)));
    expect_eq(&rt, region.remove_pool(16), Ok(()));
    assert!(rt; has_pools(&mut region, &[]));
    assert!(rt; region.check());
}

/// Each call of a region once, and then another region. A region takes memory twice, and no call but `create` takes
/// any. So this test fails where one of the first four allocations is refused, and passes where the fifth is.
#[test]
fn memory_taken_twice(rt: HostRuntime) {
    let mut region = made(&rt, rt.alloc(), 1024, 5);
    expect_eq(&rt, region.add_pool(0, 1024), Ok(()));
    let first = region.malloc(100).expect(&rt, "a block");
    let second = region.memalign(64, 1).expect(&rt, "a block");
    assert!(rt; region.bytes(first).is_some());
    let moved = region.realloc(Some(first), 200).expect(&rt, "a block");
    let third = moved.expect(&rt, "a pointer");
    assert!(rt; region.bytes_mut(third).is_some());
    expect_eq(&rt, region.block_size(third), Ok(208));
    expect_eq(&rt, walked(&mut region, 0), Ok((4, 352)));
    assert!(rt; has_pools(&mut region, &[(0, 1024)]));
    assert!(rt; region.first(0).is_ok() && region.check());
    expect_eq(&rt, region.free(second), Ok(()));
    expect_eq(&rt, region.free(third), Ok(()));
    expect_eq(&rt, region.remove_pool(0), Ok(()));
    drop(made(&rt, rt.alloc(), 16, 1));
}
