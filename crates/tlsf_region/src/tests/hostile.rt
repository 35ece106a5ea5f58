//! Pointers that no block has, and arguments at the ends of their ranges, through the region.

use super::*;
use crate::tests::expect_eq;

#[test]
fn wrong_pointers(rt: HostRuntime) {
    let mut region = made(&rt, rt.alloc(), 64, 2);
    expect_eq(&rt, region.add_pool(0, 64), Ok(()));
    let first = region.malloc(64).expect(&rt, "a block");
    expect_eq(&rt, region.free(first), Ok(()));
    let q = region.malloc(64).expect(&rt, "a block");
    let other_slot = if q.slot() == 0 { 1 } else { 0 };
    for wrong in [
        Ptr::new(0, other_slot),
        Ptr::new(16, q.slot()),
        Ptr::new(0, 65_535),
    ] {
        assert_eq!(rt; region.free(wrong), Err(Refusal::BadPointer), "{wrong:?}");
        assert!(rt; region.bytes(wrong).is_none(), "{wrong:?}");
        assert!(rt; region.bytes_mut(wrong).is_none(), "{wrong:?}");
    }
    expect_eq(&rt, region.realloc(Some(q), u64::MAX), Err(Refusal::NoFit));
    expect_eq(&rt, region.free(q), Ok(()));
}

fn refuses_greatest(rt: &impl Abort, region: &mut Region) {
    expect_eq(rt, region.malloc(u64::MAX), Err(Refusal::NoFit));
    expect_eq(rt, region.memalign(1 << 29, u64::MAX), Err(Refusal::NoFit));
    expect_eq(
        rt,
        region.memalign(1 << 29, (1 << 30) - 16),
        Err(Refusal::NoFit),
    );
    expect_eq(rt, region.memalign(1 << 63, 1), Err(Refusal::BadAlign));
    expect_eq(
        rt,
        region.add_pool(u64::MAX - 63, 64),
        Err(Refusal::BadPool),
    );
    expect_eq(rt, region.remove_pool(u64::MAX), Err(Refusal::NoPool));
}

/// With no pool, and with one over all of the bytes.
#[test]
fn greatest_arguments(rt: HostRuntime) {
    let mut region = made(&rt, rt.alloc(), 1024, 4);
    refuses_greatest(&rt, &mut region);
    expect_eq(&rt, region.add_pool(0, 1024), Ok(()));
    refuses_greatest(&rt, &mut region);
}

/// Its memory refused, a region isn't made; made again it is. It passes whichever allocation is refused.
#[test]
fn refused_memory(rt: HostRuntime) {
    let mut region = match Region::create(rt.alloc(), 1024, 4) {
        Ok(region) => region,
        Err(error) => {
            expect_eq(&rt, error, RegionError::OutOfMemory);
            made(&rt, rt.alloc(), 1024, 4)
        }
    };
    expect_eq(&rt, region.add_pool(0, 1024), Ok(()));
    expect_eq(&rt, region.malloc(100).map(|ptr| ptr.place()), Ok(0));
}
