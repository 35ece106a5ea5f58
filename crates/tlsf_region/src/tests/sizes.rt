//! Regions of many sizes, made once each.

use super::made;
use crate::Region;
use crate::tests::expect_eq;
use std::process::Abort;

/// A pool of this many bytes from the start on has a block of this size, and all bytes of it are 0.
fn lends_zeros(rt: &impl Abort, region: &mut Region, bytes: u64, size: u64) {
    expect_eq(rt, region.add_pool(0, bytes), Ok(()));
    let ptr = region.malloc(size).expect(rt, "a block");
    expect_eq(rt, ptr.place(), 0);
    let block = region.bytes(ptr).expect(rt, "bytes");
    expect_eq(rt, block.len() as u64, size);
    assert!(rt; block.iter().all(|byte| *byte == 0));
}

/// The lengths, each with a size that is served: the least of the last class that the pool's block is of.
#[test]
fn lengths(rt: HostRuntime) {
    for len in [0, 1, 15] {
        let mut region = made(&rt, rt.alloc(), len, 1);
        assert!(rt; region.add_pool(0, 16).is_err());
    }
    for (len, size) in [
        (16, 16),
        (17, 16),
        (255, 240),
        (1_000_000, 999_424),
        (1_048_576, 1_048_576),
        (1_048_577, 1_048_576),
    ] {
        let mut region = made(&rt, rt.alloc(), len, 2);
        lends_zeros(&rt, &mut region, len / 16 * 16, size);
    }
}

/// Each length up to 8,192.
#[test]
fn small_lengths(rt: HostRuntime) {
    for len in 0..8_193 {
        let mut region = made(&rt, rt.alloc(), len, 1);
        expect_eq(&rt, region.add_pool(0, 16).is_ok(), len >= 16);
    }
}

/// A hundred lengths from 2,000,000 on, with each rest that there is by 16 and by 100.
#[test]
fn large_lengths(rt: HostRuntime) {
    for number in 0..100 {
        let len = 2_000_000 + 40_009 * number;
        let mut region = made(&rt, rt.alloc(), len, 1);
        expect_eq(&rt, region.add_pool(0, len / 16 * 16), Ok(()));
    }
}

#[test]
fn counts_of_records(rt: HostRuntime) {
    for records in [1, 2, 3, 10, 999, 1_000, 1_001, 4_096, 8_192, 65_534, 65_535] {
        let mut region = made(&rt, rt.alloc(), 64, records);
        lends_zeros(&rt, &mut region, 64, 64);
    }
}
