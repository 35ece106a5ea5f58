//! Walks of pools.

use super::made;
use crate::tests::expect_eq;
use std::alloc::Global;
use tlsf_heap::*;

/// Whether a walk of the pool gives these rows.
fn walks(alloc: Global, heap: &mut Heap, base: u64, wanted: &[Row]) -> bool {
    let mut rows = Vec::new(alloc);
    let walked = heap.walk(base, |row| {
        let _ = rows.push(row);
    });
    walked == Ok(()) && rows.as_slice() == wanted
}

/// Whether a walk is refused for want of a pool, and gives no row.
fn refuses(heap: &mut Heap, base: u64) -> bool {
    let mut called = false;
    let walked = heap.walk(base, |_row| called = true);
    walked == Err(Refusal::NoPool) && !called
}

fn row(place: u32, size: u32, used: bool) -> Row {
    Row { place, size, used }
}

#[test]
fn rows_of_each_pool(rt: HostRuntime) {
    let mut heap: Heap = made(&rt, rt.alloc(), 8);
    assert!(rt; refuses(&mut heap, 0));
    expect_eq(&rt, heap.add_pool(0, 1024), Ok(()));
    let first = heap.malloc(100).expect(&rt, "a block");
    expect_eq(&rt, heap.malloc(1).map(|ptr| ptr.place()), Ok(112));
    expect_eq(&rt, heap.free(first), Ok(()));
    expect_eq(&rt, heap.add_pool(1024, 64), Ok(()));
    let rows = [row(0, 112, false), row(112, 16, true), row(128, 896, false)];
    assert!(rt; walks(rt.alloc(), &mut heap, 0, &rows));
    assert!(rt; walks(rt.alloc(), &mut heap, 1024, &[row(1024, 64, false)]));
    assert!(rt; refuses(&mut heap, 112));
    assert!(rt; refuses(&mut heap, 1088));
}

/// A walk is refused wherever no pool begins, as far up as a base can be told, and gives the rows of pools far up.
#[test]
fn rows_at_high_bases(rt: HostRuntime) {
    let mut heap: Heap = made(&rt, rt.alloc(), 8);
    for (base, place) in [
        (1 << 20, 1 << 20),
        (1 << 31, 1 << 31),
        ((1 << 32) - 16, 4_294_967_280),
    ] {
        assert!(rt; refuses(&mut heap, base));
        expect_eq(&rt, heap.add_pool(base, 16), Ok(()));
        assert!(rt; walks(rt.alloc(), &mut heap, base, &[row(place, 16, false)]));
    }
    assert!(rt; refuses(&mut heap, u64::MAX));
}
