//! Rows of the plain heap.

use crate::tests::expect_eq;
use std::alloc::Global;
use std::process::Abort;
use tlsf_heap::{Cursor, Heaped, PlainHeap, Ptr, Refusal, Row, StoreError};

/// The cursor behind the row at the cursor, where it is this one.
fn passed(
    heap: &mut PlainHeap,
    cursor: Cursor,
    place: u32,
    size: u32,
    used: bool,
) -> Option<Cursor> {
    match heap.row(cursor) {
        Some((row, next)) if row == Row { place, size, used } => Some(next),
        _ => None,
    }
}

/// Whether these are the heap's pools.
fn has_pools(heap: &mut PlainHeap, ranges: &[(u64, u64)]) -> bool {
    heap.pools().as_slice() == ranges
}

/// Whether this is the one row of the pool at 0.
fn has_row(heap: &mut PlainHeap, place: u32, size: u32, used: bool) -> bool {
    let Ok(first) = heap.first(0) else {
        return false;
    };
    let Some(end) = passed(heap, first, place, size, used) else {
        return false;
    };
    heap.row(end).is_none()
}

/// Whether these are the rows of the pool at 0: a live one, and a free one behind it.
fn has_rows(heap: &mut PlainHeap, live: u32, size: u32, free: u32, left: u32) -> bool {
    let Ok(first) = heap.first(0) else {
        return false;
    };
    let Some(second) = passed(heap, first, live, size, true) else {
        return false;
    };
    let Some(end) = passed(heap, second, free, left, false) else {
        return false;
    };
    heap.row(end).is_none()
}

/// A heap of four records with a pool of 1,024 bytes. What was refused is asked again.
fn made_at_last(rt: &impl Abort, alloc: Global) -> PlainHeap {
    let mut heap = match PlainHeap::create(alloc, 4) {
        Ok(heap) => heap,
        Err(error) => {
            assert!(rt; error == StoreError::OutOfMemory);
            PlainHeap::create(alloc, 4).expect(rt, "a heap")
        }
    };
    if heap.add_pool(0, 1024) == Err(Refusal::OutOfMemory) {
        assert!(rt; has_pools(&mut heap, &[]));
        expect_eq(rt, heap.add_pool(0, 1024), Ok(()));
    }
    heap
}

/// A block of this many bytes.
fn given_at_last(rt: &impl Abort, heap: &mut PlainHeap, n: u64) -> Ptr {
    match heap.malloc(n) {
        Ok(ptr) => ptr,
        Err(_) => heap.malloc(n).expect(rt, "a block"),
    }
}

/// Each call is made again where memory was refused. With one refusal the second call is served, on the
/// content that was there before the first.
#[test]
fn refused_memory(rt: HostRuntime) {
    let mut heap = made_at_last(&rt, rt.alloc());
    let mut given = heap.malloc(100);
    if given == Err(Refusal::OutOfMemory) {
        assert!(rt; has_row(&mut heap, 0, 1024, false));
        given = heap.malloc(100);
    }
    let ptr = given.expect(&rt, "a block");
    assert!(rt; has_rows(&mut heap, 0, 112, 112, 912));
    if heap.free(ptr) == Err(Refusal::OutOfMemory) {
        assert!(rt; has_rows(&mut heap, 0, 112, 112, 912));
        expect_eq(&rt, heap.free(ptr), Ok(()));
    }
    assert!(rt; has_row(&mut heap, 0, 1024, false));
}

/// Each call that changes the heap is made again where memory was refused: memalign, realloc in place, remove_pool.
#[test]
fn refused_memory_of_others(rt: HostRuntime) {
    let mut heap = made_at_last(&rt, rt.alloc());
    let mut given = heap.memalign(64, 100);
    if given == Err(Refusal::OutOfMemory) {
        assert!(rt; has_row(&mut heap, 0, 1024, false));
        given = heap.memalign(64, 100);
    }
    let ptr = given.expect(&rt, "a block");
    if heap.realloc(Some(ptr), 200) == Err(Refusal::OutOfMemory) {
        assert!(rt; has_rows(&mut heap, 0, 112, 112, 912));
        expect_eq(&rt, heap.realloc(Some(ptr), 200), Ok(Some(ptr)));
    }
    assert!(rt; has_rows(&mut heap, 0, 208, 208, 816));
    if heap.realloc(Some(ptr), 0) == Err(Refusal::OutOfMemory) {
        assert!(rt; has_rows(&mut heap, 0, 208, 208, 816));
        expect_eq(&rt, heap.realloc(Some(ptr), 0), Ok(None));
    }
    if heap.remove_pool(0) == Err(Refusal::OutOfMemory) {
        assert!(rt; has_row(&mut heap, 0, 1024, false));
        expect_eq(&rt, heap.remove_pool(0), Ok(()));
    }
    assert!(rt; has_pools(&mut heap, &[]));
}

/// A realloc that moves is refused as a whole: with one refusal of memory the block stays.
#[test]
fn refused_memory_of_a_move(rt: HostRuntime) {
    let mut heap = made_at_last(&rt, rt.alloc());
    let first = given_at_last(&rt, &mut heap, 100);
    let second = given_at_last(&rt, &mut heap, 1);
    let mut moved = heap.realloc(Some(first), 200);
    if moved == Err(Refusal::OutOfMemory) {
        expect_eq(&rt, heap.block_size(first), Ok(112));
        expect_eq(&rt, heap.block_size(second), Ok(16));
        moved = heap.realloc(Some(first), 200);
    }
    let Ok(Some(ptr)) = moved else {
        panic!(rt; "no block");
    };
    expect_eq(&rt, ptr.place(), 128);
    expect_eq(&rt, heap.block_size(first), Err(Refusal::BadPointer));
}
