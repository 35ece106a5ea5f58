//! Rows of the heap and of the plain heap.

mod hostile;
mod images;
mod long_runs;
mod plain_heap;
mod random;
mod rows;
mod saving;
mod walking;

use crate::tests::expect_eq;
use mtrace_log::ToWrite;
use std::alloc::Global;
use std::io;
use std::process::Abort;
use tlsf_heap::*;

/// Whether these are the heap's pools.
fn has_pools<H: Heaped>(heap: &mut H, ranges: &[(u64, u64)]) -> bool {
    heap.pools().as_slice() == ranges
}

/// A heap of this many records, where memory isn't refused.
fn made<H: Heaped>(rt: &impl Abort, alloc: Global, records: u32) -> H {
    match H::create(alloc, records) {
        Ok(heap) => heap,
        Err(_) => panic!(rt; "no heap"),
    }
}

fn bad_count<H: Heaped>(alloc: Global, records: u32) -> bool {
    H::create(alloc, records).err() == Some(StoreError::BadCount)
}

#[test]
fn bad_counts(rt: HostRuntime) {
    for records in [0, 65_536] {
        assert!(rt; bad_count::<Heap>(rt.alloc(), records));
        assert!(rt; bad_count::<PlainHeap>(rt.alloc(), records));
    }
}

/// Blocks of the least size are given one behind another, one fewer than there can be records.
fn fill(rt: &impl Abort, heap: &mut Heap) {
    for number in 0..65_534 {
        expect_eq(rt, heap.malloc(8).map(|ptr| ptr.place()), Ok(number * 16));
    }
}

/// The greatest table holds as many blocks as it has records. It is full then: the last one is given
/// whole alone.
#[test]
fn greatest_table_filled(rt: HostRuntime) {
    let mut heap: Heap = made(&rt, rt.alloc(), 65_535);
    expect_eq(&rt, heap.add_pool(0, 1_048_576), Ok(()));
    fill(&rt, &mut heap);
    expect_eq(&rt, heap.malloc(8), Err(Refusal::TableFull));
    expect_eq(&rt, heap.malloc(32).map(|ptr| ptr.place()), Ok(1_048_544));
    expect_eq(&rt, heap.malloc(8), Err(Refusal::NoFit));
}

/// The pools of 64 bytes that touch, from 0 on, begin at the multiples of 64.
fn has_firsts<H: Heaped>(heap: &mut H, pools: u64) -> bool {
    for number in 0..9 {
        let first = heap.first(number * 64);
        if first.is_ok() != (number < pools) || heap.first(number * 64 + 16).is_ok() {
            return false;
        }
    }
    heap.first(576) == Err(Refusal::NoPool)
}

fn first_of_each_pool<H: Heaped>(rt: &impl Abort, alloc: Global) {
    let mut heap: H = made(rt, alloc, 8);
    assert!(rt; has_firsts(&mut heap, 0));
    for number in 0..8 {
        expect_eq(rt, heap.add_pool(number * 64, 64), Ok(()));
    }
    assert!(rt; has_firsts(&mut heap, 8));
}

#[test]
fn firsts_of_both_heaps(rt: HostRuntime) {
    first_of_each_pool::<Heap>(&rt, rt.alloc());
    first_of_each_pool::<PlainHeap>(&rt, rt.alloc());
}

/// Whether a run that was refused memory left the heap as it was, and is served when it is made again.
/// With no more than one refusal it is.
fn run_again<H: Heaped>(alloc: Global) -> bool {
    let Ok(mut heap) = H::create(alloc, 4) else {
        return true;
    };
    let requests = [Request::AddPool(0, 1024)];
    match run(alloc, &mut heap, &requests) {
        Ok(answers) => answers.first() == Some(&Answer::Done) || heap.pools().is_empty(),
        Err(error) => {
            error == StoreError::OutOfMemory
                && heap.pools().is_empty()
                && run(alloc, &mut heap, &requests).is_ok()
        }
    }
}

#[test]
fn refused_runs(rt: HostRuntime) {
    assert!(rt; run_again::<Heap>(rt.alloc()));
    assert!(rt; run_again::<PlainHeap>(rt.alloc()));
}

#[test]
fn pointers(rt: HostRuntime) {
    let ptr = Ptr::new(112, 9);
    expect_eq(&rt, ptr.place(), 112);
    expect_eq(&rt, ptr.slot(), 9);
}

/// Two blocks, of which the first shrinks in place.
fn two_blocks(rt: &impl Abort, heap: &mut Heap) -> (Ptr, Ptr) {
    let first = heap.malloc(100).expect(rt, "a block");
    let second = heap.memalign(64, 1).expect(rt, "a block");
    expect_eq(rt, (first.place(), second.place()), (0, 128));
    expect_eq(rt, heap.realloc(Some(first), 8), Ok(Some(first)));
    (first, second)
}

/// Whether the readings of a pool tell this block, its rows and the pool.
fn reads(heap: &mut Heap, block: Ptr) -> bool {
    let Ok(cursor) = heap.first(0) else {
        return false;
    };
    let has_row = heap.row(cursor).is_some();
    let is_walked = heap.walk(0, |_row| {}) == Ok(());
    let has_size = heap.block_size(block) == Ok(16);
    // A live block, a free one up to 128, the second live one, and a free one of 880 bytes behind it.
    let has_figures = heap.records_used() == 4 && heap.largest_request() == 880;
    has_row && is_walked && has_size && has_figures && heap.check() && has_pools(heap, &[(0, 1024)])
}

/// Each call of a heap once, and then another heap. A heap takes memory for its table alone, so the other's is the
/// second that is taken. This test fails where the first or the second allocation is refused, and passes where any
/// other is.
#[test]
fn memory_taken_once(rt: HostRuntime) {
    let mut heap: Heap = made(&rt, rt.alloc(), 4);
    expect_eq(&rt, heap.add_pool(0, 1024), Ok(()));
    let (first, second) = two_blocks(&rt, &mut heap);
    assert!(rt; reads(&mut heap, first));
    let mut writer = ToWrite::new(io::sink());
    assert!(rt; heap.save_image(&mut writer).is_ok());
    expect_eq(&rt, heap.remove_pool(0), Err(Refusal::PoolInUse));
    expect_eq(&rt, heap.free(first), Ok(()));
    expect_eq(&rt, heap.free(second), Ok(()));
    expect_eq(&rt, heap.remove_pool(0), Ok(()));
    assert!(rt; Heap::create(rt.alloc(), 1).is_ok());
}

/// `create` sees that its memory is refused.
#[test]
fn refused_memory(rt: HostRuntime) {
    if let Some(error) = Heap::create(rt.alloc(), 2).err() {
        assert!(rt; error == StoreError::OutOfMemory);
        assert!(rt; Heap::create(rt.alloc(), 2).is_ok());
    }
}
