//! Images that are saved, and loaded again.

use super::images::{LEN, RECORDS_AT, vector};
use super::made;
use super::random::shifted;
use super::rows::has_rows;
use crate::tests::expect_eq;
use mtrace_log::memory::{Full, MemorySink};
use std::alloc::Global;
use std::process::Abort;
use tlsf_heap::*;

/// A heap of this many records with a pool of 64 bytes.
fn small<A: Abort>(rt: &A, alloc: Global, records: u32) -> Heap {
    let mut heap: Heap = made(rt, alloc, records);
    heap.add_pool(0, 64).expect(rt, "a pool");
    heap
}

/// The image of the vector, and that of a heap with a live block and a free one. The live block's pointer is live in
/// the heap loaded.
#[test]
fn saved_images(rt: HostRuntime) {
    let mut heap = small(&rt, rt.alloc(), 1);
    let mut image = MemorySink::in_pieces(rt.alloc(), usize::MAX);
    expect_eq(&rt, heap.save_image(&mut image), Ok(()));
    expect_eq(&rt, image.bytes().len(), RECORDS_AT + 16);
    assert!(rt; vector().starts_with(image.bytes()));
    let mut heap = small(&rt, rt.alloc(), 2);
    let ptr = heap.malloc(8).expect(&rt, "a block");
    let mut image = MemorySink::in_pieces(rt.alloc(), 100);
    expect_eq(&rt, heap.save_image(&mut image), Ok(()));
    expect_eq(&rt, image.bytes().len(), LEN);
    let mut loaded = Heap::load_image(rt.alloc(), image.bytes()).expect(&rt, "a heap");
    assert!(rt; has_rows(&mut loaded, 0, &[(0, 16, true), (16, 48, false)]));
    expect_eq(&rt, loaded.free(ptr), Ok(()));
    assert!(rt; has_rows(&mut loaded, 0, &[(0, 64, false)]));
}

/// A heap of this many records is saved, and loaded from its image.
fn expect_loaded<A: Abort>(rt: &A, alloc: Global, records: u32) {
    let mut heap = small(rt, alloc, records);
    let mut image = MemorySink::in_pieces(alloc, usize::MAX);
    expect_eq(rt, heap.save_image(&mut image), Ok(()));
    assert!(rt; Heap::load_image(alloc, image.bytes()).is_ok(), "{records}");
}

/// Each count of records up to 1,024, and thirty up to the greatest.
#[test]
fn counts_of_loaded_heaps(rt: HostRuntime) {
    for records in 1..1_025 {
        expect_loaded(&rt, rt.alloc(), records);
    }
    for number in 0..30 {
        expect_loaded(&rt, rt.alloc(), 65_535 - 2_113 * number);
    }
}

/// The writer fails behind each number of bytes, or takes none there; the heap can be saved afterwards.
#[test]
fn image_writer_fails(rt: HostRuntime) {
    let mut heap = small(&rt, rt.alloc(), 1);
    for room in 0..RECORDS_AT + 16 {
        let full = if room % 2 == 0 {
            Full::Fails
        } else {
            Full::TakesNone
        };
        let mut image = MemorySink::with_room(rt.alloc(), 1_000, room, full);
        expect_eq(&rt, heap.save_image(&mut image), Err(ImageFault::Write));
        expect_eq(&rt, image.bytes(), &vector()[..room.min(LEN)]);
    }
    let mut image = MemorySink::with_room(rt.alloc(), 1_000, RECORDS_AT + 16, Full::Fails);
    expect_eq(&rt, heap.save_image(&mut image), Ok(()));
}

/// The pointers that two heaps gave for one request, while their block is live.
#[derive(Clone, Copy)]
struct Pair {
    one: Ptr,
    other: Ptr,
}

/// How many blocks are live at once.
const LIVE: usize = 40;

/// Asks both heaps for a block in this place of the live ones, or frees the one that is there. Whether they answer the same,
/// but for slots.
fn step_alike<A: Heaped, B: Heaped>(
    one: &mut A,
    other: &mut B,
    live: &mut Option<Pair>,
    bytes: u64,
) -> bool {
    match *live {
        Some(pair) => {
            *live = None;
            one.free(pair.one) == Ok(()) && other.free(pair.other) == Ok(())
        }
        None => match (one.malloc(bytes), other.malloc(bytes)) {
            (Ok(one), Ok(other)) => {
                *live = Some(Pair { one, other });
                one.place() == other.place()
            }
            (Err(one), Err(other)) => one == other,
            _ => false,
        },
    }
}

/// Whether as many steps go alike on both heaps.
fn go_alike<A: Heaped, B: Heaped>(
    one: &mut A,
    other: &mut B,
    live: &mut [Option<Pair>; LIVE],
    seed: u64,
    steps: u32,
) -> bool {
    let mut number = seed;
    for _step in 0..steps {
        number = shifted(number);
        let at = (number % LIVE as u64) as usize;
        if !step_alike(one, other, &mut live[at], number >> 32 & 511) {
            return false;
        }
    }
    true
}

/// A heap is loaded again from what was saved of it. It goes on as the plain heap does, also with the blocks that
/// were live.
#[test]
fn saved_and_loaded(rt: HostRuntime) {
    for seed in 1..20 {
        let mut plain: PlainHeap = made(&rt, rt.alloc(), 300);
        let mut heap: Heap = made(&rt, rt.alloc(), 300);
        for (base, bytes) in [(65_536, 4_096), (0, 4_096), (4_096, 1_024)] {
            plain.add_pool(base, bytes).expect(&rt, "a pool");
            heap.add_pool(base, bytes).expect(&rt, "a pool");
        }
        let mut live = [None; LIVE];
        assert!(rt; go_alike(&mut plain, &mut heap, &mut live, seed, 300));
        let mut image = MemorySink::in_pieces(rt.alloc(), 4_096);
        expect_eq(&rt, heap.save_image(&mut image), Ok(()));
        let mut loaded = Heap::load_image(rt.alloc(), image.bytes()).expect(&rt, "a heap");
        assert!(rt; heap.check() && loaded.check());
        assert!(rt; go_alike(&mut plain, &mut loaded, &mut live, seed + 100, 1_000));
        assert!(rt; loaded.check());
    }
}
