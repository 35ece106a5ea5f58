//! Pointers that no block has, many blocks, and memory refused to the plain heap.

use super::rows::has_rows;
use super::*;
use crate::tests::expect_eq;
use std::alloc::AllocError;

/// Whether a free of each of these is refused.
fn refuses<H: Heaped>(heap: &mut H, wrong: &[Ptr]) -> bool {
    for ptr in wrong {
        if heap.free(*ptr) != Err(Refusal::BadPointer) {
            return false;
        }
    }
    true
}

/// Pointers with another slot, with another place, and with the slot that no record has.
fn none_of(ptr: Ptr) -> [Ptr; 3] {
    let other = if ptr.slot() == 0 { 1 } else { 0 };
    [
        Ptr::new(ptr.place(), other),
        Ptr::new(16, ptr.slot()),
        Ptr::new(ptr.place(), 65_535),
    ]
}

/// The block of a pool is freed and given again. Its pointer is the only one that frees it.
fn refuses_pointers<H: Heaped>(rt: &impl Abort, alloc: Global) {
    let mut heap: H = made(rt, alloc, 2);
    expect_eq(rt, heap.add_pool(0, 64), Ok(()));
    let first = heap.malloc(64).expect(rt, "a block");
    expect_eq(rt, heap.free(first), Ok(()));
    let ptr = heap.malloc(64).expect(rt, "a block");
    assert!(rt; refuses(&mut heap, &none_of(ptr)));
    expect_eq(rt, heap.free(ptr), Ok(()));
}

#[test]
fn wrong_pointers(rt: HostRuntime) {
    refuses_pointers::<Heap>(&rt, rt.alloc());
    refuses_pointers::<PlainHeap>(&rt, rt.alloc());
}

/// Blocks of 16 bytes, as many as are asked for.
fn given(
    rt: &impl Abort,
    alloc: Global,
    heap: &mut Heap,
    blocks: u32,
) -> Result<Vec<Ptr>, AllocError> {
    let mut given = Vec::new(alloc);
    for _ in 0..blocks {
        given.push(heap.malloc(16).expect(rt, "a block"))?;
    }
    Ok(given)
}

/// Each second of these blocks becomes free.
fn free_each_second(rt: &impl Abort, heap: &mut Heap, given: &[Ptr]) {
    for ptr in given {
        if ptr.place() % 32 == 0 {
            assert_eq!(rt; heap.free(*ptr), Ok(()), "{ptr:?}");
        }
    }
}

/// Of 20,000 blocks each second is freed, and the last of these is given again.
#[test]
fn every_second_freed(rt: HostRuntime) {
    let mut heap: Heap = made(&rt, rt.alloc(), 20_000);
    expect_eq(&rt, heap.add_pool(0, 320_000), Ok(()));
    let blocks = given(&rt, rt.alloc(), &mut heap, 20_000).expect(&rt, "memory");
    free_each_second(&rt, &mut heap, blocks.as_slice());
    expect_eq(&rt, heap.malloc(16).map(|ptr| ptr.place()), Ok(319_968));
    expect_eq(&rt, heap.malloc(32), Err(Refusal::NoFit));
}

/// The requests of one run.
fn requests() -> [Request; 7] {
    [
        Request::AddPool(0, 1024),
        Request::Malloc(100),
        Request::Malloc(0),
        Request::Malloc(1),
        Request::Free(Ptr::new(0, 9)),
        Request::Malloc(2000),
        Request::Malloc(896),
    ]
}

/// What an answer to a request that gives no size says: the place of the block given, if any, or the refusal.
type Said = Result<Option<u32>, Refusal>;

/// What the requests are answered with ample memory.
const SERVED: [Said; 7] = [
    Ok(None),
    Ok(Some(0)),
    Err(Refusal::ZeroSize),
    Ok(Some(112)),
    Err(Refusal::BadPointer),
    Err(Refusal::NoFit),
    Ok(Some(128)),
];

/// What they are answered where memory is refused to one of the calls that take some.
const LACKING: [[Said; 7]; 4] = [
    [
        Err(Refusal::OutOfMemory),
        Err(Refusal::NoFit),
        Err(Refusal::ZeroSize),
        Err(Refusal::NoFit),
        Err(Refusal::BadPointer),
        Err(Refusal::NoFit),
        Err(Refusal::NoFit),
    ],
    [
        Ok(None),
        Err(Refusal::OutOfMemory),
        Err(Refusal::ZeroSize),
        Ok(Some(0)),
        Err(Refusal::BadPointer),
        Err(Refusal::NoFit),
        Ok(Some(16)),
    ],
    [
        Ok(None),
        Ok(Some(0)),
        Err(Refusal::ZeroSize),
        Err(Refusal::OutOfMemory),
        Err(Refusal::BadPointer),
        Err(Refusal::NoFit),
        Ok(Some(112)),
    ],
    [
        Ok(None),
        Ok(Some(0)),
        Err(Refusal::ZeroSize),
        Ok(Some(112)),
        Err(Refusal::BadPointer),
        Err(Refusal::NoFit),
        Err(Refusal::OutOfMemory),
    ],
];

/// Whether the answers say this.
fn say(answers: &[Answer], wanted: &[Said; 7]) -> bool {
    answers.len() == 7
        && answers.iter().zip(wanted.iter()).all(|(answer, said)| match answer {
            Answer::Done => *said == Ok(None),
            Answer::Given(ptr) => *said == Ok(Some(ptr.place())),
            Answer::Refused(refusal) => *said == Err(*refusal),
            _ => false,
        })
}

/// Whether one run of the requests is answered as it has to be with ample memory, and has these rows then.
fn runs_at_once<H: Heaped>(alloc: Global) -> Result<bool, StoreError> {
    let mut heap = H::create(alloc, 4)?;
    let answers = run(alloc, &mut heap, &requests())?;
    let rows = [(0, 112, true), (112, 16, true), (128, 896, true)];
    Ok(say(answers.as_slice(), &SERVED) && has_rows(&mut heap, 0, &rows))
}

#[test]
fn run_of_requests(rt: HostRuntime) {
    expect_eq(&rt, runs_at_once::<Heap>(rt.alloc()), Ok(true));
    expect_eq(&rt, runs_at_once::<PlainHeap>(rt.alloc()), Ok(true));
}

/// It passes whichever allocation is refused, and where none is.
#[test]
fn plain_heap_refusals(rt: HostRuntime) {
    let mut heap = match PlainHeap::create(rt.alloc(), 4) {
        Ok(heap) => heap,
        Err(error) => {
            expect_eq(&rt, error, StoreError::OutOfMemory);
            return;
        }
    };
    match run(rt.alloc(), &mut heap, &requests()) {
        Ok(answers) => assert!(rt;
            say(answers.as_slice(), &SERVED)
                || LACKING.iter().any(|wanted| say(answers.as_slice(), wanted)),
            "{answers:?}"
        ),
        Err(error) => {
            expect_eq(&rt, error, StoreError::OutOfMemory);
            assert!(rt; has_pools(&mut heap, &[]));
            let again = run(rt.alloc(), &mut heap, &requests()).expect(&rt, "answers");
            assert!(rt; say(again.as_slice(), &SERVED));
        }
    }
}
