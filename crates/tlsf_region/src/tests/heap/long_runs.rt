//! Runs of more than a thousand requests, and of each number up to that.

use super::made;
use super::rows::has_rows;
use crate::tests::expect_eq;
use std::alloc::{AllocError, Global};
use tlsf_heap::*;

/// How many blocks fill the pool.
const BLOCKS: usize = 600;

/// How many blocks are asked for: more than there is room for.
const ASKED: usize = 1_100;

/// Whether the answer is that of the request of this number: the pool, then one block behind another until there is
/// no room.
fn is_of_filling(number: usize, answer: &Answer) -> bool {
    match answer {
        Answer::Done => number == 0,
        Answer::Given(ptr) => number <= BLOCKS && ptr.place() as usize + 16 == 16 * number,
        Answer::Refused(refusal) => number > BLOCKS && *refusal == Refusal::NoFit,
        _ => false,
    }
}

/// A free of each block that was given, and then again.
fn freeing(alloc: Global, answers: &[Answer]) -> Result<Vec<Request>, AllocError> {
    let mut requests = Vec::new(alloc);
    for _time in 0..2 {
        for answer in answers {
            if let Answer::Given(ptr) = answer {
                requests.push(Request::Free(*ptr))?;
            }
        }
    }
    Ok(requests)
}

/// Whether the answer is that of the request of this number: each block is freed once.
fn is_of_freeing(number: usize, answer: &Answer) -> bool {
    match answer {
        Answer::Done => number < BLOCKS,
        Answer::Refused(refusal) => number >= BLOCKS && *refusal == Refusal::BadPointer,
        _ => false,
    }
}

/// Whether the pool is filled in one run and freed in another, as it has to be.
fn fills_and_frees<H: Heaped>(alloc: Global, heap: &mut H) -> Result<bool, StoreError> {
    let mut requests = [Request::Malloc(8); 1 + ASKED];
    requests[0] = Request::AddPool(0, 16 * BLOCKS as u64);
    let given = run(alloc, heap, &requests)?;
    let Ok(requests) = freeing(alloc, given.as_slice()) else {
        return Err(StoreError::OutOfMemory);
    };
    let freed = run(alloc, heap, requests.as_slice())?;
    let filled = given
        .iter()
        .enumerate()
        .all(|(number, answer)| is_of_filling(number, answer));
    let gone = freed
        .iter()
        .enumerate()
        .all(|(number, answer)| is_of_freeing(number, answer));
    let rows = [(0, 16 * BLOCKS as u32, false)];
    Ok(
        given.len() == 1 + ASKED
            && freed.len() == 2 * BLOCKS
            && filled
            && gone
            && has_rows(heap, 0, &rows),
    )
}

/// How many requests the longest of the runs has that are made of each length.
const LONGEST: usize = 1_200;

/// Whether a run is answered, request by request: there is no pool.
fn is_answered<H: Heaped>(alloc: Global, heap: &mut H, requests: &[Request]) -> bool {
    match run(alloc, heap, requests) {
        Ok(answers) => {
            answers.len() == requests.len()
                && answers
                    .iter()
                    .all(|answer| *answer == Answer::Refused(Refusal::NoFit))
        }
        Err(_) => false,
    }
}

/// A run of each length, none included.
fn answers_each_length<H: Heaped>(alloc: Global, heap: &mut H) -> bool {
    let requests = [Request::Malloc(8); LONGEST];
    for count in 0..LONGEST + 1 {
        if !is_answered(alloc, heap, &requests[..count]) {
            return false;
        }
    }
    true
}

#[test]
fn runs_of_each_length(rt: HostRuntime) {
    let mut heap: Heap = made(&rt, rt.alloc(), 1);
    assert!(rt; answers_each_length(rt.alloc(), &mut heap));
    let mut heap: PlainHeap = made(&rt, rt.alloc(), 1);
    assert!(rt; answers_each_length(rt.alloc(), &mut heap));
}

#[test]
fn long_runs(rt: HostRuntime) {
    let mut heap: Heap = made(&rt, rt.alloc(), BLOCKS as u32);
    expect_eq(&rt, fills_and_frees(rt.alloc(), &mut heap), Ok(true));
    let mut heap: PlainHeap = made(&rt, rt.alloc(), BLOCKS as u32);
    expect_eq(&rt, fills_and_frees(rt.alloc(), &mut heap), Ok(true));
}
