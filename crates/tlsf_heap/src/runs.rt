//! A run of requests on a heap.

ghost use Rattle.std.specs.Prelude.{◌≡◌, ◌≢◌, All, IfOk, IfErr, OnErr};
ghost use Rattle.tlsf_heap.specs.Touches.{AtMost};
ghost use Rattle.tlsf_heap.specs.Run.{Step, Run, most_touches};

use crate::{Answer, Heaped, Refusal, Request};
use std::alloc::Global;
use tlsf_store::StoreError;

/// The heap's answer to one request.
fn answer<H: Heaped>(heap: &mut H, request: Request) -> Answer
    ensures step { Step H.lacks request result (H.content heap.old) (H.content heap.new) }
    ensures bound { AtMost (most_touches request) (H.touches heap.old) (H.touches heap.new) }
{
    match request {
        Request::AddPool(base, bytes) => match heap.add_pool(base, bytes) {
            Ok(()) => Answer::Done,
            Err(refusal) => Answer::Refused(refusal),
        },
        Request::RemovePool(base) => match heap.remove_pool(base) {
            Ok(()) => Answer::Done,
            Err(refusal) => Answer::Refused(refusal),
        },
        Request::Malloc(n) => match heap.malloc(n) {
            Ok(ptr) => Answer::Given(ptr),
            Err(refusal) => Answer::Refused(refusal),
        },
        Request::Memalign(align, n) => match heap.memalign(align, n) {
            Ok(ptr) => Answer::Given(ptr),
            Err(refusal) => Answer::Refused(refusal),
        },
        Request::Free(ptr) => match heap.free(ptr) {
            Ok(()) => Answer::Done,
            Err(refusal) => Answer::Refused(refusal),
        },
        Request::Realloc(ptr, n) => match heap.realloc(ptr, n) {
            Ok(ptr) => Answer::Moved(ptr),
            Err(refusal) => Answer::Refused(refusal),
        },
        Request::BlockSize(ptr) => match heap.block_size(ptr) {
            Ok(bytes) => Answer::Size(bytes),
            Err(refusal) => Answer::Refused(refusal),
        },
    }
}

/// Asks the heap for each of the requests, one after the other, and gives their answers in order.
/// Requests may repeat, and pointers may be stale.
///
/// It takes memory for all answers first. Over a heap that lacks no memory, no answer is `OutOfMemory`.
///
/// # Errors
///
/// `OutOfMemory` where that memory is refused: then the heap is untouched.
pub fn run<H: Heaped>(
    alloc: Global,
    heap: &mut H,
    requests: &[Request],
) -> Result<Vec<Answer>, StoreError>
    ensures answers { IfOk result (λ answers. Run H.lacks requests.now answers.items (H.content heap.old) (H.content heap.new) (H.touches heap.old) (H.touches heap.new)) }
    ensures memory { IfOk result (λ answers. (H.lacks → ⊥) → All (λ answer. answer ≢ Answer.Refused Refusal.OutOfMemory) answers.items) }
    ensures untouched { OnErr result (heap.new ≡ heap.old) }
    ensures no_memory { IfErr result (λ error. error ≡ StoreError.OutOfMemory) }
{
    let Ok(mut answers) = Vec::with_capacity(alloc, requests.len()) else {
        return Err(StoreError::OutOfMemory);
    };
    for request in requests {
        let given = answer(heap, *request);
        answers.push_reserved(given);
    }
    Ok(answers)
}
