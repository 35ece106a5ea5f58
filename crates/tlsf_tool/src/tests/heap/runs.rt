//! Runs over a heap.

use crate::tests::expect_eq;
use std::test::Fail;
use tlsf_heap::{Heap, Request, run};

/// No run of up to 300 requests is refused memory that is there.
#[test]
fn runs_of_each_length(rt: HostRuntime) -> Result<(), Fail> {
    let alloc = rt.alloc();
    let mut heap = Heap::create(alloc, 4)?;
    let mut requests: Vec<Request> = Vec::new(alloc);
    for length in 0..=300 {
        let answers = run(alloc, &mut heap, requests.as_slice())?;
        expect_eq(&rt, answers.len(), length);
        requests.push(Request::Malloc(16))?;
    }
    Ok(())
}
