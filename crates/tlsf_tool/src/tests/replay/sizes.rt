//! What a heap and a replay take of memory beside what they ask for.

use super::*;
use crate::tests::expect_eq;
use std::mem::size_of;
use tlsf_store::Store;

#[test]
fn sizes_of_types(rt: HostRuntime) {
    expect_eq(&rt, size_of::<Heap>(), size_of::<Store>());
    assert!(rt; size_of::<Replay<Heap>>() <= size_of::<Heap>() + 1024);
}
