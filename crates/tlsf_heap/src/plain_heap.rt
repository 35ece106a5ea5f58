//! A heap kept as plain lists, which are scanned.
//!
//! Nothing here is bounded in steps. Each call that may lack memory makes a new content, which takes the
//! heap's place at the end, so that refused memory changes nothing.

mod block;
mod content;
mod free;
mod heap;
mod malloc;
mod memalign;
mod pool;
mod realloc;

pub use heap::PlainHeap;
