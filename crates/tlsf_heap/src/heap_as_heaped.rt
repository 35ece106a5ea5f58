//! The heap as any heap.

use crate::{Cursor, Heap, Heaped, Ptr, Refusal, Row};
use arrayvec::ArrayVec;
use std::alloc::Global;
use tlsf_store::{MOST_POOLS, StoreError};

impl Heaped for Heap {
    ghost use Rattle.tlsf_heap.specs.Cursors.{rows_behind, is_at_row};

    ghost content = { λ heap. heap.content };

    ghost touches = { λ heap. heap.touches };

    ghost lacks = { ⊥ };

    ghost stands = { λ heap cursor. is_at_row heap.rows cursor };

    ghost rest = { λ heap cursor. rows_behind heap.rows cursor };

    fn create(alloc: Global, records: u32) -> Result<Self, StoreError> {
        Heap::create(alloc, records)
    }

    fn add_pool(&mut self, base: u64, bytes: u64) -> Result<(), Refusal> {
        Heap::add_pool(self, base, bytes)
    }

    fn remove_pool(&mut self, base: u64) -> Result<(), Refusal> {
        Heap::remove_pool(self, base)
    }

    #[inline(always)]
    fn malloc(&mut self, n: u64) -> Result<Ptr, Refusal> {
        Heap::malloc(self, n)
    }

    #[inline(never)]
    fn memalign(&mut self, align: u64, n: u64) -> Result<Ptr, Refusal> {
        Heap::memalign(self, align, n)
    }

    #[inline(always)]
    fn free(&mut self, ptr: Ptr) -> Result<(), Refusal> {
        Heap::free(self, ptr)
    }

    fn realloc(&mut self, ptr: Option<Ptr>, n: u64) -> Result<Option<Ptr>, Refusal> {
        Heap::realloc(self, ptr, n)
    }

    fn block_size(&mut self, ptr: Ptr) -> Result<u32, Refusal> {
        Heap::block_size(self, ptr)
    }

    fn pools(&mut self) -> ArrayVec<(u64, u64), MOST_POOLS> {
        Heap::pools(self)
    }

    fn first(&mut self, base: u64) -> Result<Cursor, Refusal> {
        Heap::first(self, base)
    }

    fn row(&mut self, cursor: Cursor) -> Option<(Row, Cursor)> {
        Heap::row(self, cursor)
    }

    fn keeps_good(&self) {
        Heap::keeps_good(self)
    }
}
