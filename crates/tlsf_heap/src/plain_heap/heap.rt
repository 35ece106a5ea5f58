use super::content::Content;
use super::free::freed;
use super::malloc::allocate;
use super::memalign::split_aligned;
use super::realloc::resize;
use crate::memalign::is_alignment;
use crate::{Cursor, Heaped, Ptr, Refusal, Row};
use arrayvec::ArrayVec;
use std::alloc::Global;
use std::marker::Model;
use tlsf_class::round;
use tlsf_store::{MOST_POOLS, MOST_RECORDS, StoreError, can_be_pool};

/// A heap of plain lists: its pools in order of base, each with its blocks, and the free list of each
/// class.
///
/// After a refusal its content is as it was.
#[derive(Drop)]
pub struct PlainHeap {
    content: Content,
}

impl Model for PlainHeap {
    ghost use Rattle.std.specs.Prelude.{ℕ};
    ghost use Rattle.tlsf_heap.specs.Content.{Content};
    ghost use Rattle.tlsf_heap.specs.PlainHeap.{IsPlain};

    ghost Value = { Content ℕ };

    ghost view = { λ h. h.content };

    ghost invariant = { λ h. IsPlain h.content };
}

/// It has no table to touch. Each call that changes it may lack memory.
impl Heaped for PlainHeap {
    ghost use Rattle.std.specs.Prelude.{⊤};
    ghost use Rattle.tlsf_heap.specs.PlainHeap.{rows_from_number};

    ghost content = { λ heap. heap };

    ghost touches = { λ heap. 0 };

    ghost lacks = { ⊤ };

    ghost stands = { λ heap cursor. ⊤ };

    ghost rest = { λ heap cursor. rows_from_number cursor.next heap.pools };

    fn create(alloc: Global, records: u32) -> Result<Self, StoreError> {
        if records == 0 || records > MOST_RECORDS {
            return Err(StoreError::BadCount);
        }
        match Content::create(alloc, records as u16) {
            Ok(content) => Ok(PlainHeap { content }),
            Err(_) => Err(StoreError::OutOfMemory),
        }
    }

    fn add_pool(&mut self, base: u64, bytes: u64) -> Result<(), Refusal> {
        let content = &self.content;
        if !can_be_pool(base, bytes) || !content.is_apart(base, bytes) {
            return Err(Refusal::BadPool);
        }
        if content.pools.len() >= MOST_POOLS {
            return Err(Refusal::PoolsFull);
        }
        if content.is_full() {
            return Err(Refusal::TableFull);
        }
        let mut next = content.copy()?;
        next.add_pool(base as u32, bytes as u32)?;
        self.content = next;
        Ok(())
    }

    fn remove_pool(&mut self, base: u64) -> Result<(), Refusal> {
        let Some((bytes, is_unused)) = self.content.pool_at(base) else {
            return Err(Refusal::NoPool);
        };
        if !is_unused {
            return Err(Refusal::PoolInUse);
        }
        let mut next = self.content.copy()?;
        next.remove_pool(base as u32, bytes);
        self.content = next;
        Ok(())
    }

    fn malloc(&mut self, n: u64) -> Result<Ptr, Refusal> {
        if n == 0 {
            return Err(Refusal::ZeroSize);
        }
        let asked = round(n).ok_or(Refusal::NoFit)?;
        let (next, ptr) = allocate(&self.content, asked)?;
        self.content = next;
        Ok(ptr)
    }

    fn memalign(&mut self, align: u64, n: u64) -> Result<Ptr, Refusal> {
        if !is_alignment(align) {
            return Err(Refusal::BadAlign);
        }
        if n == 0 {
            return Err(Refusal::ZeroSize);
        }
        let asked = round(n).ok_or(Refusal::NoFit)?;
        let (next, ptr) = split_aligned(&self.content, align as u32, asked)?;
        self.content = next;
        Ok(ptr)
    }

    fn free(&mut self, ptr: Ptr) -> Result<(), Refusal> {
        if !self.content.is_live(ptr.place(), ptr.slot()) {
            return Err(Refusal::BadPointer);
        }
        self.content = freed(&self.content, ptr)?;
        Ok(())
    }

    fn realloc(&mut self, ptr: Option<Ptr>, n: u64) -> Result<Option<Ptr>, Refusal> {
        let Some(ptr) = ptr else {
            return Ok(Some(self.malloc(n)?));
        };
        if !self.content.is_live(ptr.place(), ptr.slot()) {
            return Err(Refusal::BadPointer);
        }
        if n == 0 {
            self.content = freed(&self.content, ptr)?;
            return Ok(None);
        }
        let asked = round(n).ok_or(Refusal::NoFit)?;
        let (next, new) = resize(&self.content, ptr, asked)?;
        self.content = next;
        Ok(Some(new))
    }

    fn block_size(&mut self, ptr: Ptr) -> Result<u32, Refusal> {
        if !self.content.is_live(ptr.place(), ptr.slot()) {
            return Err(Refusal::BadPointer);
        }
        Ok(self.content.size_at(ptr.place()))
    }

    fn pools(&mut self) -> ArrayVec<(u64, u64), MOST_POOLS> {
        let mut ranges = ArrayVec::new();
        let content = &self.content;
        for pool in &content.pools {
            ranges.push((u64::from(pool.base), u64::from(pool.bytes)));
        }
        ranges
    }

    fn first(&mut self, base: u64) -> Result<Cursor, Refusal> {
        let Some(number) = self.content.blocks_in_front(base) else {
            return Err(Refusal::NoPool);
        };
        Ok(Cursor { next: Some(number) })
    }

    fn row(&mut self, cursor: Cursor) -> Option<(Row, Cursor)> {
        let number = cursor.next?;
        let (block, behind) = self.content.blocks_from(number).split_first()?;
        let next = if behind.is_empty() {
            None
        } else {
            Some(number + 1)
        };
        Some((block.row(), Cursor { next }))
    }

    fn keeps_good(&self) {
        let _content = &self.content;
    }
}
