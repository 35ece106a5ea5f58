use super::block::Block;
use std::alloc::{AllocError, Global};
use std::marker::Model;
use std::slice;

/// A pool: where it begins, its bytes, and its blocks in order of place.
#[derive(Drop)]
pub struct Pool {
    pub base: u32,
    pub bytes: u32,
    pub blocks: Vec<Block>,
}

impl Model for Pool {
    ghost use Rattle.std.specs.Prelude.{ℕ};
    ghost use Rattle.tlsf_heap.specs.Content.{Pool};

    ghost Value = { Pool ℕ };

    ghost view = { λ p. record { base = p.base; bytes = p.bytes; blocks = p.blocks.items } };
}

impl Clone for Pool {
    ghost use Rattle.std.specs.Prelude.{◌≡◌};

    ghost is_clone = { λ pool copy. copy ≡ pool };

    fn clone(&self) -> Result<Self, AllocError> {
        Ok(Pool {
            base: self.base,
            bytes: self.bytes,
            blocks: Vec::from_slice(*self.blocks.allocator(), self.blocks.as_slice())?,
        })
    }
}

impl Pool {
    ghost use Rattle.std.specs.Prelude.{◌≡◌, IfOk};
    ghost use Rattle.std.specs.List.{list_any, list_all};
    ghost use Rattle.tlsf_heap.specs.Content.{is_free, IsSize};
    ghost use Rattle.tlsf_heap.specs.GoodSlots.{is_slot};
    ghost use Rattle.tlsf_heap.specs.Free.{previous_of, next_of};
    ghost use Rattle.tlsf_heap.specs.Malloc.{gap, replaced_in};
    ghost use Rattle.tlsf_heap.specs.Pools.{is_based, is_unused};

    /// A pool that is one free block.
    pub fn new(alloc: Global, base: u32, bytes: u32) -> Result<Self, AllocError>
        requires { IsSize bytes }
        ensures { IfOk result (λ pool. pool ≡ record { base = base; bytes = bytes; blocks = gap base bytes }) }
    {
        let mut blocks = Vec::new(alloc);
        blocks.push(Block::free(base, bytes))?;
        Ok(Pool {
            base,
            bytes,
            blocks,
        })
    }

    /// Whether it begins at the place.
    pub fn is_based(&self, base: u64) -> bool
        ensures { result ≡ is_based base self.now }
    {
        u64::from(self.base) == base
    }

    /// Whether each of its blocks is free.
    fn is_free(&self) -> bool
        ensures { result ≡ list_all is_free self.now.blocks }
    {
        self.blocks.iter().all(|block| block.owner.is_none())
    }

    /// Whether it is one free block.
    pub fn is_unused(&self) -> bool
        ensures { result ≡ is_unused self.now }
    {
        self.blocks.len() == 1 && self.is_free()
    }

    /// Whether a live block of it has the slot.
    pub fn has_slot(&self, slot: u16) -> bool
        ensures { result ≡ list_any (λ block. is_slot slot block.owner) self.now.blocks }
    {
        self.blocks.iter().any(|block| block.owner == Some(slot))
    }

    /// The pool, where the block at the place gives way to the others.
    pub fn replaced(&self, place: u32, others: &[Block]) -> Result<Self, AllocError>
        ensures { IfOk result (λ pool. pool ≡ replaced_in place others.now self.now) }
    {
        let mut blocks = Vec::new(*self.blocks.allocator());
        for block in &self.blocks {
            let parts = if block.place == place {
                others
            } else {
                slice::from_ref(block)
            };
            blocks.extend_from_slice(parts)?;
        }
        Ok(Pool {
            base: self.base,
            bytes: self.bytes,
            blocks,
        })
    }

    /// The block before the one at the place.
    pub fn previous_of(&self, place: u32) -> Option<Block>
        ensures { result ≡ previous_of place self.now.blocks }
    {
        for (number, block) in self.blocks.iter().enumerate() {
            if let Some(next) = self.blocks.get(number + 1) {
                if next.place == place {
                    return Some(*block);
                }
            }
        }
        None
    }

    /// The block after the one at the place.
    pub fn next_of(&self, place: u32) -> Option<Block>
        ensures { result ≡ next_of place self.now.blocks }
    {
        for (number, block) in self.blocks.iter().enumerate() {
            if let Some(next) = self.blocks.get(number + 1) {
                if block.place == place {
                    return Some(*next);
                }
            }
        }
        None
    }
}
