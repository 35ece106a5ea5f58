use super::block::Block;
use super::pool::Pool;
use std::alloc::{AllocError, Global};
use std::marker::Model;
use tlsf_class::{CLASSES, class_for, class_of};

/// What the heap holds: its pools in order of base, and for each class the places of its free list.
#[derive(Drop)]
pub struct Content {
    records: u16,
    pub pools: Vec<Pool>,
    lists: Vec<Vec<u32>>,
}

impl Model for Content {
    ghost use Rattle.std.specs.Prelude.{◌≡◌, ℕ, length};
    ghost use Rattle.tlsf_class.specs.Classes.{classes};
    ghost use Rattle.tlsf_heap.specs.Content.{Content};
    ghost use Rattle.tlsf_heap.specs.PlainHeap.{lists_of};

    ghost Value = { Content ℕ };

    ghost view = { λ c. record { records = c.records; pools = c.pools.items; lists = lists_of c.lists.items } };

    ghost invariant = { λ c. length c.lists.items ≡ classes };
}

impl Content {
    ghost use Rattle.std.specs.Prelude.{◌≡◌, ◌<◌, ◌≤◌, ◌+◌, ◌^◌, ◌%◌, ◌==◌, not, length, map, filter, find, count_by, option_map, nat_le, nat_lt, position, IfOk, IfSome, OnOk};
    ghost use Rattle.std.specs.List.{list_any, list_all};
    ghost use Rattle.tlsf_class.specs.Classes.{unit};
    ghost use Rattle.tlsf_heap.specs.Content.{blocks_of, is_free, is_at, size_at, used_records, IsSize};
    ghost use Rattle.tlsf_heap.specs.Lists.{link, unlink, pick};
    ghost use Rattle.tlsf_heap.specs.Malloc.{replaced_in};
    ghost use Rattle.tlsf_heap.specs.Free.{is_live, free_previous, free_next, unlink_block, without_block};
    ghost use Rattle.tlsf_heap.specs.Pools.{created, with_pool, is_apart, end_of_places, is_based, is_unused};
    ghost use Rattle.tlsf_heap.specs.GoodSlots.{is_slot, slot_times};
    ghost use Rattle.tlsf_heap.specs.PlainHeap.{link_block, blocks_among, blocks_from, blocks_in_front};

    /// The content of this many records, with no pool.
    pub fn create(alloc: Global, records: u16) -> Result<Self, AllocError>
        ensures { IfOk result (λ content. content ≡ created records) }
    {
        let mut lists = Vec::new(alloc);
        for _class in 0..CLASSES {
            lists.push(Vec::new(alloc))?;
        }
        Ok(Content {
            records,
            pools: Vec::new(alloc),
            lists,
        })
    }

    /// The content, copied.
    pub fn copy(&self) -> Result<Self, AllocError>
        ensures { IfOk result (λ content. content ≡ self.now) }
    {
        Ok(Content {
            records: self.records,
            pools: self.pools.clone()?,
            lists: self.lists.clone()?,
        })
    }

    /// How many records are in use: one a block.
    fn used_records(&self) -> usize
        requires { used_records self.now < 2 ^ 64 }
        ensures { result ≡ used_records self.now }
    {
        let mut count = 0;
        for pool in &self.pools {
            count += pool.blocks.len();
        }
        count
    }

    /// Whether each record is in use.
    pub fn is_full(&self) -> bool
        requires { used_records self.now < 2 ^ 64 }
        ensures { result ≡ nat_le self.now.records (used_records self.now) }
    {
        self.used_records() >= usize::from(self.records)
    }

    /// Whether there are more blocks than records.
    pub fn has_too_many(&self) -> bool
        requires { used_records self.now < 2 ^ 64 }
        ensures { result ≡ nat_lt self.now.records (used_records self.now) }
    {
        self.used_records() > usize::from(self.records)
    }

    /// The first block that begins at the place.
    pub fn block_at(&self, place: u32) -> Option<Block>
        ensures { result ≡ find (is_at place) (blocks_of self.now.pools) }
    {
        let mut blocks = self.pools.iter().flat_map(|pool| &pool.blocks).copied();
        blocks.find(|block| block.place == place)
    }

    /// The size in bytes of the first block at the place, 0 where there is none.
    pub fn size_at(&self, place: u32) -> u32
        ensures { result ≡ size_at place (blocks_of self.now.pools) }
    {
        self.block_at(place).map_or(0, |block| block.size)
    }

    /// Whether a live block has the place and the slot.
    pub fn is_live(&self, place: u32, slot: u16) -> bool
        ensures { result ≡ is_live (λ owner. owner == slot) place (blocks_of self.now.pools) }
    {
        let mut blocks = self.pools.iter().flat_map(|pool| &pool.blocks);
        blocks.any(|block| block.place == place && block.owner == Some(slot))
    }

    /// Whether a live block has the slot.
    fn has_slot(&self, slot: u16) -> bool
        ensures { result ≡ list_any (λ pool. list_any (λ block. is_slot slot block.owner) pool.blocks) self.now.pools }
    {
        self.pools.iter().any(|pool| pool.has_slot(slot))
    }

    /// The least slot that no live block has.
    pub fn least_slot(&self) -> u16
        requires free { 1 ≤ count_by is_free (blocks_of self.now.pools) }
        requires few { used_records self.now ≤ self.now.records }
        ensures below { result < self.now.records }
        ensures new { slot_times result (blocks_of self.now.pools) ≡ 0 }
    {
        for slot in 0..self.records {
            if !self.has_slot(slot) {
                return slot;
            }
        }
        unreachable!()
    }

    /// Whether the bytes from `base` on overlap no pool.
    pub fn is_apart(&self, base: u64, bytes: u64) -> bool
        requires { base + bytes ≤ end_of_places }
        ensures { result ≡ list_all (is_apart base bytes) self.now.pools }
    {
        self.pools.iter().all(|pool| {
            let first = u64::from(pool.base);
            base + bytes <= first || first + u64::from(pool.bytes) <= base
        })
    }

    /// The place of the block that is to hold `size` bytes.
    pub fn pick(&self, size: u32) -> Option<u32>
        requires whole { size % unit ≡ 0 }
        requires some { 0 < size }
        ensures { result ≡ pick size self.now.lists }
    {
        let number = class_for(size)?.number() as usize;
        first_of_lists(&self.lists[number..])
    }

    /// The free block before the one at the place.
    pub fn free_previous(&self, place: u32) -> Option<Block>
        ensures { result ≡ free_previous place self.now }
    {
        for pool in &self.pools {
            if let Some(block) = pool.previous_of(place) {
                return Some(block).filter(|block| block.owner.is_none());
            }
        }
        None
    }

    /// The free block after the one at the place.
    pub fn free_next(&self, place: u32) -> Option<Block>
        ensures { result ≡ free_next place self.now }
    {
        for pool in &self.pools {
            if let Some(block) = pool.next_of(place) {
                return Some(block).filter(|block| block.owner.is_none());
            }
        }
        None
    }

    /// A free block of `size` bytes enters its class's list in front.
    pub fn link(&mut self, place: u32, size: u32) -> Result<(), AllocError>
        requires { IsSize size }
        ensures { OnOk result (self.new ≡ record self.old { lists = link place size self.old.lists }) }
    {
        let number = class_of(size).number() as usize;
        self.lists[number].insert(0, place)?;
        Ok(())
    }

    /// A free block, where there is one, enters its class's list in front.
    pub fn link_gap(&mut self, block: &Option<Block>) -> Result<(), AllocError>
        ensures { OnOk result (self.new ≡ record self.old { lists = link_block block.now self.old.lists }) }
    {
        match block {
            Some(block) => self.link(block.place, block.size),
            None => Ok(()),
        }
    }

    /// A free block of `size` bytes leaves its class's list.
    pub fn unlink(&mut self, place: u32, size: u32)
        requires { IsSize size }
        ensures { self.new ≡ record self.old { lists = unlink place size self.old.lists } }
    {
        let number = class_of(size).number() as usize;
        self.lists[number].retain(|other| *other != place);
    }

    /// The block at the place gives way to the others.
    pub fn replace(&mut self, place: u32, others: &[Option<Block>]) -> Result<(), AllocError>
        ensures { OnOk result (self.new ≡ record self.old { pools = map (replaced_in place (blocks_among others.now)) self.old.pools }) }
    {
        let alloc = *self.pools.allocator();
        let others = blocks_among(alloc, others)?;
        let mut pools = Vec::new(alloc);
        for pool in &self.pools {
            pools.push(pool.replaced(place, others.as_slice())?)?;
        }
        self.pools = pools;
        Ok(())
    }

    /// A free block, where there is one, leaves its list and its pool.
    pub fn remove(&mut self, block: Option<Block>) -> Result<(), AllocError>
        ensures { OnOk result (self.new ≡ record self.old { pools = without_block block self.old.pools; lists = unlink_block block self.old.lists }) }
    {
        let Some(block) = block else {
            return Ok(());
        };
        self.unlink(block.place, block.size);
        self.replace(block.place, &[])
    }

    /// The number of the first pool that begins behind `base`.
    fn first_behind(&self, base: u32) -> Option<usize>
        ensures within { IfSome result (λ number. number ≤ length self.now.pools) }
        ensures number { result ≡ position (λ pool. nat_lt base pool.base) self.now.pools }
    {
        self.pools.iter().position(|pool| base < pool.base)
    }

    /// A pool of one free block stands among the others, and the block in front of its list.
    pub fn add_pool(&mut self, base: u32, bytes: u32) -> Result<(), AllocError>
        requires { IsSize bytes }
        ensures { OnOk result (self.new ≡ with_pool base bytes self.old) }
    {
        let pool = Pool::new(*self.pools.allocator(), base, bytes)?;
        let place = self.first_behind(base).unwrap_or(self.pools.len());
        self.pools.insert(place, pool)?;
        self.link(base, bytes)
    }

    /// The bytes of the first pool that begins at `base`, and whether it is one free block.
    pub fn pool_at(&self, base: u64) -> Option<(u32, bool)>
        ensures { result ≡ option_map (λ pool. (pool.bytes, is_unused pool)) (find (is_based base) self.now.pools) }
    {
        let pool = self.pools.iter().find(|pool| pool.is_based(base))?;
        Some((pool.bytes, pool.is_unused()))
    }

    /// The pools that begin at the place `base` are gone, and the block of `bytes` bytes there from its list.
    pub fn remove_pool(&mut self, base: u32, bytes: u32)
        requires { IsSize bytes }
        ensures { self.new ≡ record self.old { pools = filter (λ pool. not (is_based base pool)) self.old.pools; lists = unlink base bytes self.old.lists } }
    {
        self.unlink(base, bytes);
        self.pools.retain(|pool| !pool.is_based(u64::from(base)));
    }

    /// The blocks of a pool from one on, which has this many in front of it, in all pools.
    pub fn blocks_from(&self, number: u32) -> &[Block]
        ensures { result.now ≡ blocks_from number self.now.pools }
    {
        let mut left = number as usize;
        for pool in &self.pools {
            if left < pool.blocks.len() {
                return &pool.blocks[left..];
            }
            left -= pool.blocks.len();
        }
        &[]
    }

    /// How many blocks stand in front of those of the first pool that begins at `base`.
    pub fn blocks_in_front(&self, base: u64) -> Option<u32>
        requires { used_records self.now < 2 ^ 32 }
        ensures { result ≡ blocks_in_front base self.now.pools }
    {
        let mut number = 0;
        for pool in &self.pools {
            if u64::from(pool.base) == base {
                return Some(number);
            }
            number += pool.blocks.len() as u32;
        }
        None
    }
}

ghost use Rattle.std.specs.Prelude.{◌≡◌, IfOk};
ghost use Rattle.tlsf_heap.specs.Lists.{first_of_lists};
ghost use Rattle.tlsf_heap.specs.PlainHeap.{lists_of, blocks_among};

/// The blocks that there are.
fn blocks_among(alloc: Global, blocks: &[Option<Block>]) -> Result<Vec<Block>, AllocError>
    ensures { IfOk result (λ v. v.items ≡ blocks_among blocks.now) }
{
    blocks.iter().filter_map(|block| *block).collect(alloc)
}

/// The first place of the first list that isn't empty.
fn first_of_lists(lists: &[Vec<u32>]) -> Option<u32>
    ensures { result ≡ first_of_lists (lists_of lists.now) }
{
    for places in lists {
        if let Some(place) = places.first() {
            return Some(*place);
        }
    }
    None
}
