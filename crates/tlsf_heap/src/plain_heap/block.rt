use crate::Row;
use std::marker::Model;

/// A block of a pool: where it begins, its size in bytes, and the slot of its owner, where it is live.
#[derive(Clone, Copy)]
pub struct Block {
    pub place: u32,
    pub size: u32,
    pub owner: Option<u16>,
}

impl Model for Block {
    ghost use Rattle.std.specs.Prelude.{ℕ};
    ghost use Rattle.tlsf_heap.specs.Content.{Block, IsSize};

    ghost Value = { Block ℕ };

    ghost view = { λ b. record { place = b.place; size = b.size; owner = b.owner } };

    ghost inverse = { λ b. record { place = b.place; size = b.size; owner = b.owner } };

    ghost invariant = { λ b. IsSize b.size };
}

impl Block {
    ghost use Rattle.std.specs.Prelude.{◌≡◌, ◌<◌, ◌^◌};
    ghost use Rattle.tlsf_heap.specs.Free.{free_block, start_of, size_of};
    ghost use Rattle.tlsf_heap.specs.Content.{IsSize};
    ghost use Rattle.tlsf_heap.specs.PlainHeap.{gap_block};
    ghost use Rattle.tlsf_heap.specs.Rows.{row_of};

    /// A free block of `size` bytes at a place.
    pub fn free(place: u32, size: u32) -> Self
        requires { IsSize size }
        ensures { result ≡ free_block place size }
    {
        Block {
            place,
            size,
            owner: None,
        }
    }

    /// The same, or none where there is no byte.
    pub fn gap(place: u64, size: u32) -> Option<Self>
        requires size { 0 < size → IsSize size }
        requires place { 0 < size → place < 2 ^ 32 }
        ensures { result ≡ gap_block place size }
    {
        if size == 0 {
            return None;
        }
        Some(Block::free(place as u32, size))
    }

    /// Where the block begins that is merged with this neighbour before the place, if there is one.
    pub fn start_of(block: &Option<Block>, place: u32) -> u32
        ensures { result ≡ start_of block.now place }
    {
        block.map_or(place, |block| block.place)
    }

    /// The size of a block, 0 where there is none.
    pub fn size_of(block: &Option<Block>) -> u32
        ensures { result ≡ size_of block.now }
    {
        block.map_or(0, |block| block.size)
    }

    /// The block as a reading gives it.
    pub fn row(&self) -> Row
        ensures { result ≡ row_of self.now }
    {
        Row {
            place: self.place,
            size: self.size,
            used: self.owner.is_some(),
        }
    }
}
