//! What every heap does.

ghost use Rattle.std.specs.Prelude.{◌≡◌, ℕ, ◌<◌, ◌⊎◌, ◌↔◌, List, map, Ok, Err, IfOk, IfErr, IsOk, OnOk};
ghost use Rattle.tlsf_store.specs.declared.errors.StoreError.TheVariants.{BadCount};
ghost use Rattle.tlsf_store.specs.Records.{most_records};
ghost use Rattle.tlsf_heap.specs.declared.cursor.Cursor.{Cursor};
ghost use Rattle.tlsf_heap.specs.declared.row.Row.{Row};
ghost use Rattle.tlsf_heap.specs.Content.{Content};
ghost use Rattle.tlsf_heap.specs.Pools.{created, add_pool, remove_pool};
ghost use Rattle.tlsf_heap.specs.Malloc.{malloc};
ghost use Rattle.tlsf_heap.specs.Memalign.{memalign};
ghost use Rattle.tlsf_heap.specs.Pointer.{free_ptr, realloc_ptr, block_size_ptr};
ghost use Rattle.tlsf_heap.specs.Served.{IsServed, IsMoved, Refuses, RefusesOrLacks};
ghost use Rattle.tlsf_heap.specs.Readings.{FindsRows, GivesRow, TouchesForRow};
ghost use Rattle.tlsf_heap.specs.Good.{IsGood};
ghost use Rattle.tlsf_heap.specs.GoodSlots.{HasGoodSlots};
ghost use Rattle.tlsf_heap.specs.Counted.{range_of};
ghost use Rattle.tlsf_heap.specs.Touches.{AtMost};
ghost use Rattle.tlsf_heap.specs.Heaped.{LooksUnchanged, Reads};
ghost use Rattle.tlsf_heap.specs.Rows.{rows_from};
ghost use Rattle.tlsf_heap.specs.Room.{HasRoom, HasRoomAligned};
ghost use Rattle.tlsf_heap.specs.declared.refusal.Refusal.TheVariants.{BadAlign, BadPointer};

use crate::{Cursor, Ptr, Refusal, Row};
use arrayvec::ArrayVec;
use std::alloc::Global;
use tlsf_store::{MOST_POOLS, StoreError};

/// A heap of pools of blocks. Each call is a step on its content; a refused call leaves the content as
/// it was. A refusal and a reading leave each cursor where it stands.
///
/// A heap of a type that may lack memory may answer `OutOfMemory` to each call that changes it, in place of any
/// answer. Contracts alone see whether the type may, the heap's content, and how often it has touched its table of
/// records.
pub trait Heaped: Drop {
    // The pools, their blocks and the free lists.
    ghost content: { Self → Content ℕ };

    // How often the table of records was touched.
    ghost touches: { Self → ℕ };

    // Whether heaps of this type may lack memory.
    ghost lacks: { Type 0 };

    // Whether a cursor stands at a row of this content, or behind the last of a pool.
    ghost stands: { Self → Cursor → Type 0 };

    // The rows from a cursor on.
    ghost rest: { Self → Cursor → List Row };

    /// A heap of this many records, from 1 to 65,535, with no pool.
    ///
    /// # Errors
    ///
    /// `BadCount` where the number isn't from 1 to 65,535; `OutOfMemory` where memory is refused.
    fn create(alloc: Global, records: u32) -> Result<Self, StoreError>
        ensures made { IfOk result (λ heap. content heap ≡ created records) }
        ensures untouched { IfOk result (λ heap. touches heap ≡ 0) }
        ensures bad_count { (result ≡ Err BadCount) ↔ ((records ≡ 0) ⊎ (most_records < records)) };

    /// A pool of `bytes` bytes from the place `base` on, as one free block. At most 64 touches.
    ///
    /// # Errors
    ///
    /// `BadPool` where `base` or `bytes` isn't a multiple of the unit, or `bytes` isn't from the unit to the
    /// greatest size. `BadPool` too where the end is above 2^32, or the pool overlaps another; `PoolsFull` where
    /// there are as many pools as there can be; `TableFull` where each record is in use; `OutOfMemory` where
    /// memory is refused, which it may lack.
    fn add_pool(&mut self, base: u64, bytes: u64) -> Result<(), Refusal>
        ensures ok { OnOk result (add_pool base bytes (content self.old) ≡ Ok (content self.new)) }
        ensures refused { RefusesOrLacks result (λ refusal. add_pool base bytes (content self.old) ≡ Err refusal) lacks (LooksUnchanged content stands rest self.old self.new) }
        ensures bound { AtMost 64 (touches self.old) (touches self.new) };

    /// The pool that begins at the place `base` is gone. At most 64 touches.
    ///
    /// # Errors
    ///
    /// `NoPool` where no pool begins there; `PoolInUse` unless the pool is one free block; `OutOfMemory` where
    /// memory is refused, which it may lack.
    fn remove_pool(&mut self, base: u64) -> Result<(), Refusal>
        ensures ok { OnOk result (remove_pool base (content self.old) ≡ Ok (content self.new)) }
        ensures refused { RefusesOrLacks result (λ refusal. remove_pool base (content self.old) ≡ Err refusal) lacks (LooksUnchanged content stands rest self.old self.new) }
        ensures bound { AtMost 64 (touches self.old) (touches self.new) };

    /// A live block of at least `n` bytes, with a slot that no other live block has. At most 96 touches.
    ///
    /// # Errors
    ///
    /// `ZeroSize` where `n` is 0; `NoFit` where no list that may be searched has a block, or `n` is above
    /// the greatest size; `TableFull` where a rest would be left and each record is in use; `OutOfMemory`
    /// where memory is refused, which it may lack.
    fn malloc(&mut self, n: u64) -> Result<Ptr, Refusal>
        ensures ok { IfOk result (λ ptr. IsServed (λ slot. malloc slot n) ptr (content self.old) (content self.new)) }
        ensures refused { RefusesOrLacks result (λ refusal. (slot : ℕ) → malloc slot n (content self.old) ≡ Err refusal) lacks (LooksUnchanged content stands rest self.old self.new) }
        ensures room { (lacks → ⊥) → HasRoom n (content self.old) → IsOk result }
        ensures bound { AtMost 96 (touches self.old) (touches self.new) };

    /// A live block of at least `n` bytes that begins at a multiple of `align`, with a slot that no other live
    /// block has. At most 160 touches.
    ///
    /// # Errors
    ///
    /// `BadAlign` where `align` isn't a power of two from 1 to 2^29; `ZeroSize` where `n` is 0; `NoFit` where no
    /// list that may be searched has a block, or `n` is above the greatest size; `TableFull` where the blocks in
    /// front and behind need more records than are left; `OutOfMemory` where memory is refused, which it may
    /// lack.
    fn memalign(&mut self, align: u64, n: u64) -> Result<Ptr, Refusal>
        ensures ok { IfOk result (λ ptr. IsServed (λ slot. memalign slot align n) ptr (content self.old) (content self.new)) }
        ensures refused { RefusesOrLacks result (λ refusal. (slot : ℕ) → memalign slot align n (content self.old) ≡ Err refusal) lacks (LooksUnchanged content stands rest self.old self.new) }
        ensures room { (lacks → ⊥) → HasRoomAligned align n (content self.old) → IfErr result (λ refusal. refusal ≡ BadAlign) }
        ensures bound { AtMost 160 (touches self.old) (touches self.new) };

    /// The live block with the pointer's place and slot becomes free, and is merged with its free
    /// neighbours. At most 96 touches.
    ///
    /// # Errors
    ///
    /// `BadPointer` where no live block has both; `OutOfMemory` where memory is refused, which it
    /// may lack.
    fn free(&mut self, ptr: Ptr) -> Result<(), Refusal>
        ensures ok { OnOk result (free_ptr ptr (content self.old) ≡ Ok (content self.new)) }
        ensures refused { RefusesOrLacks result (λ refusal. free_ptr ptr (content self.old) ≡ Err refusal) lacks (LooksUnchanged content stands rest self.old self.new) }
        ensures bound { AtMost 96 (touches self.old) (touches self.new) };

    /// The block with room for `n` bytes, in its place where it can have them, else under a new pointer. For 0
    /// bytes the block is freed, and the answer is `None`. Without a pointer it is `malloc`. At most 256
    /// touches.
    ///
    /// # Errors
    ///
    /// `BadPointer` where no live block has both the pointer's place and its slot; as `malloc` without a
    /// pointer, or where the block has to move; `OutOfMemory` where memory is refused, which it may lack.
    fn realloc(&mut self, ptr: Option<Ptr>, n: u64) -> Result<Option<Ptr>, Refusal>
        ensures ok { IfOk result (λ given. IsMoved (realloc_ptr ptr n) ptr given (content self.old) (content self.new)) }
        ensures refused { RefusesOrLacks result (λ refusal. (slot : ℕ) → realloc_ptr ptr n slot (content self.old) ≡ Err refusal) lacks (LooksUnchanged content stands rest self.old self.new) }
        ensures room { (lacks → ⊥) → HasRoom n (content self.old) → IfErr result (λ refusal. refusal ≡ BadPointer) }
        ensures bound { AtMost 256 (touches self.old) (touches self.new) };

    /// The size of a live block, in bytes. At most four touches.
    ///
    /// # Errors
    ///
    /// `BadPointer` where no live block has both the pointer's place and its slot.
    fn block_size(&mut self, ptr: Ptr) -> Result<u32, Refusal>
        ensures ok { IfOk result (λ bytes. block_size_ptr ptr (content self.old) ≡ Ok bytes) }
        ensures refused { Refuses result (λ refusal. block_size_ptr ptr (content self.old) ≡ Err refusal) (LooksUnchanged content stands rest self.old self.new) }
        ensures read { Reads content stands rest touches 4 self.old self.new };

    /// Where each pool begins and how many bytes it has, in order of base. At most eight touches.
    fn pools(&mut self) -> ArrayVec<(u64, u64), MOST_POOLS>
        ensures value { result.items ≡ map range_of (content self.old).pools }
        ensures read { Reads content stands rest touches 8 self.old self.new };

    /// The cursor at the first row of the pool that begins at the place `base`. At most four touches.
    ///
    /// # Errors
    ///
    /// `NoPool` where no pool begins there.
    fn first(&mut self, base: u64) -> Result<Cursor, Refusal>
        ensures found { FindsRows result (rows_from base (content self.old).pools) (rest self.new) (stands self.new) }
        ensures read { Reads content stands rest touches 4 self.old self.new };

    /// The row at the cursor, and the cursor behind it; none behind the last row of the pool. At most
    /// four touches, and none where there is no row.
    fn row(&mut self, cursor: Cursor) -> Option<(Row, Cursor)>
        requires { stands self.old cursor }
        ensures given { GivesRow result (rest self.old cursor) (rest self.new) (stands self.new) }
        ensures unchanged { LooksUnchanged content stands rest self.old self.new }
        ensures touched { TouchesForRow 4 result (touches self.old) (touches self.new) };

    /// Says what every heap keeps, and does nothing. Its pools are covered by their blocks end to end, and
    /// no two free ones stand side by side. The list of a class has the places of the free blocks of that
    /// class, each once, and no others. There are at most as many blocks as records. Live blocks have
    /// slots of their own, each below the number of records.
    fn keeps_good(&self)
        ensures good { IsGood (content self.now) }
        ensures slots { HasGoodSlots (content self.now) };
}
