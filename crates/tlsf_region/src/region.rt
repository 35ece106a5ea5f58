//! The region.

use crate::RegionError;
use arrayvec::ArrayVec;
use std::alloc::Global;
use std::marker::Model;
use tlsf_heap::{Cursor, END_OF_PLACES, Heap, MOST_POOLS, MOST_RECORDS, Ptr, Refusal, Row};

/// Bytes with a heap over them. Places of blocks are places of these bytes, and a live block's bytes are
/// lent by its pointer.
///
/// After a refusal the heap's content and the bytes are as they were. Only writes through a lent slice
/// and a `realloc` that moves the block change any byte. No call after `create` takes memory.
#[derive(Drop)]
pub struct Region {
    heap: Heap,
    bytes: Vec<u8>,
}

impl Model for Region {
    ghost use Rattle.std.specs.Prelude.{◌≡◌, length, vec_capacity};
    ghost use Rattle.tlsf_region.specs.Region.{CountedRegion, IsWithin};

    ghost Value = { CountedRegion };

    ghost view = { λ r. record {
      content = r.heap.content;
      touches = r.heap.touches;
      rows = r.heap.rows;
      bytes = r.bytes.items;
    } };

    // The memory of the bytes has room for exactly these: a region keeps no spare memory.
    ghost invariant = { λ r. IsWithin r.heap.content r.bytes.items × (vec_capacity r.bytes ≡ length r.bytes.items) };
}

impl Region {
    ghost use Rattle.std.specs.Prelude.{◌≡◌, ℕ, true, false, ◌+◌, ◌%◌, ◌<◌, ◌≤◌, ◌==◌, ◌⊎◌, ◌↔◌, map, replicate, length, Ok, Err, Some, IfOk, IfErr, IfSome, IfNone, IsOk, OnOk, OnErr};
    ghost use Rattle.tlsf_heap.specs.Pools.{created, most_records, end_of_places, remove_pool};
    ghost use Rattle.tlsf_heap.specs.Content.{blocks_of, size_at};
    ghost use Rattle.tlsf_heap.specs.GoodSlots.{HasGoodSlots};
    ghost use Rattle.tlsf_heap.specs.Served.{IsServed, IsMoved, Refuses};
    ghost use Rattle.tlsf_heap.specs.Readings.{FindsRows, GivesRow, TouchesForRow};
    ghost use Rattle.tlsf_heap.specs.Malloc.{malloc};
    ghost use Rattle.tlsf_heap.specs.Free.{is_live};
    ghost use Rattle.tlsf_heap.specs.Good.{IsGood};
    ghost use Rattle.tlsf_heap.specs.Pointer.{Pointer, free_ptr, realloc_ptr, block_size_ptr};
    ghost use Rattle.tlsf_heap.specs.Rows.{rows_from};
    ghost use Rattle.tlsf_heap.specs.Cursors.{rows_behind, is_at_row};
    ghost use Rattle.tlsf_heap.specs.Counted.{range_of};
    ghost use Rattle.tlsf_heap.specs.Implied.{NoneFits, NoneFitsAligned, HasFewRecords, HasFewRecordsAndOne, IsLaidOut};
    ghost use Rattle.tlsf_heap.specs.Room.{HasRoom, HasRoomAligned};
    ghost use Rattle.tlsf_heap.specs.Memalign.{memalign};
    ghost use Rattle.tlsf_heap.specs.Walk.{IsWalk, walk_touches};
    ghost use Rattle.tlsf_heap.specs.declared.refusal.Refusal.TheVariants.{NoFit, TableFull, BadPointer, BadAlign};
    ghost use Rattle.tlsf_heap.specs.Touches.{AtMost, add_pool_touches, remove_pool_touches, malloc_touches, memalign_touches, free_touches, realloc_touches, block_size_touches};
    ghost use Rattle.tlsf_region.specs.Region.{IsWithin, IsUnchanged, IsAsBefore, KeepsBytes, Reads, add_pool_within};
    ghost use Rattle.tlsf_region.specs.Bytes.{IsSizeOf, block_bytes, live_bytes, bytes_after_realloc};
    ghost use Rattle.tlsf_region.specs.Lends.{ends_read, lends_from, lends_block};
    ghost use Rattle.std.specs.Borrow.{sem};
    ghost use Rattle.std.specs.Option.{option_map};
    ghost use Rattle.tlsf_region.specs.declared.region_error.RegionError.TheVariants.{BadCount, BadLength};

    /// A region of `len` bytes, at most 2^32, all 0, with a heap of this many records, from 1 to 65,535, and
    /// no pool. It takes memory twice, for the heap's table and for the bytes.
    ///
    /// # Errors
    ///
    /// `BadCount` where the number of records isn't from 1 to 65,535; `BadLength` where `len` is above
    /// 2^32; `OutOfMemory` where memory is refused.
    pub fn create(alloc: Global, len: u64, records: u32) -> Result<Region, RegionError>
        ensures made { IfOk result (λ region. region.content ≡ created records) }
        ensures zeros { IfOk result (λ region. region.bytes ≡ replicate len 0) }
        ensures untouched { IfOk result (λ region. region.touches ≡ 0) }
        ensures bad_count { (result ≡ Err BadCount) ↔ ((records ≡ 0) ⊎ (most_records < records)) }
        ensures bad_length { (result ≡ Err BadLength) ↔ ((0 < records) × (records ≤ most_records) × (end_of_places < len)) }
    {
        if records == 0 || records > MOST_RECORDS {
            return Err(RegionError::BadCount);
        }
        if len > END_OF_PLACES {
            return Err(RegionError::BadLength);
        }
        let Ok(heap) = Heap::create(alloc, records) else {
            return Err(RegionError::OutOfMemory);
        };
        let Ok(mut bytes) = Vec::with_capacity(alloc, len as usize) else {
            return Err(RegionError::OutOfMemory);
        };
        for _done in 0..len {
            bytes.push_reserved(0);
        }
        Ok(Region { heap, bytes })
    }

    /// A pool of `bytes` bytes from the place `base` on, as one free block. At most 25 touches.
    ///
    /// # Errors
    ///
    /// `BadPool` where `base` or `bytes` isn't a multiple of the unit, or `bytes` isn't from the unit to the greatest
    /// size. `BadPool` too where the end is above the region's bytes, or the pool overlaps another; `PoolsFull` where
    /// there are as many pools as there can be; `TableFull` where each record is in use: there are at most two
    /// records a live block and one a pool then.
    pub fn add_pool(&mut self, base: u64, bytes: u64) -> Result<(), Refusal>
        ensures ok { OnOk result (add_pool_within (length self.old.bytes) base bytes self.old.content ≡ Ok self.new.content) }
        ensures refused { Refuses result (λ refusal. add_pool_within (length self.old.bytes) base bytes self.old.content ≡ Err refusal) (IsUnchanged self.old self.new) }
        ensures table_full { result ≡ Err TableFull → HasFewRecords self.old.content }
        ensures kept { KeepsBytes add_pool_touches self.old self.new }
    {
        let len = self.bytes.len() as u64;
        if base > len || bytes > len - base {
            return Err(Refusal::BadPool);
        }
        self.heap.add_pool(base, bytes)
    }

    /// The pool that begins at the place `base` is gone; its bytes stay as they are. At most 26 touches.
    ///
    /// # Errors
    ///
    /// `NoPool` where no pool begins there; `PoolInUse` unless the pool is one free block.
    pub fn remove_pool(&mut self, base: u64) -> Result<(), Refusal>
        ensures ok { OnOk result (remove_pool base self.old.content ≡ Ok self.new.content) }
        ensures refused { Refuses result (λ refusal. remove_pool base self.old.content ≡ Err refusal) (IsUnchanged self.old self.new) }
        ensures kept { KeepsBytes remove_pool_touches self.old self.new }
    {
        self.heap.remove_pool(base)
    }

    /// A live block of at least `n` bytes, as `Heap::malloc` gives it. Its bytes are those that were there.
    /// At most 21 touches.
    ///
    /// # Errors
    ///
    /// `ZeroSize` for 0; `NoFit` where no list that may be searched has a block, or `n` is above the greatest size;
    /// `TableFull` where a rest would be left and each record is in use. It is served where there is room (`HasRoom`).
    pub fn malloc(&mut self, n: u64) -> Result<Ptr, Refusal>
        ensures ok { IfOk result (λ ptr. IsServed (λ slot. malloc slot n) ptr self.old.content self.new.content) }
        ensures refused { Refuses result (λ refusal. (slot : ℕ) → malloc slot n self.old.content ≡ Err refusal) (IsUnchanged self.old self.new) }
        ensures no_fit { result ≡ Err NoFit → NoneFits n self.old.content }
        ensures table_full { result ≡ Err TableFull → HasFewRecords self.old.content }
        ensures room { HasRoom n self.old.content → IsOk result }
        ensures kept { KeepsBytes malloc_touches self.old self.new }
    {
        self.heap.malloc(n)
    }

    /// A live block of at least `n` bytes that begins at a multiple of `align`, as `Heap::memalign` gives it. Its
    /// bytes are those that were there. At most 35 touches.
    ///
    /// # Errors
    ///
    /// `BadAlign` where `align` isn't a power of two from 1 to 2^29; `ZeroSize` for 0 bytes; `NoFit` where no list
    /// that may be searched has a block, or `n` is above the greatest size; `TableFull` where the blocks in front and
    /// behind need more records than are left.
    pub fn memalign(&mut self, align: u64, n: u64) -> Result<Ptr, Refusal>
        ensures ok { IfOk result (λ ptr. IsServed (λ slot. memalign slot align n) ptr self.old.content self.new.content) }
        ensures multiple { IfOk result (λ ptr. ptr.place % align ≡ 0) }
        ensures refused { Refuses result (λ refusal. (slot : ℕ) → memalign slot align n self.old.content ≡ Err refusal) (IsUnchanged self.old self.new) }
        ensures no_fit { result ≡ Err NoFit → NoneFitsAligned align n self.old.content }
        ensures table_full { result ≡ Err TableFull → HasFewRecordsAndOne self.old.content }
        ensures room { HasRoomAligned align n self.old.content → IfErr result (λ refusal. refusal ≡ BadAlign) }
        ensures kept { KeepsBytes memalign_touches self.old self.new }
    {
        self.heap.memalign(align, n)
    }

    /// The block becomes free, as `Heap::free` makes it. At most 30 touches.
    ///
    /// # Errors
    ///
    /// `BadPointer` unless a live block has both the pointer's place and its slot.
    pub fn free(&mut self, ptr: Ptr) -> Result<(), Refusal>
        ensures ok { OnOk result (free_ptr ptr self.old.content ≡ Ok self.new.content) }
        ensures refused { Refuses result (λ refusal. free_ptr ptr self.old.content ≡ Err refusal) (IsUnchanged self.old self.new) }
        ensures kept { KeepsBytes free_touches self.old self.new }
    {
        self.heap.free(ptr)
    }

    /// The block with room for `n` bytes, as `Heap::realloc` gives it. A block that moves takes its bytes
    /// along: they are the start of the new block then. Else no byte changes. At most 55 touches.
    ///
    /// # Errors
    ///
    /// `BadPointer` unless a live block has both the pointer's place and its slot. The errors of `malloc` without a
    /// pointer, or where the block has to move: then the old block is as it was.
    pub fn realloc(&mut self, ptr: Option<Ptr>, n: u64) -> Result<Option<Ptr>, Refusal>
        ensures ok { IfOk result (λ given. IsMoved (realloc_ptr ptr n) ptr given self.old.content self.new.content) }
        ensures refused { Refuses result (λ refusal. (slot : ℕ) → realloc_ptr ptr n slot self.old.content ≡ Err refusal) (IsAsBefore self.old self.new) }
        ensures table_full { result ≡ Err TableFull → HasFewRecords self.old.content }
        ensures room { HasRoom n self.old.content → IfErr result (λ refusal. refusal ≡ BadPointer) }
        ensures bytes { IfOk result (λ given. self.new.bytes ≡ bytes_after_realloc ptr given self.old.content self.old.bytes) }
        ensures bound { AtMost (realloc_touches + block_size_touches) self.old.touches self.new.touches }
    {
        let Some(old) = ptr else {
            return self.heap.realloc(None, n);
        };
        let Some(size) = self.live_size(old) else {
            return Err(Refusal::BadPointer);
        };
        let Some(new) = self.heap.realloc(ptr, n)? else {
            return Ok(None);
        };
        if new.place() == old.place() {
            return Ok(Some(new));
        }
        let start = old.place() as usize;
        self.bytes
            .copy_within(start..start + size as usize, new.place() as usize);
        Ok(Some(new))
    }

    /// The size of a live block, in bytes. At most one touch.
    ///
    /// # Errors
    ///
    /// `BadPointer` unless a live block has both the pointer's place and its slot.
    pub fn block_size(&mut self, ptr: Ptr) -> Result<u32, Refusal>
        ensures ok { IfOk result (λ bytes. block_size_ptr ptr self.old.content ≡ Ok bytes) }
        ensures refused { IfErr result (λ refusal. block_size_ptr ptr self.old.content ≡ Err refusal) }
        ensures read { Reads block_size_touches self.old self.new }
    {
        self.heap.block_size(ptr)
    }

    /// The size of the live block that the pointer names, which ends within the bytes; none where it names
    /// no live block. At most one touch.
    fn live_size(&mut self, ptr: Ptr) -> Option<u32>
        ensures some { IfSome result (λ size. IsSizeOf ptr size self.old.content self.old.bytes) }
        ensures none { IfNone result (is_live (λ slot. slot == ptr.slot) ptr.place (blocks_of self.old.content.pools) ≡ false) }
        ensures good { IsGood self.old.content }
        ensures read { Reads 1 self.old self.new }
    {
        self.heap.keeps_good();
        self.heap.block_size(ptr).ok()
    }

    /// How many bytes the pointer's block has, and 0 where it names no live block: no block is empty. At
    /// most one touch.
    fn lent_len(&mut self, ptr: Ptr) -> u32
        ensures some { 0 < result → IsSizeOf ptr result self.old.content self.old.bytes }
        ensures none { result ≡ 0 → is_live (λ slot. slot == ptr.slot) ptr.place (blocks_of self.old.content.pools) ≡ false }
        ensures read { Reads 1 self.old self.new }
    {
        self.live_size(ptr).unwrap_or(0)
    }

    /// Lends the `len` bytes from the pointer's place on.
    fn lend(&mut self, ptr: Ptr, len: u32) -> &mut [u8]
        requires { ptr.place + len ≤ length self.old.bytes }
        ensures* writes_back { sem 𝓛 (lends_from self.entry ptr.place result) }
        ensures lent { result.now ≡ block_bytes ptr.place len self.old.bytes }
    {
        let start = ptr.place() as usize;
        self.bytes.slice_mut(start..start + len as usize)
    }

    /// The bytes of a live block, as many as its size, to read; none where the pointer names no live block.
    /// At most one touch.
    pub fn bytes(&mut self, ptr: Ptr) -> Option<&[u8]>
        ensures lent { option_map (λ block. block.now) result ≡ live_bytes ptr self.old.content self.old.bytes }
        ensures* after { sem 𝓛 (ends_read self.entry) }
    {
        let size = self.live_size(ptr)?;
        let start = ptr.place() as usize;
        Some(&self.bytes[start..start + size as usize])
    }

    /// The bytes of a live block, as many as its size, to write; none where the pointer names no live block.
    /// What is written through them changes these bytes alone. At most one touch.
    pub fn bytes_mut(&mut self, ptr: Ptr) -> Option<&mut [u8]>
        ensures* writes_back { sem 𝓛 (lends_block self.entry ptr result) }
        ensures lent { option_map (λ block. block.now) result ≡ live_bytes ptr self.old.content self.old.bytes }
    {
        let len = self.lent_len(ptr);
        if len == 0 {
            return None;
        }
        Some(self.lend(ptr, len))
    }

    /// Where each pool begins and how many bytes it has, in order of base. At most eight touches.
    pub fn pools(&mut self) -> ArrayVec<(u64, u64), MOST_POOLS>
        ensures value { result.items ≡ map range_of self.old.content.pools }
        ensures read { Reads 8 self.old self.new }
    {
        self.heap.pools()
    }

    /// The cursor at the first row of the pool that begins at the place `base`. At most four touches.
    ///
    /// # Errors
    ///
    /// `NoPool` where no pool begins there.
    pub fn first(&mut self, base: u64) -> Result<Cursor, Refusal>
        ensures found { FindsRows result (rows_from base self.old.content.pools) (rows_behind self.new.rows) (is_at_row self.new.rows) }
        ensures read { Reads 4 self.old self.new }
    {
        self.heap.first(base)
    }

    /// The row at the cursor, and the cursor behind it; none behind the last row of the pool. One
    /// touch, and none where there is no row.
    pub fn row(&mut self, cursor: Cursor) -> Option<(Row, Cursor)>
        requires { is_at_row self.old.rows cursor }
        ensures given { GivesRow result (rows_behind self.old.rows cursor) (rows_behind self.new.rows) (is_at_row self.new.rows) }
        ensures same { IsAsBefore self.old self.new }
        ensures touched { TouchesForRow 1 result self.old.touches self.new.touches }
    {
        self.heap.row(cursor)
    }

    /// Calls the `visit` that is lent at each row of the pool that begins at the place `base`, once and in order. It
    /// is called at no other time, as by `Heap::walk_with`. At most four touches, and one more for each row.
    ///
    /// # Errors
    ///
    /// `NoPool` where no pool begins there: `visit` isn't called then, and is left as it was.
    pub fn walk_with<F: FnMut(Row)>(&mut self, base: u64, visit: &mut F) -> Result<(), Refusal>
        requires { F.IsAlwaysCallable visit.old }
        ensures ok { OnOk result (IsWalk (λ p x q. F.step p x tt q) base self.old.content.pools visit.old visit.new) }
        ensures refused { IfErr result (λ refusal. rows_from base self.old.content.pools ≡ Err refusal) }
        ensures unvisited { OnErr result (visit.new ≡ visit.old) }
        ensures read { Reads (walk_touches (rows_from base self.old.content.pools)) self.old self.new }
    {
        self.heap.walk_with(base, visit)
    }

    /// `walk_with` of a `visit` that is given away. It is called at each row of the pool that begins at the place
    /// `base`, once and in order. At most four touches, and one more for each row.
    ///
    /// # Errors
    ///
    /// `NoPool` where no pool begins there: `visit` isn't called then.
    pub fn walk<F: FnMut(Row)>(&mut self, base: u64, mut visit: F) -> Result<(), Refusal>
        requires { F.IsAlwaysCallable visit }
        ensures ok { OnOk result ((last : F) × IsWalk (λ p x q. F.step p x tt q) base self.old.content.pools visit last) }
        ensures refused { IfErr result (λ refusal. rows_from base self.old.content.pools ≡ Err refusal) }
        ensures read { Reads (walk_touches (rows_from base self.old.content.pools)) self.old self.new }
    {
        self.walk_with(base, &mut visit)
    }

    /// Whether the heap's table of records is that of a heap, as `Heap::check` finds it: it always is, and the
    /// answer is `true`. There are more touches than records.
    pub fn check(&mut self) -> bool
        ensures whole { result ≡ true }
        ensures same { IsAsBefore self.old self.new }
        ensures each_read { self.old.touches + self.old.content.records < self.new.touches }
    {
        self.heap.check()
    }

    /// Says what every region keeps, and does nothing. It keeps what every heap does. No pool ends above the bytes,
    /// which are at most 2^32. A live block has as many bytes as its size.
    pub fn keeps_good(&self)
        ensures good { IsGood self.now.content }
        ensures slots { HasGoodSlots self.now.content }
        ensures laid_out { IsLaidOut self.now.content }
        ensures within { IsWithin self.now.content self.now.bytes }
        ensures as_many { (ptr : Pointer) → IfSome (live_bytes ptr self.now.content self.now.bytes) (λ block. length block ≡ size_at ptr.place (blocks_of self.now.content.pools)) }
    {
        self.heap.keeps_good();
    }
}
