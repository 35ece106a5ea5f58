//! The heap.

use crate::add_pool::add_pool;
use crate::entries::entries;
use crate::free::{free, free_sized, has_block};
use crate::image::{Image, is_whole, put_image};
use crate::load::stored;
use crate::malloc::{malloc, malloc_or_own};
use crate::memalign::memalign;
use crate::readings::{block_size, first, largest_request, records_used, row};
use crate::realloc::realloc;
use crate::remove_pool::remove_pool;
use crate::walk::walk;
use crate::{Cursor, Heaped, ImageFault, Ptr, Refusal, Row};
use arrayvec::ArrayVec;
use mtrace_log::{Failed, Sink};
use std::alloc::Global;
use std::marker::Model;
use tlsf_store::{GhostCount, MOST_POOLS, Store, StoreError};

/// A heap over a table of records: pools of blocks, and a free list for each size class, found by
/// bitmaps.
///
/// After a refusal its content is as it was. A refusal and a reading leave each cursor where it stands.
/// No call after `create` takes memory.
#[derive(Drop)]
pub struct Heap {
    store: Store,
}

impl Model for Heap {
    ghost use Rattle.tlsf_heap.specs.Inner.Following.{Stands};
    ghost use Rattle.tlsf_heap.specs.Counted.{Counted, counted};

    ghost Value = { Counted };

    ghost view = { λ h. counted h.store };

    ghost invariant = { λ h. Stands h.store.cells };
}

impl Heap {
    ghost use Rattle.std.specs.Prelude.{◌≡◌, true, ℕ, ◌+◌, ◌*◌, ◌%◌, ◌<◌, ◌≤◌, ◌⊎◌, ◌↔◌, map, Some, None, Ok, Err, IfOk, IfErr, IsOk, MatchResult, OnOk, OnErr, false};
    ghost use Rattle.tlsf_store.specs.declared.errors.StoreError.TheVariants.{BadCount};
    ghost use Rattle.tlsf_store.specs.Records.{most_records};
    ghost use Rattle.tlsf_heap.specs.Touches.{AtMost, add_pool_touches, remove_pool_touches, malloc_touches, malloc_or_own_touches, memalign_touches, free_touches, realloc_touches, block_size_touches};
    ghost use Rattle.tlsf_heap.specs.Good.{IsGood};
    ghost use Rattle.tlsf_heap.specs.GoodSlots.{HasGoodSlots};
    ghost use Rattle.tlsf_heap.specs.Served.{IsServed, IsMoved, Refuses};
    ghost use Rattle.tlsf_heap.specs.Readings.{FindsRows, GivesRow, TouchesForRow, IsLargestRequest};
    ghost use Rattle.tlsf_heap.specs.Content.{Content, used_records};
    ghost use Rattle.tlsf_heap.specs.Malloc.{malloc};
    ghost use Rattle.tlsf_heap.specs.OwnClass.{malloc_or_own};
    ghost use Rattle.tlsf_heap.specs.Memalign.{memalign};
    ghost use Rattle.tlsf_heap.specs.Pointer.{free_ptr, realloc_ptr, block_size_ptr};
    ghost use Rattle.tlsf_heap.specs.Rows.{rows_from};
    ghost use Rattle.tlsf_heap.specs.Cursors.{rows_behind, is_at_row};
    ghost use Rattle.tlsf_heap.specs.Walk.{IsWalk, walk_touches};
    ghost use Rattle.tlsf_heap.specs.Pools.{created, add_pool, remove_pool};
    ghost use Rattle.tlsf_heap.specs.Counted.{range_of, IsUnchanged, Reads};
    ghost use Rattle.tlsf_heap.specs.Implied.{NoneFits, NoneFitsAligned, HasFewRecords, HasFewRecordsAndOne, IsLaidOut};
    ghost use Rattle.tlsf_heap.specs.Room.{HasRoom, HasRoomAligned};
    ghost use Rattle.tlsf_heap.specs.declared.refusal.Refusal.TheVariants.{NoFit, TableFull, BadPointer, BadAlign};
    ghost use Rattle.tlsf_class.specs.Classes.{classes};
    ghost use Rattle.tlsf_heap.specs.declared.image.rule.Rule.{Rule};
    ghost use Rattle.tlsf_heap.specs.Images.Rules.{first_broken};
    ghost use Rattle.tlsf_heap.specs.declared.image_fault.ImageFault.TheVariants.{Broken, Write};
    ghost use Rattle.tlsf_heap.specs.Images.Described.{described, IsImageOf, Saves};

    /// A heap of this many records, from 1 to 65,535, with no pool. It takes memory once, for its
    /// table.
    ///
    /// # Errors
    ///
    /// `BadCount` where the number isn't from 1 to 65,535; `OutOfMemory` where memory is refused.
    pub fn create(alloc: Global, records: u32) -> Result<Heap, StoreError>
        ensures made { IfOk result (λ heap. heap.content ≡ created records) }
        ensures untouched { IfOk result (λ heap. heap.touches ≡ 0) }
        ensures bad_count { (result ≡ Err BadCount) ↔ ((records ≡ 0) ⊎ (most_records < records)) }
    {
        let store = Store::create(alloc, records)?;
        Ok(Heap { store })
    }

    /// The heap is one of this many records, from 1 to as many as there are, with no pool. It takes no memory, and needs as
    /// long as `create`.
    pub fn restart(&mut self, records: u32)
        requires some { 0 < records }
        requires few { records ≤ self.old.content.records }
        ensures made { self.new.content ≡ created records }
        ensures touches { self.new.touches ≡ self.old.touches }
    {
        self.store.restart(records);
    }

    /// The heap that an image describes, slots included: pointers of the heap saved are live. What `save_image` put is loaded
    /// with the content that was saved, unless memory is refused. It takes memory once, for
    /// its table, and none where a rule is broken. At most five touches a record and eight a class.
    ///
    /// # Errors
    ///
    /// `Broken` with the first rule that the bytes break; `OutOfMemory` where memory is refused.
    pub fn load_image(alloc: Global, bytes: &[u8]) -> Result<Heap, ImageFault>
        ensures broken { (rule : Rule) → first_broken bytes.now ≡ Some rule → result ≡ Err (Broken rule) }
        ensures memory { IfErr result (λ fault. first_broken bytes.now ≡ None → fault ≡ ImageFault.OutOfMemory) }
        ensures content { IfOk result (λ heap. heap.content ≡ described bytes.now) }
        ensures saved { (content : Content ℕ) → IsImageOf content bytes.now → MatchResult result (λ heap. heap.content ≡ content) (λ fault. fault ≡ ImageFault.OutOfMemory) }
        ensures bound { IfOk result (λ heap. heap.touches ≤ 5 * heap.content.records + 8 * classes) }
    {
        let mut image = match Image::read(bytes) {
            Ok(image) => image,
            Err(rule) => return Err(ImageFault::Broken(rule)),
        };
        match stored(alloc, &mut image) {
            Ok(store) => Ok(Heap { store }),
            Err(_) => Err(ImageFault::OutOfMemory),
        }
    }

    /// Puts an image of the heap, in pieces of 4,096 bytes and a last one: `load_image` makes the heap of it again. It takes
    /// no memory. How many touches it takes isn't promised.
    ///
    /// # Errors
    ///
    /// `Write` where the writer failed, or took no byte of some: then a beginning of the image is put.
    pub fn save_image<W: Sink>(&mut self, writer: &mut W) -> Result<(), ImageFault>
        ensures saved { Saves result self.old.content (W.shown writer.old) (W.shown writer.new) }
        ensures fault { IfErr result (λ fault. fault ≡ Write) }
        ensures unchanged { IsUnchanged self.old self.new }
        ensures floor { self.old.touches ≤ self.new.touches }
    {
        match put_image(&mut self.store, writer) {
            Ok(()) => Ok(()),
            Err(Failed) => Err(ImageFault::Write),
        }
    }

    /// A pool of `bytes` bytes from the place `base` on, as one free block. At most 25 touches.
    ///
    /// # Errors
    ///
    /// `BadPool` where `base` or `bytes` isn't a multiple of the unit, or `bytes` isn't from the unit to the greatest
    /// size. `BadPool` too where the end is above 2^32, or the pool overlaps another; `PoolsFull` where there are as
    /// many pools as there can be; `TableFull` where each record is in use: there are at most two records a live
    /// block and one a pool then.
    pub fn add_pool(&mut self, base: u64, bytes: u64) -> Result<(), Refusal>
        ensures ok { OnOk result (add_pool base bytes self.old.content ≡ Ok self.new.content) }
        ensures refused { Refuses result (λ refusal. add_pool base bytes self.old.content ≡ Err refusal) (IsUnchanged self.old self.new) }
        ensures table_full { result ≡ Err TableFull → HasFewRecords self.old.content }
        ensures bound { AtMost add_pool_touches self.old.touches self.new.touches }
    {
        add_pool(&mut self.store, base, bytes)
    }

    /// The pool that begins at the place `base` is gone. At most 26 touches.
    ///
    /// # Errors
    ///
    /// `NoPool` where no pool begins there; `PoolInUse` unless the pool is one free block.
    pub fn remove_pool(&mut self, base: u64) -> Result<(), Refusal>
        ensures ok { OnOk result (remove_pool base self.old.content ≡ Ok self.new.content) }
        ensures refused { Refuses result (λ refusal. remove_pool base self.old.content ≡ Err refusal) (IsUnchanged self.old self.new) }
        ensures bound { AtMost remove_pool_touches self.old.touches self.new.touches }
    {
        remove_pool(&mut self.store, base)
    }

    /// A live block of at least `n` bytes, rounded up to the unit. It is the first block of the first list that isn't
    /// empty, from the least class whose blocks all hold as many. What is left of it behind these bytes is a free
    /// block. At most 21 touches.
    ///
    /// # Errors
    ///
    /// `ZeroSize` for 0. `NoFit` where none of these lists has a block, or `n` is above the greatest size. Then each
    /// free block is smaller than that class's lowest size, where the class exists. `TableFull` where a rest would be
    /// left and each record is in use. Then there are at most two records a live block and one a pool. Neither comes
    /// where there are more records than that, and the pools have more bytes than these two together: the live blocks,
    /// and a free block of a unit less than that lowest size for each live block and each pool.
    #[inline(always)]
    pub fn malloc(&mut self, n: u64) -> Result<Ptr, Refusal>
        ensures ok { IfOk result (λ ptr. IsServed (λ slot. malloc slot n) ptr self.old.content self.new.content) }
        ensures refused { Refuses result (λ refusal. (slot : ℕ) → malloc slot n self.old.content ≡ Err refusal) (IsUnchanged self.old self.new) }
        ensures no_fit { result ≡ Err NoFit → NoneFits n self.old.content }
        ensures table_full { result ≡ Err TableFull → HasFewRecords self.old.content }
        ensures room { HasRoom n self.old.content → IsOk result }
        ensures bound { AtMost malloc_touches self.old.touches self.new.touches }
    {
        malloc(&mut self.store, n)
    }

    /// As `malloc`. Where that finds no block, the first of the class that `n` bytes, rounded up, are in is taken, if it
    /// has as many. At most 23 touches.
    ///
    /// # Errors
    ///
    /// `ZeroSize` for 0. `NoFit` where `malloc` would answer it, and the list of that class is empty or its first block is
    /// too small. `TableFull` where a rest would be left and each record is in use. Neither comes where `malloc` promises
    /// that neither does.
    #[inline(always)]
    pub fn malloc_or_own(&mut self, n: u64) -> Result<Ptr, Refusal>
        ensures ok { IfOk result (λ ptr. IsServed (λ slot. malloc_or_own slot n) ptr self.old.content self.new.content) }
        ensures refused { Refuses result (λ refusal. (slot : ℕ) → malloc_or_own slot n self.old.content ≡ Err refusal) (IsUnchanged self.old self.new) }
        ensures room { HasRoom n self.old.content → IsOk result }
        ensures bound { AtMost malloc_or_own_touches self.old.touches self.new.touches }
    {
        malloc_or_own(&mut self.store, n)
    }

    /// A live block of at least `n` bytes, rounded up to the unit, that begins at a multiple of `align`. It is split
    /// off a block that holds `n` bytes, rounded up, and for an alignment above the unit `align` less the unit more.
    /// That is the first block of the first list that isn't empty, from the least class whose blocks all hold as
    /// many. What is left in front of the live block and behind it are free blocks; the one in front enters its list
    /// first. At most 35 touches.
    ///
    /// # Errors
    ///
    /// `BadAlign` where `align` isn't a power of two from 1 to 2^29; `ZeroSize` where `n` is 0. `NoFit` where none of
    /// these lists has a block, or `n` is above the greatest size. Then each free block is smaller than that class's
    /// lowest size, where the class exists. `TableFull` where the blocks in front and behind need more records than
    /// are left. Then there are at most two records a live block, one a pool and one more. Neither comes where there are
    /// more records than that, and the pools have more bytes than these two together: the live blocks, and a free block
    /// of a unit less than that lowest size for each live block and each pool.
    pub fn memalign(&mut self, align: u64, n: u64) -> Result<Ptr, Refusal>
        ensures ok { IfOk result (λ ptr. IsServed (λ slot. memalign slot align n) ptr self.old.content self.new.content) }
        ensures multiple { IfOk result (λ ptr. ptr.place % align ≡ 0) }
        ensures refused { Refuses result (λ refusal. (slot : ℕ) → memalign slot align n self.old.content ≡ Err refusal) (IsUnchanged self.old self.new) }
        ensures no_fit { result ≡ Err NoFit → NoneFitsAligned align n self.old.content }
        ensures table_full { result ≡ Err TableFull → HasFewRecordsAndOne self.old.content }
        ensures room { HasRoomAligned align n self.old.content → IfErr result (λ refusal. refusal ≡ BadAlign) }
        ensures bound { AtMost memalign_touches self.old.touches self.new.touches }
    {
        memalign(&mut self.store, align, n)
    }

    /// The block becomes free. It and its free neighbours in the pool are one free block then, the first
    /// of its class's list. At most 30 touches.
    ///
    /// # Errors
    ///
    /// `BadPointer` unless a live block has both the pointer's place and its slot.
    #[inline(always)]
    pub fn free(&mut self, ptr: Ptr) -> Result<(), Refusal>
        ensures ok { OnOk result (free_ptr ptr self.old.content ≡ Ok self.new.content) }
        ensures refused { Refuses result (λ refusal. free_ptr ptr self.old.content ≡ Err refusal) (IsUnchanged self.old self.new) }
        ensures bound { AtMost free_touches self.old.touches self.new.touches }
    {
        free(&mut self.store, ptr)
    }

    /// As `free`, of a block that has `size` bytes. The answer is whether a live block of this size has both the pointer's place
    /// and its slot. Where none has, nothing changes, and one touch is made at most. At most 31 touches.
    #[inline(always)]
    pub fn free_sized(&mut self, ptr: Ptr, size: u64) -> bool
        ensures found { (result ≡ true) ↔ (block_size_ptr ptr self.old.content ≡ Ok size) }
        ensures freed { result ≡ true → free_ptr ptr self.old.content ≡ Ok self.new.content }
        ensures unchanged { result ≡ false → IsUnchanged self.old self.new }
        ensures reads_one { result ≡ false → AtMost block_size_touches self.old.touches self.new.touches }
        ensures bound { AtMost (free_touches + 1) self.old.touches self.new.touches }
    {
        free_sized(&mut self.store, ptr, size)
    }

    /// The block with room for `n` bytes, rounded up to the unit. It stays in its place where it can have them there:
    /// with the free block behind it, or smaller. Else a new block is given, and the old one is freed; which bytes
    /// are copied is the caller's. Without a pointer it is `malloc`. The answer to 0 bytes is `None`, and the block
    /// is freed. A block that gets smaller stays as it is where no free block is behind it and each record is in use.
    /// At most 54 touches.
    ///
    /// # Errors
    ///
    /// `BadPointer` unless a live block has both the pointer's place and its slot. The errors of `malloc` without a
    /// pointer, or where the block has to move: then the old block is as it was. Neither `NoFit` nor `TableFull` comes
    /// where the records and the bytes are enough for `malloc` of `n` bytes.
    pub fn realloc(&mut self, ptr: Option<Ptr>, n: u64) -> Result<Option<Ptr>, Refusal>
        ensures ok { IfOk result (λ given. IsMoved (realloc_ptr ptr n) ptr given self.old.content self.new.content) }
        ensures refused { Refuses result (λ refusal. (slot : ℕ) → realloc_ptr ptr n slot self.old.content ≡ Err refusal) (IsUnchanged self.old self.new) }
        ensures no_fit { result ≡ Err NoFit → NoneFits n self.old.content }
        ensures table_full { result ≡ Err TableFull → HasFewRecords self.old.content }
        ensures room { HasRoom n self.old.content → IfErr result (λ refusal. refusal ≡ BadPointer) }
        ensures bound { AtMost realloc_touches self.old.touches self.new.touches }
    {
        realloc(&mut self.store, ptr, n)
    }

    /// The size of a live block, in bytes. At most one touch.
    ///
    /// # Errors
    ///
    /// `BadPointer` unless a live block has both the pointer's place and its slot.
    pub fn block_size(&mut self, ptr: Ptr) -> Result<u32, Refusal>
        ensures ok { IfOk result (λ bytes. block_size_ptr ptr self.old.content ≡ Ok bytes) }
        ensures refused { Refuses result (λ refusal. block_size_ptr ptr self.old.content ≡ Err refusal) (IsUnchanged self.old self.new) }
        ensures read { Reads block_size_touches self.old self.new }
    {
        block_size(&mut self.store, ptr)
    }

    /// Whether a live block of `size` bytes has both the pointer's place and its slot. At most one touch.
    #[inline(always)]
    pub fn has_block(&mut self, ptr: Ptr, size: u64) -> bool
        ensures value { (result ≡ true) ↔ (block_size_ptr ptr self.old.content ≡ Ok size) }
        ensures read { Reads block_size_touches self.old self.new }
    {
        has_block(&mut self.store, ptr, size)
    }

    /// How many records are in use: one for each block, live or free. At most one touch.
    pub fn records_used(&mut self) -> u32
        ensures value { result ≡ used_records self.old.content }
        ensures read { Reads 1 self.old self.new }
    {
        records_used(&mut self.store)
    }

    /// The most bytes for which `malloc` finds a block now, and 0 where no block is free: it never answers `NoFit` for as
    /// many or fewer, and does for more. At most two touches.
    pub fn largest_request(&mut self) -> u32
        ensures largest { IsLargestRequest result self.old.content }
        ensures read { Reads 2 self.old self.new }
    {
        largest_request(&mut self.store)
    }

    /// Where each pool begins and how many bytes it has, in order of base. At most eight touches.
    pub fn pools(&mut self) -> ArrayVec<(u64, u64), MOST_POOLS>
        ensures value { result.items ≡ map range_of self.old.content.pools }
        ensures read { Reads 8 self.old self.new }
    {
        let entries = entries(&mut self.store);
        let mut ranges = ArrayVec::new();
        for entry in entries.as_slice() {
            ranges.push((u64::from(entry.base), u64::from(entry.bytes)));
        }
        ranges
    }

    /// The cursor at the first row of the pool that begins at the place `base`. Four touches.
    ///
    /// # Errors
    ///
    /// `NoPool` where no pool begins there.
    pub fn first(&mut self, base: u64) -> Result<Cursor, Refusal>
        ensures found { FindsRows result (rows_from base self.old.content.pools) (rows_behind self.new.rows) (is_at_row self.new.rows) }
        ensures read { Reads 4 self.old self.new }
    {
        first(&mut self.store, base)
    }

    /// The row at the cursor, and the cursor behind it; none behind the last row of the pool. One
    /// touch, and none where there is no row.
    pub fn row(&mut self, cursor: Cursor) -> Option<(Row, Cursor)>
        requires { is_at_row self.old.rows cursor }
        ensures given { GivesRow result (rows_behind self.old.rows cursor) (rows_behind self.new.rows) (is_at_row self.new.rows) }
        ensures unchanged { IsUnchanged self.old self.new }
        ensures touched { TouchesForRow 1 result self.old.touches self.new.touches }
    {
        row(&mut self.store, cursor)
    }

    /// Calls the `visit` that is lent at each row of the pool that begins at the place `base`, once and in order. It
    /// is called at no other time, and is left as these visits leave it. At most four touches, and one more for each
    /// row.
    ///
    /// # Errors
    ///
    /// `NoPool` where no pool begins there: `visit` isn't called then, and is left as it was.
    pub fn walk_with<F: FnMut(Row)>(&mut self, base: u64, visit: &mut F) -> Result<(), Refusal>
        requires { F.IsAlwaysCallable visit.old }
        ensures ok { OnOk result (IsWalk (λ p x q. F.step p x tt q) base self.old.content.pools visit.old visit.new) }
        ensures refused { IfErr result (λ refusal. rows_from base self.old.content.pools ≡ Err refusal) }
        ensures unvisited { OnErr result (visit.new ≡ visit.old) }
        ensures read { Reads (walk_touches (rows_from base self.old.content.pools)) self.old self.new }
    {
        walk(&mut self.store, base, visit)
    }

    /// `walk_with` of a `visit` that is given away. It is called at each row of the pool that begins at the place
    /// `base`, once and in order. At most four touches, and one more for each row.
    ///
    /// # Errors
    ///
    /// `NoPool` where no pool begins there: `visit` isn't called then.
    pub fn walk<F: FnMut(Row)>(&mut self, base: u64, mut visit: F) -> Result<(), Refusal>
        requires { F.IsAlwaysCallable visit }
        ensures ok { OnOk result ((last : F) × IsWalk (λ p x q. F.step p x tt q) base self.old.content.pools visit last) }
        ensures refused { IfErr result (λ refusal. rows_from base self.old.content.pools ≡ Err refusal) }
        ensures read { Reads (walk_touches (rows_from base self.old.content.pools)) self.old self.new }
    {
        self.walk_with(base, &mut visit)
    }

    /// Whether the table of records is that of a heap: it always is, and the answer is `true`. The pools are in order
    /// and apart. Each block's links are of records. The blocks of each pool are linked both ways and cover it end to
    /// end, with no two free ones side by side. The list of each class is linked both ways and has free blocks of
    /// that class alone. Each block is of a pool, and each free one in a list. The bitmaps agree with the lists. Each
    /// vacant record is once on the chain of vacant records. Those are the rules that an image is tested by, the
    /// bitmaps and that chain. There are more touches than records.
    #[tactic(auto, using(crate::proofs::Images::Whole::stand_whole, crate::proofs::Inner::Followed::records_are))]
    pub fn check(&mut self) -> bool
        ensures whole { result ≡ true }
        ensures unchanged { IsUnchanged self.old self.new }
        ensures each_read { self.old.touches + self.old.content.records < self.new.touches }
    {
        let mut touches = GhostCount::new();
        let whole = is_whole(self.store.words(), &mut touches);
        self.store.add_touches(&touches);
        whole
    }

    /// Says what every heap keeps, and does nothing. Its pools are covered by their blocks end to end, and
    /// no two free ones stand side by side. The list of a class has the places of the free blocks of that
    /// class, each once, and no others. There are at most as many blocks as records. Live blocks have
    /// slots of their own, each below the number of records. Places and sizes are multiples of the unit,
    /// and no two blocks overlap. As `Heaped` it counts the touches of its store, and lacks no memory.
    pub fn keeps_good(&self)
        ensures good { IsGood self.now.content }
        ensures slots { HasGoodSlots self.now.content }
        ensures laid_out { IsLaidOut self.now.content }
        ensures touches { ⟦<Heap as Heaped>⟧.touches self.now ≡ self.now.touches }
        ensures memory { ⟦<Heap as Heaped>⟧.lacks → ⊥ }
    {
        let _store = &self.store;
    }
}
