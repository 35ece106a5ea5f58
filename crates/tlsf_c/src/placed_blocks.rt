//! Blocks of a heap with addresses are asked for and given back.

ghost use Rattle.std.specs.Prelude.{◌≡◌, ◌≢◌, ℕ, ◌+◌, ◌-◌, ◌*◌, ◌/◌, ◌%◌, ◌^◌, ◌<◌, ◌≤◌, ◌↔◌, All, Contains, map, max, Ok, Err, IfOk, IfErr, OnOk, OnErr, IfSome, IfNone, true, false, length};
ghost use Rattle.tlsf_heap.specs.declared.refusal.Refusal.TheVariants.{BadPointer};
ghost use Rattle.tlsf_heap.specs.Content.{Content};
ghost use Rattle.tlsf_heap.specs.Counted.{IsUnchanged, Reads, range_of};
ghost use Rattle.tlsf_heap.specs.OwnClass.{malloc_or_own};
ghost use Rattle.tlsf_heap.specs.Pointer.{free_ptr, block_size_ptr};
ghost use Rattle.tlsf_heap.specs.Room.{HasRoom};
ghost use Rattle.tlsf_heap.specs.Served.{IsServed};
ghost use Rattle.tlsf_heap.specs.Touches.{AtMost, malloc_or_own_touches, free_touches};
ghost use Rattle.tlsf_c.specs.Fronts.{front, told_slot, told_size};
ghost use Rattle.tlsf_c.specs.Kept.{Keeps};
ghost use Rattle.tlsf_c.specs.LiveFigures.{IsLiveChange};
ghost use Rattle.tlsf_c.specs.Lying.{LiesIn};
ghost use Rattle.tlsf_c.specs.PlacedPools.{IsPlaced, HasPlace, HasAddress, IsAt};
ghost use Rattle.tlsf_c.specs.PlacedHeaps.{IsLiveAt, IsGivenAt, IsRefusedAt, IsFreedAt, malloc_with_front, told_block};
ghost use Rattle.tlsf_c.specs.Status.{number};

use crate::front::{FRONT, MOST, Mark, UNIT, mark_of, word_of};
use crate::placed_block::PlacedBlock;
use crate::placed_heap::PlacedHeap;
use crate::placed_lookup::{later_pool_of, place_at, pool_at};
use crate::placed_pool::PlacedPool;
use crate::status::{SERVED, number};
use tlsf_heap::{Heap, Ptr, Refusal};

/// `Heap::malloc_or_own`, and what is known of the block: it lies in a pool, at a multiple of the unit, and has the bytes rounded
/// up.
#[inline(always)]
fn allocate(heap: &mut Heap, bytes: u64) -> Result<Ptr, Refusal>
    ensures ok { IfOk result (λ ptr. IsServed (λ slot. malloc_or_own slot bytes) ptr heap.old.content heap.new.content) }
    ensures in_units { IfOk result (λ ptr. ptr.place % 16 ≡ 0) }
    ensures lies { IfOk result (λ ptr. LiesIn ptr.place ((bytes + 15) / 16 * 16) (map range_of heap.old.content.pools)) }
    ensures size { IfOk result (λ ptr. block_size_ptr ptr heap.new.content ≡ Ok ((bytes + 15) / 16 * 16)) }
    ensures live { OnOk result (IsLiveChange 0 0 1 ((bytes + 15) / 16 * 16) heap.old.content heap.new.content) }
    ensures ranges { OnOk result (map range_of heap.new.content.pools ≡ map range_of heap.old.content.pools) }
    ensures refused { IfErr result (λ refusal. (slot : ℕ) → malloc_or_own slot bytes heap.old.content ≡ Err refusal) }
    ensures unchanged { OnErr result (IsUnchanged heap.old heap.new) }
    ensures room { OnErr result (HasRoom bytes heap.old.content → ⊥) }
    ensures bound { AtMost malloc_or_own_touches heap.old.touches heap.new.touches }
{
    heap.keeps_good();
    let given = heap.malloc_or_own(bytes);
    heap.keeps_good();
    given
}

/// `Heap::free_sized`, and that each pool lies where it lay.
#[inline(always)]
fn release(heap: &mut Heap, ptr: Ptr, size: u64) -> bool
    ensures found { (result ≡ true) ↔ (block_size_ptr ptr heap.old.content ≡ Ok size) }
    ensures freed { result ≡ true → free_ptr ptr heap.old.content ≡ Ok heap.new.content }
    ensures long { result ≡ true → 16 ≤ size }
    ensures ranges { result ≡ true → map range_of heap.new.content.pools ≡ map range_of heap.old.content.pools }
    ensures live { result ≡ true → IsLiveChange 1 size 0 0 heap.old.content heap.new.content }
    ensures unchanged { result ≡ false → IsUnchanged heap.old heap.new }
    ensures reads_one { result ≡ false → AtMost 1 heap.old.touches heap.new.touches }
    ensures bound { AtMost (free_touches + 1) heap.old.touches heap.new.touches }
{
    heap.keeps_good();
    let freed = heap.free_sized(ptr, size);
    heap.keeps_good();
    freed
}

/// A block of this size in the pool, by its address.
#[inline(always)]
fn place_in(pool: &PlacedPool, ptr: Ptr, size: u64) -> PlacedBlock
    requires placed { IsPlaced pool.now }
    requires has { HasPlace pool.now ptr.place }
    requires in_units { ptr.place % 16 ≡ 0 }
    requires units { size % 16 ≡ 0 }
    requires most { size < 2 ^ 30 }
    ensures some { 0 < result.address }
    ensures multiple { result.address % 16 ≡ 0 }
    ensures at { IsAt pool.now ptr.place result.address }
    ensures size { told_size result.word result.address ≡ size }
    ensures slot { told_slot result.word result.address ≡ ptr.slot }
{
    let address = pool.address_of(ptr.place());
    let mark = Mark {
        size,
        slot: ptr.slot(),
    };
    PlacedBlock {
        address,
        word: word_of(mark, address),
    }
}

/// A block of this size by its address, in the pool that has its place.
#[inline(always)]
pub(crate) fn place_block(pools: &[PlacedPool; 8], ptr: Ptr, size: u64) -> PlacedBlock
    requires placed { All IsPlaced pools.now }
    requires in_units { ptr.place % 16 ≡ 0 }
    requires somewhere { All (λ pool. HasPlace pool ptr.place → ⊥) pools.now → ⊥ }
    requires units { size % 16 ≡ 0 }
    requires most { size < 2 ^ 30 }
    ensures some { 0 < result.address }
    ensures multiple { result.address % 16 ≡ 0 }
    ensures at { (pool : PlacedPool) × Contains pools.now pool × IsAt pool ptr.place result.address }
    ensures size { told_size result.word result.address ≡ size }
    ensures slot { told_slot result.word result.address ≡ ptr.slot }
{
    let first = &pools[0];
    if first.has_place(ptr.place()) {
        return place_in(first, ptr, size);
    }
    // A pool always has the place. Where the program's entries were spoiled, nothing is handed out.
    let Some(pool) = later_pool_of(pools, ptr.place()) else {
        return PlacedBlock {
            address: 0,
            word: 0,
        };
    };
    place_in(pool, ptr, size)
}

/// Why every heap refuses a block of none or of too many bytes.
#[cold]
#[inline(never)]
fn refusal_of(bytes: u64) -> Refusal
    requires { bytes ≢ 0 → 2 ^ 30 - 24 < bytes }
    ensures { (slot : ℕ) (content : Content ℕ) → malloc_with_front slot bytes content ≡ Err result }
{
    if bytes == 0 {
        return Refusal::ZeroSize;
    }
    Refusal::NoFit
}

/// A live block of at least `bytes` bytes, with eight bytes in front of its address. The caller puts its word there, and hands
/// back both. At most 23 touches.
///
/// Where the heap refuses the address is 0. Then the word is the number of `ZeroSize`, `NoFit` or `TableFull`. It refuses no block
/// of some bytes for which, with the front, it has room.
#[unsafe(no_mangle)]
pub extern "C" fn tlsf_placed_malloc(heap: &mut PlacedHeap, bytes: u64) -> PlacedBlock
    ensures given { 0 < result.address → IsGivenAt (λ slot. malloc_with_front slot bytes) bytes result.address heap.old.pools heap.old.handle.value.content heap.new.handle.value.content }
    ensures live { 0 < result.address → IsLiveAt result.address result.word heap.old.pools heap.new.handle.value.content }
    ensures multiple { result.address % 16 ≡ 0 }
    ensures refused { result.address ≡ 0 → IsRefusedAt (λ slot. malloc_with_front slot bytes) result.word heap.old.handle.value heap.new.handle.value }
    ensures room { 0 < bytes → HasRoom (bytes + front) heap.old.handle.value.content → 0 < result.address }
    ensures kept { Keeps heap.old heap.new }
    ensures most { heap.new.figures.most_bytes ≡ max heap.old.figures.most_bytes heap.new.figures.bytes }
    ensures bound { AtMost malloc_or_own_touches heap.old.handle.value.touches heap.new.handle.value.touches }
{
    // 0 less 1 wraps round to the greatest number, so it is refused, too.
    if bytes.wrapping_sub(1) >= MOST {
        return PlacedBlock::refused(refusal_of(bytes));
    }
    match allocate(heap.handle.heap(), bytes + FRONT) {
        Ok(ptr) => {
            let size = (bytes + FRONT + (UNIT - 1)) / UNIT * UNIT;
            heap.figures.given(size - FRONT);
            place_block(&heap.pools, ptr, size)
        }
        Err(refusal) => PlacedBlock::refused(refusal),
    }
}

/// A live block, and its size in bytes.
#[derive(Clone, Copy)]
pub(crate) struct Sized {
    pub(crate) ptr: Ptr,
    pub(crate) size: u64,
}

/// The live block that an address and the word in front of it mean. At most one touch.
#[inline(always)]
pub(crate) fn find(heap: &mut PlacedHeap, address: u64, word: u64) -> Option<Sized>
    ensures some { IfSome result (λ found. (found.ptr ≡ told_block found.ptr.place address word) × ((pool : PlacedPool) × Contains heap.old.pools pool × IsAt pool found.ptr.place address) × (block_size_ptr found.ptr heap.old.handle.value.content ≡ Ok (told_size word address)) × (found.size ≡ told_size word address)) }
    ensures long { IfSome result (λ found. 16 ≤ found.size) }
    ensures none { IfNone result (IsLiveAt address word heap.old.pools heap.old.handle.value.content → ⊥) }
    ensures kept { Keeps heap.old heap.new }
    ensures figures { heap.new.figures ≡ heap.old.figures }
    ensures read { Reads 1 heap.old.handle.value heap.new.handle.value }
{
    let place = place_at(&heap.pools, address)?;
    let mark = mark_of(word, address);
    let ptr = Ptr::new(place, mark.slot);
    let inner = heap.handle.heap();
    inner.keeps_good();
    if !inner.has_block(ptr, mark.size) {
        return None;
    }
    Some(Sized {
        ptr,
        size: mark.size,
    })
}

/// The block at an address becomes free, where the word in front of it is the block's. At most 31 touches.
///
/// The status is 0, or the number of `BadPointer` unless the block is live.
#[unsafe(no_mangle)]
pub extern "C" fn tlsf_placed_free(heap: &mut PlacedHeap, address: u64, word: u64) -> u32
    ensures found { (result ≡ 0) ↔ IsLiveAt address word heap.old.pools heap.old.handle.value.content }
    ensures freed { result ≡ 0 → IsFreedAt address word heap.old.pools heap.old.handle.value.content heap.new.handle.value.content }
    ensures refused { result ≢ 0 → result ≡ number BadPointer }
    ensures unchanged { result ≢ 0 → IsUnchanged heap.old.handle.value heap.new.handle.value }
    ensures reads_one { result ≢ 0 → AtMost 1 heap.old.handle.value.touches heap.new.handle.value.touches }
    ensures kept { Keeps heap.old heap.new }
    ensures most { heap.new.figures.most_bytes ≡ max heap.old.figures.most_bytes heap.new.figures.bytes }
    ensures bound { AtMost (free_touches + 1) heap.old.handle.value.touches heap.new.handle.value.touches }
{
    let Some(place) = place_at(&heap.pools, address) else {
        return number(Refusal::BadPointer);
    };
    let mark = mark_of(word, address);
    let ptr = Ptr::new(place, mark.slot);
    if !release(heap.handle.heap(), ptr, mark.size) {
        return number(Refusal::BadPointer);
    }
    heap.figures.freed(mark.size - FRONT);
    SERVED
}

/// Whether a pool has the address, so that the eight bytes in front of it are the pool's.
#[unsafe(no_mangle)]
pub extern "C" fn tlsf_placed_has(heap: &PlacedHeap, address: u64) -> bool
    ensures within { result ≡ true → (pool : PlacedPool) × Contains heap.now.pools pool × HasAddress pool address }
    ensures none { result ≡ false → All (λ pool. HasAddress pool address → ⊥) heap.now.pools }
{
    pool_at(&heap.pools, address).is_some()
}
