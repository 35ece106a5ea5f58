//! Blocks of a heap with addresses tell their sizes, and get others.

ghost use Rattle.std.specs.Prelude.{◌≡◌, ◌≢◌, ◌+◌, ◌-◌, ◌*◌, ◌/◌, ◌%◌, ◌^◌, ◌<◌, ◌≤◌, ◌⊎◌, ◌↔◌, map, max, min, true, false, Ok, Err, Some, IfOk, IfErr, OnOk, OnErr};
ghost use Rattle.tlsf_heap.specs.declared.refusal.Refusal.{Refusal};
ghost use Rattle.tlsf_heap.specs.declared.refusal.Refusal.TheVariants.{BadPointer};
ghost use Rattle.tlsf_heap.specs.Counted.{IsUnchanged, Reads, range_of};
ghost use Rattle.tlsf_heap.specs.Pointer.{realloc_ptr, block_size_ptr};
ghost use Rattle.tlsf_heap.specs.Room.{HasRoom};
ghost use Rattle.tlsf_heap.specs.Served.{IsMoved};
ghost use Rattle.tlsf_heap.specs.Touches.{AtMost, realloc_touches, block_size_touches};
ghost use Rattle.tlsf_c.specs.Fronts.{front, told_size, IsLostFront};
ghost use Rattle.tlsf_c.specs.Kept.{StandsWhere, Keeps};
ghost use Rattle.tlsf_c.specs.LiveFigures.{IsLiveChange};
ghost use Rattle.tlsf_c.specs.Lying.{LiesIn};
ghost use Rattle.tlsf_c.specs.PlacedHeaps.{IsLiveAt, IsResizedAt, IsNotResized};
ghost use Rattle.tlsf_c.specs.PlacedRuns.{CallStep, realloc_call, copied_bytes};
ghost use Rattle.tlsf_c.specs.Status.{number};

use crate::block::Block;
use crate::blocks::tlsf_heap_realloc;
use crate::front::{FRONT, MOST, UNIT, mark_of};
use crate::handle::Handle;
use crate::placed_blocks::{Sized, find, place_block, tlsf_placed_free, tlsf_placed_malloc};
use crate::placed_heap::PlacedHeap;
use crate::status::{SERVED, number};
use tlsf_heap::{Ptr, Refusal};

/// The bytes that the block at an address has, without the eight in front of it, where the word there is the block's. At most one
/// touch. The answer is 0 unless the block is live.
#[unsafe(no_mangle)]
pub extern "C" fn tlsf_placed_block_size(heap: &mut PlacedHeap, address: u64, word: u64) -> u64
    ensures size { IsLiveAt address word heap.old.pools heap.old.handle.value.content → result ≡ told_size word address - front }
    ensures live { 0 < result → IsLiveAt address word heap.old.pools heap.old.handle.value.content }
    ensures kept { Keeps heap.old heap.new }
    ensures figures { heap.new.figures ≡ heap.old.figures }
    ensures read { Reads block_size_touches heap.old.handle.value heap.new.handle.value }
{
    match find(heap, address, word) {
        Some(block) => block.size - FRONT,
        None => 0,
    }
}

/// The bytes that a word in front of an address tells, without the eight in front; 0 where it is no word for this address, or is
/// that of a freed block.
#[unsafe(no_mangle)]
pub extern "C" fn tlsf_placed_told_size(address: u64, word: u64) -> u64
    ensures told { 0 < result → told_size word address ≡ result + front }
    ensures most { 0 < result → told_size word address < 2 ^ 30 }
    ensures none { result ≡ 0 → (told_size word address ≤ front) ⊎ (2 ^ 30 ≤ told_size word address) }
{
    let size = mark_of(word, address).size;
    if size < 1 << 30 {
        size.saturating_sub(FRONT)
    } else {
        0
    }
}

/// Whether the word in front of an address, where blocks may begin, is no block's: it was changed. The word of a freed block, and
/// zeros, as where no block was, are none that was changed.
#[unsafe(no_mangle)]
pub extern "C" fn tlsf_placed_lost_front(address: u64, word: u64) -> bool
    ensures lost { (result ≡ true) ↔ IsLostFront word address }
{
    address % UNIT == 0 && word != 0 && word != address && tlsf_placed_told_size(address, word) == 0
}

/// `tlsf_heap_realloc` of a block to some bytes. The library has the code of `Heap::realloc` once, in that export.
#[inline(always)]
fn reallocate(handle: &mut Handle, ptr: Ptr, bytes: u64) -> Result<Ptr, u32>
    requires some { 0 < bytes }
    ensures ok { IfOk result (λ new. IsMoved (realloc_ptr (Some ptr) bytes) (Some ptr) (Some new) handle.old.value.content handle.new.value.content) }
    ensures refused { IfErr result (λ status. (refusal : Refusal) × (status ≡ number refusal) × (realloc_ptr (Some ptr) bytes ptr.slot handle.old.value.content ≡ Err refusal)) }
    ensures unchanged { OnErr result (IsUnchanged handle.old.value handle.new.value) }
    ensures stands { StandsWhere handle.old handle.new }
    ensures bound { AtMost realloc_touches handle.old.value.touches handle.new.value.touches }
{
    let mut given = Block::of(ptr);
    let status = tlsf_heap_realloc(handle, Block::of(ptr), bytes, &mut given);
    if status == SERVED {
        Ok(given.ptr())
    } else {
        Err(status)
    }
}

/// `tlsf_heap_realloc` of a block whose size is known, and what is known of the block then: it lies in a pool, at a multiple of
/// the unit, and has these bytes or more, a multiple of the unit.
#[inline(always)]
fn resize(handle: &mut Handle, block: Sized, bytes: u64) -> Result<Sized, u32>
    requires some { 0 < bytes }
    requires sized { block_size_ptr block.ptr handle.old.value.content ≡ Ok block.size }
    ensures ok { IfOk result (λ r. IsMoved (realloc_ptr (Some block.ptr) bytes) (Some block.ptr) (Some r.ptr) handle.old.value.content handle.new.value.content) }
    ensures in_units { IfOk result (λ r. r.ptr.place % 16 ≡ 0) }
    ensures units { IfOk result (λ r. r.size % 16 ≡ 0) }
    ensures most { IfOk result (λ r. r.size < 2 ^ 30) }
    ensures holds { IfOk result (λ r. bytes ≤ r.size) }
    ensures lies { IfOk result (λ r. LiesIn r.ptr.place r.size (map range_of handle.old.value.content.pools)) }
    ensures size { IfOk result (λ r. block_size_ptr r.ptr handle.new.value.content ≡ Ok r.size) }
    ensures live { IfOk result (λ r. IsLiveChange 1 block.size 1 r.size handle.old.value.content handle.new.value.content) }
    ensures ranges { OnOk result (map range_of handle.new.value.content.pools ≡ map range_of handle.old.value.content.pools) }
    ensures refused { IfErr result (λ status. (refusal : Refusal) × (status ≡ number refusal) × (realloc_ptr (Some block.ptr) bytes block.ptr.slot handle.old.value.content ≡ Err refusal)) }
    ensures unchanged { OnErr result (IsUnchanged handle.old.value handle.new.value) }
    ensures room { OnErr result (HasRoom bytes handle.old.value.content → ⊥) }
    ensures stands { StandsWhere handle.old handle.new }
    ensures bound { AtMost (realloc_touches + block_size_touches) handle.old.value.touches handle.new.value.touches }
{
    handle.heap().keeps_good();
    let new = reallocate(handle, block.ptr, bytes)?;
    let heap = handle.heap();
    heap.keeps_good();
    let Ok(size) = heap.block_size(new) else {
        unreachable!();
    };
    Ok(Sized {
        ptr: new,
        size: u64::from(size),
    })
}

/// How many bytes are copied of a block that had some and has others: none where it stays.
#[inline(always)]
fn to_copy(stays: bool, had: u64, has: u64) -> u64
    ensures stays { stays ≡ true → result ≡ 0 }
    ensures moves { stays ≡ false → result ≡ min had has }
{
    if stays { 0 } else { had.min(has) }
}

/// The live block at an address gets room for `bytes` bytes, where `word` is the word in front of it. The answer is its address
/// then. Where that is another one, `copied` gets how many bytes the caller has to copy there, and else 0. `word` gets what
/// stands in front of it. At most 56 touches.
///
/// Where that is refused the answer is 0, and all is as it was. Then `word` gets the number of `BadPointer` unless the block is
/// live, and else that of `NoFit` or `TableFull`. A live block isn't refused bytes for which, with the front, the heap has room.
fn resize_block(
    heap: &mut PlacedHeap,
    address: u64,
    bytes: u64,
    word: &mut u64,
    copied: &mut u64,
) -> u64
    ensures given { 0 < result → IsResizedAt address word.old bytes result heap.old.pools heap.old.handle.value.content heap.new.handle.value.content }
    ensures live { 0 < result → IsLiveAt result word.new heap.old.pools heap.new.handle.value.content }
    ensures multiple { result % 16 ≡ 0 }
    ensures stays { 0 < result → result ≡ address → copied.new ≡ 0 }
    ensures moves { 0 < result → result ≢ address → copied.new ≡ min (told_size word.old address - front) (told_size word.new result - front) }
    ensures refused { result ≡ 0 → IsNotResized address word.old bytes word.new heap.old.pools heap.old.handle.value heap.new.handle.value }
    ensures copies_none { result ≡ 0 → copied.new ≡ copied.old }
    ensures room { IsLiveAt address word.old heap.old.pools heap.old.handle.value.content → HasRoom (bytes + front) heap.old.handle.value.content → 0 < result }
    ensures kept { Keeps heap.old heap.new }
    ensures most { heap.new.figures.most_bytes ≡ max heap.old.figures.most_bytes heap.new.figures.bytes }
    ensures bound { AtMost (realloc_touches + 2) heap.old.handle.value.touches heap.new.handle.value.touches }
{
    let Some(block) = find(heap, address, *word) else {
        *word = u64::from(number(Refusal::BadPointer));
        return 0;
    };
    if bytes > MOST {
        *word = u64::from(number(Refusal::NoFit));
        return 0;
    }
    let had = block.size - FRONT;
    match resize(&mut heap.handle, block, bytes + FRONT) {
        Ok(new) => {
            let has = new.size - FRONT;
            heap.figures.resized(had, has);
            let now = place_block(&heap.pools, new.ptr, new.size);
            *copied = to_copy(now.address == address, had, has);
            *word = now.word;
            now.address
        }
        Err(status) => {
            *word = u64::from(status);
            0
        }
    }
}

/// The block at an address gets room for `bytes` bytes, as C's realloc has it, where `word` is the word in front of it. The answer
/// is its address then, and `word` gets what stands in front of it. Where that is another address `copied` gets how many bytes the
/// caller has to copy there, and else 0. At most 56 touches.
///
/// For the address 0 a new block is given, as `tlsf_placed_malloc` does it, and `copied` stays. A block that is to have no bytes
/// becomes free, as by `tlsf_placed_free`. Then the answer is 0, and `word` gets the status.
///
/// Where that is refused the answer is 0, and all is as it was. Then `word` gets the number of `BadPointer` unless the block is
/// live, and else that of `ZeroSize`, `NoFit` or `TableFull`. No bytes are refused for which, with the front, the heap has room.
#[unsafe(no_mangle)]
pub extern "C" fn tlsf_placed_realloc(
    heap: &mut PlacedHeap,
    address: u64,
    bytes: u64,
    word: &mut u64,
    copied: &mut u64,
) -> u64
    ensures step { CallStep heap.old.pools (realloc_call address word.old bytes) (record { address = result; word = word.new }) heap.old.handle.value heap.new.handle.value }
    ensures frees { address ≢ 0 → bytes ≡ 0 → result ≡ 0 }
    ensures none_live { address ≢ 0 → bytes ≡ 0 → word.new ≢ 0 → word.new ≡ number BadPointer }
    ensures multiple { result % 16 ≡ 0 }
    ensures moves { address ≢ 0 → 0 < result → copied.new ≡ copied_bytes address word.old result word.new }
    ensures copies_none { (address ≡ 0) ⊎ (result ≡ 0) → copied.new ≡ copied.old }
    ensures room { 0 < bytes → (address ≡ 0) ⊎ IsLiveAt address word.old heap.old.pools heap.old.handle.value.content → HasRoom (bytes + front) heap.old.handle.value.content → 0 < result }
    ensures kept { Keeps heap.old heap.new }
    ensures most { heap.new.figures.most_bytes ≡ max heap.old.figures.most_bytes heap.new.figures.bytes }
    ensures bound { AtMost (realloc_touches + 2) heap.old.handle.value.touches heap.new.handle.value.touches }
{
    if address == 0 {
        let block = tlsf_placed_malloc(heap, bytes);
        *word = block.word;
        return block.address;
    }
    if bytes == 0 {
        *word = u64::from(tlsf_placed_free(heap, address, *word));
        return 0;
    }
    resize_block(heap, address, bytes, word, copied)
}
