//! Blocks are asked for and given back.

ghost use Rattle.std.specs.Prelude.{◌≡◌, ◌≢◌, ◌%◌, ◌<◌, ◌⊎◌, Ok, Some};
ghost use Rattle.tlsf_heap.specs.Content.{blocks_of};
ghost use Rattle.tlsf_heap.specs.GoodSlots.{slot_times};
ghost use Rattle.tlsf_heap.specs.Room.{HasRoom, HasRoomAligned};
ghost use Rattle.tlsf_heap.specs.declared.refusal.Refusal.TheVariants.{BadAlign, BadPointer};
ghost use Rattle.tlsf_heap.specs.Touches.{AtMost, malloc_touches, memalign_touches, free_touches, realloc_touches, block_size_touches};
ghost use Rattle.tlsf_heap.specs.Counted.{IsUnchanged, Reads};
ghost use Rattle.tlsf_heap.specs.Malloc.{malloc};
ghost use Rattle.tlsf_heap.specs.Memalign.{memalign};
ghost use Rattle.tlsf_heap.specs.Pointer.{free_ptr, realloc_ptr, block_size_ptr};
ghost use Rattle.tlsf_c.specs.Answers.{Answers, AnswersBlock, block_given, pointer_of};
ghost use Rattle.tlsf_c.specs.Kept.{StandsWhere};
ghost use Rattle.tlsf_c.specs.Status.{status_of, number};

use crate::block::Block;
use crate::handle::Handle;
use crate::status::{SERVED, number};

/// A live block of at least `bytes` bytes, which goes to `out`. At most 21 touches.
///
/// The status is 0 or the number of `ZeroSize`, `NoFit` or `TableFull`.
#[unsafe(no_mangle)]
pub extern "C" fn tlsf_heap_malloc(handle: &mut Handle, bytes: u64, out: &mut Block) -> u32
    ensures answer { AnswersBlock (λ slot. malloc slot bytes) result out.old out.new handle.old.value handle.new.value }
    ensures room { HasRoom bytes handle.old.value.content → result ≡ 0 }
    ensures stands { StandsWhere handle.old handle.new }
    ensures bound { AtMost malloc_touches handle.old.value.touches handle.new.value.touches }
{
    match handle.heap().malloc(bytes) {
        Ok(ptr) => {
            *out = Block::of(ptr);
            SERVED
        }
        Err(refusal) => number(refusal),
    }
}

/// A live block of at least `bytes` bytes that begins at a multiple of `align`, which goes to `out`. At most 35 touches.
///
/// The status is 0 or the number of `BadAlign`, `ZeroSize`, `NoFit` or `TableFull`.
#[unsafe(no_mangle)]
pub extern "C" fn tlsf_heap_memalign(
    handle: &mut Handle,
    align: u64,
    bytes: u64,
    out: &mut Block,
) -> u32
    ensures answer { AnswersBlock (λ slot. memalign slot align bytes) result out.old out.new handle.old.value handle.new.value }
    ensures multiple { result ≡ 0 → out.new.place % align ≡ 0 }
    ensures room { HasRoomAligned align bytes handle.old.value.content → (result ≡ 0) ⊎ (result ≡ number BadAlign) }
    ensures stands { StandsWhere handle.old handle.new }
    ensures bound { AtMost memalign_touches handle.old.value.touches handle.new.value.touches }
{
    match handle.heap().memalign(align, bytes) {
        Ok(ptr) => {
            *out = Block::of(ptr);
            SERVED
        }
        Err(refusal) => number(refusal),
    }
}

/// The block becomes free. At most 30 touches.
///
/// The status is 0, or the number of `BadPointer` unless a live block has both the place and the slot.
#[unsafe(no_mangle)]
pub extern "C" fn tlsf_heap_free(handle: &mut Handle, block: Block) -> u32
    ensures answer { Answers (free_ptr (pointer_of block)) result handle.old.value handle.new.value }
    ensures stands { StandsWhere handle.old handle.new }
    ensures bound { AtMost free_touches handle.old.value.touches handle.new.value.touches }
{
    match handle.heap().free(block.ptr()) {
        Ok(()) => SERVED,
        Err(refusal) => number(refusal),
    }
}

/// The live block with room for `bytes` bytes, in its place or moved, which goes to `out`; which bytes are copied is the
/// caller's. Where `bytes` is 0 the block becomes free, and `out` stays. At most 54 touches.
///
/// The status is 0 or the number of `BadPointer`, `NoFit` or `TableFull`.
#[unsafe(no_mangle)]
pub extern "C" fn tlsf_heap_realloc(
    handle: &mut Handle,
    block: Block,
    bytes: u64,
    out: &mut Block,
) -> u32
    ensures status { status_of (realloc_ptr (Some (pointer_of block)) bytes out.new.slot handle.old.value.content) ≡ result }
    ensures ok { result ≡ 0 → realloc_ptr (Some (pointer_of block)) bytes out.new.slot handle.old.value.content ≡ Ok (block_given bytes out.new.place out.new.slot, handle.new.value.content) }
    ensures slot_below { result ≡ 0 → bytes ≢ 0 → out.new.slot < handle.old.value.content.records }
    ensures slot_new { result ≡ 0 → bytes ≢ 0 → pointer_of block ≢ pointer_of out.new → slot_times out.new.slot (blocks_of handle.old.value.content.pools) ≡ 0 }
    ensures room { HasRoom bytes handle.old.value.content → (result ≡ 0) ⊎ (result ≡ number BadPointer) }
    ensures unchanged { result ≢ 0 → IsUnchanged handle.old.value handle.new.value }
    ensures out { (result ≢ 0) ⊎ (bytes ≡ 0) → out.new ≡ out.old }
    ensures stands { StandsWhere handle.old handle.new }
    ensures bound { AtMost realloc_touches handle.old.value.touches handle.new.value.touches }
{
    match handle.heap().realloc(Some(block.ptr()), bytes) {
        Ok(Some(ptr)) => {
            *out = Block::of(ptr);
            SERVED
        }
        Ok(None) => SERVED,
        Err(refusal) => number(refusal),
    }
}

/// The size of a live block, in bytes, which goes to `out`. At most one touch.
///
/// The status is 0, or the number of `BadPointer` unless a live block has both the place and the slot.
#[unsafe(no_mangle)]
pub extern "C" fn tlsf_heap_block_size(handle: &mut Handle, block: Block, out: &mut u32) -> u32
    ensures status { status_of (block_size_ptr (pointer_of block) handle.old.value.content) ≡ result }
    ensures ok { result ≡ 0 → block_size_ptr (pointer_of block) handle.old.value.content ≡ Ok out.new }
    ensures out { result ≢ 0 → out.new ≡ out.old }
    ensures stands { StandsWhere handle.old handle.new }
    ensures read { Reads block_size_touches handle.old.value handle.new.value }
{
    match handle.heap().block_size(block.ptr()) {
        Ok(bytes) => {
            *out = bytes;
            SERVED
        }
        Err(refusal) => number(refusal),
    }
}
