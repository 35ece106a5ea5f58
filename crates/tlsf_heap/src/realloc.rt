//! realloc: the block gets another size in its place, or moves.

ghost use Rattle.std.specs.Prelude.{◌≡◌, ◌≢◌, ℕ, true, ◌<◌, ◌==◌, Some, None, Err, option_map};
ghost use Rattle.tlsf_heap.specs.Touches.{AtMost, realloc_touches};
ghost use Rattle.tlsf_heap.specs.Content.{IsSize, blocks_of, size_at};
ghost use Rattle.tlsf_heap.specs.Free.{is_live};
ghost use Rattle.tlsf_heap.specs.Realloc.{fits_in_place, resized, moved, realloc_sized};
ghost use Rattle.tlsf_heap.specs.Malloc.{malloc_rounded};
ghost use Rattle.tlsf_heap.specs.Pointer.{realloc_ptr};
ghost use Rattle.tlsf_heap.specs.Served.{IsMoved};
ghost use Rattle.tlsf_heap.specs.Inner.Following.{Stands, content_of};
ghost use Rattle.tlsf_heap.specs.Inner.Nodes.{InUse};
ghost use Rattle.tlsf_heap.specs.Inner.Positions.{listed_first};
ghost use Rattle.tlsf_heap.specs.Inner.At.{At, StandsAt};
ghost use Rattle.tlsf_heap.specs.Inner.Spans.{IsRead};
ghost use Rattle.tlsf_heap.specs.Inner.Answers.{AnswersOver, Leaves};

use crate::free::{free, live, merge_next, release};
use crate::malloc::{allocate, malloc, split_rest};
use crate::span::Span;
use crate::{Ptr, Refusal};
use tlsf_class::round;
use tlsf_store::{Slot, Store};

/// The block with another size, in its place or moved; without a pointer a new block. Where no byte is asked for it is
/// freed. At most 54 touches.
///
/// # Errors
///
/// As `Heap::realloc`.
pub(crate) fn realloc(store: &mut Store, ptr: Option<Ptr>, n: u64) -> Result<Option<Ptr>, Refusal>
    requires { Stands store.old.cells }
    ensures { AnswersOver result (IsMoved (realloc_ptr ptr n) ptr) (λ refusal old. (owner : ℕ) → realloc_ptr ptr n owner old ≡ Err refusal) realloc_touches store.old store.new }
{
    let Some(ptr) = ptr else {
        return Ok(Some(malloc(store, n)?));
    };
    if n == 0 {
        free(store, ptr)?;
        return Ok(None);
    }
    let Some(block) = live(store, ptr) else {
        return Err(Refusal::BadPointer);
    };
    let asked = round(n).ok_or(Refusal::NoFit)?;
    let given = resize(store, ptr, Span::of(Slot(ptr.slot()), &block), asked)?;
    Ok(Some(given))
}

/// The live block with `asked` bytes, in its place where it can have them. A block that gets smaller and
/// can't give back what is left stays as it is. At most 53 touches.
///
/// # Errors
///
/// As `Heap::malloc`, where the block has to move.
fn resize(store: &mut Store, ptr: Ptr, block: Span, asked: u32) -> Result<Ptr, Refusal>
    requires stands { Stands store.old.cells }
    requires live { is_live (λ slot. slot == ptr.slot) ptr.place (blocks_of (content_of store.old.cells).pools) ≡ true }
    requires slot { block.slot ≡ ptr.slot }
    requires place { block.place ≡ ptr.place }
    requires read { IsRead block store.old.cells.records }
    requires size { IsSize asked }
    ensures { AnswersOver result (λ given. IsMoved (λ slot. realloc_sized slot ptr.place ptr.slot asked) (Some ptr) (Some given)) (λ refusal old. (owner : ℕ) → realloc_sized owner ptr.place ptr.slot asked old ≡ Err refusal) 53 store.old store.new }
{
    if asked == block.size {
        return Ok(ptr);
    }
    if fits_in_place(store, &block, asked) {
        resize_in_place(store, block, asked);
        return Ok(ptr);
    }
    if asked < block.size {
        return Ok(ptr);
    }
    relocate(store, ptr, asked)
}

/// Whether the live block can have `asked` bytes in its place. At most two touches.
fn fits_in_place(store: &mut Store, block: &Span, asked: u32) -> bool
    requires stands { Stands store.old.cells }
    requires live { is_live (λ slot. slot == block.now.slot) block.now.place (blocks_of (content_of store.old.cells).pools) ≡ true }
    requires read { IsRead block.now store.old.cells.records }
    ensures value { result ≡ fits_in_place block.now.place asked (content_of store.old.cells) }
    ensures left { Leaves store.old.cells 2 store.old store.new }
{
    let behind = free_behind(store, block);
    if block.size <= asked {
        return asked - block.size <= behind.unwrap_or(0);
    }
    behind.is_some() || store.vacant() > 0
}

/// The size of the block behind, in bytes, where it is free. At most one touch.
fn free_behind(store: &mut Store, block: &Span) -> Option<u32>
    requires stands { (at : At) × StandsAt block.now.slot InUse store.old.cells at }
    requires read { IsRead block.now store.old.cells.records }
    ensures value { (at : At) → StandsAt block.now.slot InUse store.old.cells at → result ≡ option_map (λ node. node.size) (listed_first at.nodes) }
    ensures left { Leaves store.old.cells 1 store.old store.new }
{
    let next_slot = block.next?;
    let next = store.read_used(next_slot);
    if !next.state.is_free() {
        return None;
    }
    Some(next.size)
}

/// The live block is merged with a free one behind it, and keeps the first `asked` bytes. What is left,
/// where anything is, is a free block. At most 22 touches.
fn resize_in_place(store: &mut Store, block: Span, asked: u32)
    requires stands { Stands store.old.cells }
    requires live { is_live (λ slot. slot == block.slot) block.place (blocks_of (content_of store.old.cells).pools) ≡ true }
    requires read { IsRead block store.old.cells.records }
    requires fits { fits_in_place block.place asked (content_of store.old.cells) ≡ true }
    requires other { asked ≢ size_at block.place (blocks_of (content_of store.old.cells).pools) }
    requires size { IsSize asked }
    ensures stands { Stands store.new.cells }
    ensures content { content_of store.new.cells ≡ resized block.slot block.place asked (content_of store.old.cells) }
    ensures touches { AtMost 22 store.old.touches store.new.touches }
{
    let grown = merge_next(store, block);
    split_rest(store, &grown, asked);
}

/// A new block, and the old one is freed. At most 51 touches.
///
/// # Errors
///
/// As `Heap::malloc`; then the old block is as it was.
fn relocate(store: &mut Store, ptr: Ptr, asked: u32) -> Result<Ptr, Refusal>
    requires stands { Stands store.old.cells }
    requires live { is_live (λ slot. slot == ptr.slot) ptr.place (blocks_of (content_of store.old.cells).pools) ≡ true }
    requires size { IsSize asked }
    ensures { AnswersOver result (λ given. IsMoved (λ slot old. moved slot ptr.place (malloc_rounded slot (Some asked) old)) (Some ptr) (Some given)) (λ refusal old. (owner : ℕ) → moved owner ptr.place (malloc_rounded owner (Some asked) old) ≡ Err refusal) 51 store.old store.new }
{
    let given = allocate(store, asked)?;
    let slot = Slot(ptr.slot());
    let block = store.read_used(slot);
    release(store, slot, &block);
    Ok(given)
}
