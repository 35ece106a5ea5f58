//! free: the block becomes free, is merged with its free neighbours, and enters its class's list.

ghost use Rattle.std.specs.Prelude.{◌≡◌, ◌≢◌, false, ◌==◌, ◌&&◌, ◌%◌, ◌+◌, ◌↔◌, true, is_some, Ok, Err, IfSome};
ghost use Rattle.tlsf_class.specs.Classes.{unit, class};
ghost use Rattle.tlsf_store.specs.declared.records.State.TheVariants.{Vacant};
ghost use Rattle.tlsf_store.specs.Records.{record_at, is_live_state};
ghost use Rattle.tlsf_heap.specs.Touches.{AtMost, block_size_touches, free_touches};
ghost use Rattle.tlsf_heap.specs.Content.{blocks_of};
ghost use Rattle.tlsf_heap.specs.Free.{is_live};
ghost use Rattle.tlsf_heap.specs.Pointer.{free_ptr, block_size_ptr};
ghost use Rattle.tlsf_heap.specs.Inner.Edits.{unlinked_by};
ghost use Rattle.tlsf_heap.specs.Inner.Nodes.{NodeState, InUse, Listed, Loose, is_listed_state};
ghost use Rattle.tlsf_heap.specs.Inner.Following.{Stands, content_of};
ghost use Rattle.tlsf_heap.specs.Inner.At.{At, StandsAt, previous_merged, next_merged, at_listed, at_freed};
ghost use Rattle.tlsf_heap.specs.Inner.Spans.{IsRead, IsRecordOf, CanMerge, merged_by};
ghost use Rattle.tlsf_heap.specs.Inner.Answers.{AnswersOver, Leaves};

use crate::chains::set_prev;
use crate::free_lists::{put_first, unlink};
use crate::span::Span;
use crate::{Ptr, Refusal};
use tlsf_class::{UNIT, class_of};
use tlsf_store::{Record, Slot, State, Store};

/// The block becomes free, and one free block with its free neighbours in the pool. At most 30 touches.
///
/// # Errors
///
/// As `Heap::free`.
#[inline(always)]
pub(crate) fn free(store: &mut Store, ptr: Ptr) -> Result<(), Refusal>
    requires { Stands store.old.cells }
    ensures { AnswersOver result (λ done old new. free_ptr ptr old ≡ Ok new) (λ refusal old. free_ptr ptr old ≡ Err refusal) free_touches store.old store.new }
{
    let Some(block) = live(store, ptr) else {
        return Err(Refusal::BadPointer);
    };
    release(store, Slot(ptr.slot()), &block);
    Ok(())
}

/// Where the pointer's block is live and has `size` bytes, it becomes free. At most 31 touches, and one where it isn't.
#[inline(always)]
pub(crate) fn free_sized(store: &mut Store, ptr: Ptr, size: u64) -> bool
    requires { Stands store.old.cells }
    ensures stands { Stands store.new.cells }
    ensures found { (result ≡ true) ↔ (block_size_ptr ptr (content_of store.old.cells) ≡ Ok size) }
    ensures freed { result ≡ true → free_ptr ptr (content_of store.old.cells) ≡ Ok (content_of store.new.cells) }
    ensures cells { result ≡ false → store.new.cells ≡ store.old.cells }
    ensures reads_one { result ≡ false → AtMost block_size_touches store.old.touches store.new.touches }
    ensures touches { AtMost (free_touches + 1) store.old.touches store.new.touches }
{
    if !has_block(store, ptr, size) {
        return false;
    }
    let slot = Slot(ptr.slot());
    let block = store.read_used(slot);
    release(store, slot, &block);
    true
}

/// The record of the live block that has the pointer's place and slot, if there is one. At most one
/// touch.
pub(crate) fn live(store: &mut Store, ptr: Ptr) -> Option<Record>
    requires { Stands store.old.cells }
    ensures value { is_some result ≡ is_live (λ slot. slot == ptr.slot) ptr.place (blocks_of (content_of store.old.cells).pools) }
    ensures read { IfSome result (λ block. IsRecordOf block ptr store.old.cells.records) }
    ensures left { Leaves store.old.cells 1 store.old store.new }
{
    if u32::from(ptr.slot()) >= store.records() {
        return None;
    }
    let block = store.read(Slot(ptr.slot()));
    if !is_live_at(&block, ptr.place()) {
        return None;
    }
    Some(block)
}

/// Whether the pointer's block is live and has `size` bytes. At most one touch.
#[inline(always)]
pub(crate) fn has_block(store: &mut Store, ptr: Ptr, size: u64) -> bool
    requires { Stands store.old.cells }
    ensures value { (result ≡ true) ↔ (block_size_ptr ptr (content_of store.old.cells) ≡ Ok size) }
    ensures left { Leaves store.old.cells block_size_touches store.old store.new }
{
    if u32::from(ptr.slot()) >= store.records() {
        return false;
    }
    if size % u64::from(UNIT) != 0 {
        return false;
    }
    store.is_live(Slot(ptr.slot()), ptr.place(), size)
}

/// Whether the record is of a live block that begins at the place.
fn is_live_at(block: &Record, place: u32) -> bool
    ensures { result ≡ (is_live_state block.now.state && (block.now.place == place)) }
{
    block.state.is_live() && block.place == place
}

/// The block of this record becomes free, and one free block with its free neighbours in the pool. At
/// most 29 touches.
#[inline(always)]
pub(crate) fn release(store: &mut Store, slot: Slot, block: &Record)
    requires stands { (at : At) × StandsAt slot InUse store.old.cells at }
    requires read { block.now ≡ record_at store.old.cells.records slot }
    requires in_units { block.now.place % unit ≡ 0 }
    ensures leads { (at : At) → StandsAt slot InUse store.old.cells at → StandsAt (at_freed at).node.slot Listed store.new.cells (at_freed at) }
    ensures touches { AtMost 29 store.old.touches store.new.touches }
{
    let merged = merge_previous(store, block.prev, Span::of(slot, block));
    let all = merge_next(store, merged);
    enter(store, all.slot, all.size);
}

/// The live block is merged with a free one before it, of the slot `previous`, and stays live. The answer is the
/// block that is left. At most 11 touches.
#[inline(always)]
fn merge_previous(store: &mut Store, previous: Option<Slot>, block: Span) -> Span
    requires stands { (at : At) × StandsAt block.slot InUse store.old.cells at }
    requires read { IsRead block store.old.cells.records }
    requires previous { previous ≡ (record_at store.old.cells.records block.slot).prev }
    ensures leads { (at : At) → StandsAt block.slot InUse store.old.cells at → StandsAt result.slot InUse store.new.cells (previous_merged at) }
    ensures read { IsRead result store.new.cells.records }
    ensures touches { AtMost 11 store.old.touches store.new.touches }
{
    let Some(previous_slot) = previous else {
        return block;
    };
    let front = store.read_used(previous_slot);
    if !front.state.is_free() {
        return block;
    }
    let merged = Span {
        slot: previous_slot,
        place: front.place,
        size: front.size + block.size,
        next: block.next,
    };
    merge(store, &merged, block.slot, &front);
    merged
}

/// The live block is merged with a free one after it, and stays live. The answer is the block that is left, under
/// its slot. At most 11 touches.
#[inline(always)]
pub(crate) fn merge_next(store: &mut Store, block: Span) -> Span
    requires stands { (at : At) × StandsAt block.slot InUse store.old.cells at }
    requires read { IsRead block store.old.cells.records }
    ensures slot { result.slot ≡ block.slot }
    ensures leads { (at : At) → StandsAt block.slot InUse store.old.cells at → StandsAt block.slot InUse store.new.cells (next_merged at) }
    ensures read { IsRead result store.new.cells.records }
    ensures touches { AtMost 11 store.old.touches store.new.touches }
{
    let Some(next_slot) = block.next else {
        return block;
    };
    let next = store.read_used(next_slot);
    if !next.state.is_free() {
        return block;
    }
    let merged = Span {
        size: block.size + next.size,
        next: next.next,
        ..block
    };
    merge(store, &merged, next_slot, &next);
    merged
}

/// One of two neighbours, of the record `listed`, leaves its class's list. The two are merged: the
/// first is live, and what `merged` says. At most ten touches.
#[inline(always)]
fn merge(store: &mut Store, merged: &Span, behind: Slot, listed: &Record)
    requires { CanMerge merged.now behind listed.now store.old.cells.records (unlinked_by (class listed.now.size) listed.now store.old.cells).records }
    ensures { Leaves (merged_by merged.now behind listed.now store.old.cells) 10 store.old store.new }
{
    unlink(store, listed);
    store.set_block(merged.slot, merged.size, State::Live, merged.next);
    set_prev(store, merged.next, merged.slot);
    store.give_vacant(behind);
}

/// The live block of `size` bytes becomes free, the first of its class's list. At most seven touches.
pub(crate) fn enter(store: &mut Store, slot: Slot, size: u32)
    requires stands { (at : At) × StandsAt slot InUse store.old.cells at }
    requires size { size ≡ (record_at store.old.cells.records slot).size }
    ensures leads { (at : At) → StandsAt slot InUse store.old.cells at → StandsAt slot Listed store.new.cells (at_listed at) }
    ensures touches { AtMost 7 store.old.touches store.new.touches }
{
    let class = class_of(size);
    let first = store.head(class);
    store.set_free(slot, size, first);
    put_first(store, class, slot, &first);
}
