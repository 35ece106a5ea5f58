//! malloc: the block picked is taken, whole or in part.

ghost use Rattle.std.specs.Prelude.{◌≡◌, ℕ, false, ◌%◌, ◌<◌, ◌≤◌, Some, None, Err, MatchOption};
ghost use Rattle.tlsf_class.specs.Classes.{unit};
ghost use Rattle.tlsf_store.specs.Records.{record_at, vacant_count};
ghost use Rattle.tlsf_heap.specs.Touches.{AtMost, malloc_touches, malloc_or_own_touches};
ghost use Rattle.tlsf_heap.specs.Content.{IsSize};
ghost use Rattle.tlsf_heap.specs.Lists.{pick};
ghost use Rattle.tlsf_heap.specs.Malloc.{malloc, malloc_picked, malloc_rounded};
ghost use Rattle.tlsf_heap.specs.OwnClass.{own_first, malloc_or_own};
ghost use Rattle.tlsf_heap.specs.Served.{IsServed};
ghost use Rattle.tlsf_heap.specs.Inner.Following.{Stands, content_of};
ghost use Rattle.tlsf_heap.specs.Inner.Nodes.{NodeState, InUse, Listed, is_listed_state};
ghost use Rattle.tlsf_heap.specs.Inner.At.{At, StandsAt, with_slot, at_turned, at_taken, at_split_off, at_split_rest};
ghost use Rattle.tlsf_heap.specs.Inner.Spans.{IsRead, IsOfClass};
ghost use Rattle.tlsf_heap.specs.Inner.Answers.{AnswersOver, IsPickOf, IsTakeable, IsFirstFor, Leaves};

use crate::chains::{split, turn};
use crate::free_lists::{put_first, unlink_first};
use crate::search::search;
use crate::span::Span;
use crate::{Ptr, Refusal};
use tlsf_class::{Class, class_for, class_of, round};
use tlsf_store::{Record, Slot, State, Store};

/// A live block of `n` bytes, rounded up to the unit. At most 21 touches.
///
/// # Errors
///
/// As `Heap::malloc`.
#[inline(always)]
pub(crate) fn malloc(store: &mut Store, n: u64) -> Result<Ptr, Refusal>
    requires { Stands store.old.cells }
    ensures { AnswersOver result (IsServed (λ slot. malloc slot n)) (λ refusal old. (slot : ℕ) → malloc slot n old ≡ Err refusal) malloc_touches store.old store.new }
{
    if n == 0 {
        return Err(Refusal::ZeroSize);
    }
    let asked = round(n).ok_or(Refusal::NoFit)?;
    allocate(store, asked)
}

/// A live block of `asked` bytes: the first of those that the block picked has. At most 21 touches.
///
/// # Errors
///
/// `NoFit` where none is picked; `TableFull` where a rest would be left and no record is vacant.
#[inline(always)]
pub(crate) fn allocate(store: &mut Store, asked: u32) -> Result<Ptr, Refusal>
    requires stands { Stands store.old.cells }
    requires size { IsSize asked }
    ensures { AnswersOver result (IsServed (λ slot. malloc_rounded slot (Some asked))) (λ refusal old. (slot : ℕ) → malloc_rounded slot (Some asked) old ≡ Err refusal) malloc_touches store.old store.new }
{
    let class = pick(store, asked).ok_or(Refusal::NoFit)?;
    let slot = store.first(class);
    take(store, class, slot, asked)
}

/// The same. Where no block is picked the first of the class that the bytes are in is taken, if it has them. At
/// most 23 touches.
///
/// # Errors
///
/// As `Heap::malloc_or_own`.
#[inline(always)]
pub(crate) fn malloc_or_own(store: &mut Store, n: u64) -> Result<Ptr, Refusal>
    requires { Stands store.old.cells }
    ensures { AnswersOver result (IsServed (λ slot. malloc_or_own slot n)) (λ refusal old. (slot : ℕ) → malloc_or_own slot n old ≡ Err refusal) malloc_or_own_touches store.old store.new }
{
    if n == 0 {
        return Err(Refusal::ZeroSize);
    }
    let asked = round(n).ok_or(Refusal::NoFit)?;
    let class = match pick(store, asked) {
        Some(class) => class,
        None => own_class(store, asked).ok_or(Refusal::NoFit)?,
    };
    let slot = store.first(class);
    take(store, class, slot, asked)
}

/// The class that `asked` bytes are in, if the first block of its list has as many. At most two touches.
#[cold]
#[inline(never)]
fn own_class(store: &mut Store, asked: u32) -> Option<Class>
    requires stands { Stands store.old.cells }
    requires size { IsSize asked }
    ensures found { MatchOption result (own_first asked (content_of store.old.cells) ≡ None) (λ class. IsFirstFor asked (own_first asked (content_of store.old.cells)) class store.old.cells) }
    ensures left { Leaves store.old.cells 2 store.old store.new }
{
    let class = class_of(asked);
    let slot = store.head(class)?;
    let block = store.read_used(slot);
    if block.size < asked {
        return None;
    }
    Some(class)
}

/// The class of the first list that isn't empty, at or above the class from which each block holds `asked`
/// bytes. At most three touches.
#[inline(always)]
pub(crate) fn pick(store: &mut Store, asked: u32) -> Option<Class>
    requires stands { Stands store.old.cells }
    requires whole { asked % unit ≡ 0 }
    requires some { 0 < asked }
    ensures found { MatchOption result (pick asked (content_of store.old.cells).lists ≡ None) (λ class. IsPickOf asked class store.old.cells) }
    ensures left { Leaves store.old.cells 3 store.old store.new }
{
    let least = class_for(asked)?;
    search(store, least)
}

/// The first `asked` bytes of a block that may be taken, of this class, are a live block. At most 17 touches.
///
/// # Errors
///
/// `TableFull` where a rest would be left and no record is vacant; then the cells are as they were.
#[inline(always)]
fn take(store: &mut Store, class: Class, slot: Slot, asked: u32) -> Result<Ptr, Refusal>
    requires stands { Stands store.old.cells }
    requires size { IsSize asked }
    requires takeable { IsTakeable asked class slot store.old.cells }
    ensures { AnswersOver result (IsServed (λ owner. malloc_picked owner asked (Some (record_at store.old.cells.records slot).place))) (λ refusal old. (owner : ℕ) → malloc_picked owner asked (Some (record_at store.old.cells.records slot).place) old ≡ Err refusal) 17 store.old store.new }
{
    let block = store.read_used(slot);
    if block.size == asked {
        take_whole(store, class, slot, &block);
    } else {
        let Some(rest) = store.take_vacant() else {
            return Err(Refusal::TableFull);
        };
        unlink_first(store, class, &block);
        split_off(store, &Span::of(slot, &block), rest, asked);
    }
    Ok(Ptr::new(block.place, slot.0))
}

/// A free block of this record leaves the list of its class and is live. At most six touches.
pub(crate) fn take_whole(store: &mut Store, class: Class, slot: Slot, block: &Record)
    requires stands { (at : At) × StandsAt slot Listed store.old.cells at }
    requires read { block.now ≡ record_at store.old.cells.records slot }
    requires of_class { IsOfClass class block.now }
    requires first { block.now.prev_free ≡ None }
    requires in_units { block.now.place % unit ≡ 0 }
    ensures leads { (at : At) → StandsAt slot Listed store.old.cells at → StandsAt slot InUse store.new.cells (at_taken at) }
    ensures touches { AtMost 6 store.old.touches store.new.touches }
{
    unlink_first(store, class, block);
    let whole = Span::of(slot, block);
    turn(store, &whole, State::Live);
}

/// A block that is in no list keeps its first bytes and is live. What is left is a free block of the slot
/// `rest`, first in its class's list. At most nine touches.
fn split_off(store: &mut Store, block: &Span, rest: Slot, bytes: u32)
    requires stands { (node_state : NodeState) × (at : At) × (is_listed_state node_state ≡ false) × StandsAt block.now.slot node_state store.old.cells (with_slot rest at) }
    requires read { IsRead block.now store.old.cells.records }
    requires some { 0 < bytes }
    requires less { bytes < block.now.size }
    requires whole { bytes % unit ≡ 0 }
    ensures leads { (node_state : NodeState) (at : At) → is_listed_state node_state ≡ false → StandsAt block.now.slot node_state store.old.cells (with_slot rest at) → StandsAt rest Listed store.new.cells (at_split_off rest bytes (at_turned InUse at)) }
    ensures touches { AtMost 9 store.old.touches store.new.touches }
{
    let class = class_of(block.size - bytes);
    let first = store.head(class);
    split(store, block, rest, State::Free, first, bytes);
    put_first(store, class, rest, &first);
}

/// A live block keeps its first bytes. What is left, where anything is, is a free block first in its
/// class's list. At most 11 touches.
pub(crate) fn split_rest(store: &mut Store, block: &Span, bytes: u32)
    requires stands { (at : At) × StandsAt block.now.slot InUse store.old.cells at }
    requires read { IsRead block.now store.old.cells.records }
    requires most { bytes ≤ block.now.size }
    requires some { 0 < bytes }
    requires whole { bytes % unit ≡ 0 }
    requires room { bytes < block.now.size → 0 < vacant_count store.old.cells.records }
    ensures leads { (at : At) → StandsAt block.now.slot InUse store.old.cells at → (rest : ℕ) × StandsAt block.now.slot InUse store.new.cells (at_split_rest rest bytes at) }
    ensures touches { AtMost 11 store.old.touches store.new.touches }
{
    if block.size == bytes {
        return;
    }
    let Some(rest) = store.take_vacant() else {
        unreachable!()
    };
    split_off(store, block, rest, bytes);
}
