//! The chain of a pool: its blocks in order of place, linked both ways.

ghost use Rattle.std.specs.Prelude.{◌≡◌, ◌≢◌, ◌+◌, ◌%◌, ◌<◌, ◌≤◌, length, Some};
ghost use Rattle.tlsf_class.specs.Classes.{unit};
ghost use Rattle.tlsf_store.specs.declared.records.State.TheVariants.{Vacant};
ghost use Rattle.tlsf_store.specs.Records.{IsBelow};
ghost use Rattle.tlsf_heap.specs.Pools.{end_of_places};
ghost use Rattle.tlsf_heap.specs.Inner.Edits.{IsUsed, with_prev, with_state};
ghost use Rattle.tlsf_heap.specs.Inner.Spans.{IsRead, split_by};
ghost use Rattle.tlsf_store.specs.CountedCells.{LeavesAfter};
ghost use Rattle.tlsf_heap.specs.Inner.Answers.{Leaves};

use crate::span::Span;
use tlsf_store::{Record, Slot, State, Store};

/// Makes a block free or live. One touch.
pub(crate) fn turn(store: &mut Store, block: &Span, state: State)
    requires used { IsUsed store.old.cells.records (Some block.now.slot) }
    requires new_used { state ≢ Vacant }
    requires read { IsRead block.now store.old.cells.records }
    requires in_units { block.now.size % unit ≡ 0 }
    ensures { LeavesAfter (with_state block.now.slot state store.old.cells) 1 store.old store.new }
{
    store.set_state(block.slot, block.size, state);
}

/// Links a block, if there is one, to the one in front of it in its pool. At most one touch.
pub(crate) fn set_prev(store: &mut Store, slot: Option<Slot>, prev: Slot)
    requires used { IsUsed store.old.cells.records slot }
    requires below { prev < length store.old.cells.records }
    ensures { Leaves (with_prev slot (Some prev) store.old.cells) 1 store.old store.new }
{
    if let Some(slot) = slot {
        store.set_prev(slot, Some(prev));
    }
}

/// A block keeps its first bytes, and is live. What is left is a block of the slot `rest` behind it, in the state `back`, in
/// front of the slot `second` in a list. At most three touches.
pub(crate) fn split(
    store: &mut Store,
    block: &Span,
    rest: Slot,
    back: State,
    second: Option<Slot>,
    bytes: u32,
)
    requires slot_used { IsUsed store.old.cells.records (Some block.now.slot) }
    requires rest_used { IsUsed store.old.cells.records (Some rest) }
    requires next_used { IsUsed store.old.cells.records block.now.next }
    requires second_below { IsBelow (length store.old.cells.records) second }
    requires back_used { back ≢ Vacant }
    requires less { bytes < block.now.size }
    requires in_units { bytes % unit ≡ 0 }
    requires place_in_units { block.now.place % unit ≡ 0 }
    requires size_in_units { block.now.size % unit ≡ 0 }
    requires ends { block.now.place + block.now.size ≤ end_of_places }
    ensures { Leaves (split_by block.now rest back second bytes store.old.cells) 3 store.old store.new }
{
    let left = Record {
        place: block.place + bytes,
        size: block.size - bytes,
        state: back,
        prev: Some(block.slot),
        next: block.next,
        prev_free: None,
        next_free: second,
    };
    store.write(rest, left);
    store.set_block(block.slot, bytes, State::Live, Some(rest));
    set_prev(store, block.next, rest);
}
