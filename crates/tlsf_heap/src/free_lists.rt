//! The free lists: for each class its free blocks, linked both ways.

ghost use Rattle.std.specs.Prelude.{◌≡◌, ◌%◌, ◌<◌, ◌≤◌, Some, None};
ghost use Rattle.tlsf_class.specs.Classes.{unit, class, greatest_size};
ghost use Rattle.tlsf_heap.specs.Inner.Edits.{IsUsed, put_first, unlinked_by};
ghost use Rattle.tlsf_heap.specs.Inner.Answers.{Leaves};

use crate::bitmaps::{clear_class_bit, set_class_bit};
use tlsf_class::{Class, class_of};
use tlsf_store::{Record, Slot, Store};

/// Puts a free block, whose record has its links, in front of its class's list, which begins with `first`. At most five
/// touches.
pub(crate) fn put_first(store: &mut Store, class: Class, slot: Slot, first: &Option<Slot>)
    requires slot_used { IsUsed store.old.cells.records (Some slot) }
    requires first_used { IsUsed store.old.cells.records first.now }
    ensures { Leaves (put_first class slot first.now store.old.cells) 5 store.old store.new }
{
    if let Some(second) = *first {
        store.set_prev_free(second, Some(slot));
    }
    store.set_head(class, Some(slot));
    if first.is_none() {
        set_class_bit(store, class);
    }
}

/// Takes the free block of this record out of its class's list, wherever it stands in it. At most five
/// touches.
pub(crate) fn unlink(store: &mut Store, block: &Record)
    requires some { 0 < block.now.size }
    requires whole { block.now.size % unit ≡ 0 }
    requires most { block.now.size ≤ greatest_size }
    requires prev_used { IsUsed store.old.cells.records block.now.prev_free }
    requires next_used { IsUsed store.old.cells.records block.now.next_free }
    ensures { Leaves (unlinked_by (class block.now.size) block.now store.old.cells) 5 store.old store.new }
{
    let Some(prev) = block.prev_free else {
        return unlink_first(store, class_of(block.size), block);
    };
    if let Some(next) = block.next_free {
        store.set_prev_free(next, block.prev_free);
    }
    store.set_next_free(prev, block.next_free);
}

/// Takes the first free block of this class's list out of it. At most five touches.
pub(crate) fn unlink_first(store: &mut Store, class: Class, block: &Record)
    requires first { block.now.prev_free ≡ None }
    requires next_used { IsUsed store.old.cells.records block.now.next_free }
    ensures { Leaves (unlinked_by class block.now store.old.cells) 5 store.old store.new }
{
    if let Some(second) = block.next_free {
        store.set_prev_free(second, None);
        store.set_head(class, Some(second));
    } else {
        store.set_head(class, None);
        clear_class_bit(store, class);
    }
}
