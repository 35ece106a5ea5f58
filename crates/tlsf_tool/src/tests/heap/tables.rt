//! Tables that are spoiled are told from whole ones.

ghost use Rattle.std.specs.Prelude.{◌≡◌, ◌≢◌, true};
ghost use Rattle.tlsf_store.specs.declared.records.State.TheVariants.{Vacant};
ghost use Rattle.tlsf_store.specs.Records.{IsBelow, IsKept};

use crate::tests::expect_eq;
use std::alloc::Global;
use std::process::Abort;
use tlsf_class::{UNIT, class_of};
use tlsf_heap::is_whole;
use tlsf_store::{GhostCount, Pool, Record, Slot, State, Store};

/// The slots of the four blocks of a filled store.
const FIRST: Slot = Slot(7);

const SECOND: Slot = Slot(6);

const THIRD: Slot = Slot(5);

const LAST: Slot = Slot(4);

/// A block that is alone in its list, if it is in one.
fn block(place: u32, size: u32, state: State, prev: Option<Slot>, next: Option<Slot>) -> Record {
    Record {
        place,
        size,
        state,
        prev,
        next,
        prev_free: None,
        next_free: None,
    }
}

/// The blocks of a pool of 1,024 bytes, each with its slot. They are a free one of 112 bytes, live ones of 16 and
/// 112 bytes, and a free one of 784 bytes.
fn blocks() -> [(Slot, Record); 4] {
    [
        (FIRST, block(0, 112, State::Free, None, Some(SECOND))),
        (
            SECOND,
            block(112, 16, State::Live, Some(FIRST), Some(THIRD)),
        ),
        (
            THIRD,
            block(128, 112, State::Live, Some(SECOND), Some(LAST)),
        ),
        (LAST, block(240, 784, State::Free, Some(THIRD), None)),
    ]
}

/// Whether the link is none, or of one of this many records.
fn is_below(slot: Option<Slot>, count: u32) -> bool
    ensures { result ≡ true → IsBelow count slot }
{
    match slot {
        Some(slot) => u32::from(slot.0) < count,
        None => true,
    }
}

/// Whether a store of this many records can hold the record of a block.
fn can_be_kept(block: &Record, count: u32) -> bool
    ensures used { result ≡ true → block.now.state ≢ Vacant }
    ensures kept { result ≡ true → IsKept count block.now }
{
    block.state != State::Vacant
        && block.place % UNIT == 0
        && block.size % UNIT == 0
        && is_below(block.prev, count)
        && is_below(block.next, count)
        && is_below(block.prev_free, count)
        && is_below(block.next_free, count)
}

/// Writes a block over another.
fn write(rt: &impl Abort, store: &mut Store, slot: Slot, block: Record) {
    let count = store.records();
    assert!(rt; u32::from(slot.0) < count);
    let old = store.read(slot);
    assert!(rt; block != old && old.state != State::Vacant && can_be_kept(&block, count));
    store.write(slot, block);
}

/// Whether a store is that of a heap.
fn is_whole_store(store: &Store) -> bool {
    is_whole(store.words(), &mut GhostCount::new())
}

/// A store of eight records with a pool of four blocks.
fn filled(rt: &impl Abort, alloc: Global) -> Store {
    let mut store = match Store::create(alloc, 8) {
        Ok(store) => store,
        Err(_) => panic!(rt; "no store"),
    };
    for (slot, block) in blocks() {
        expect_eq(rt, store.take_vacant(), Some(slot));
        write(rt, &mut store, slot, block);
    }
    assert!(rt; u32::from(FIRST.0) < store.records() && u32::from(LAST.0) < store.records());
    store.set_head(class_of(112), Some(FIRST));
    store.set_head(class_of(784), Some(LAST));
    store.set_level_word(0b11);
    store.set_step_word(0, 1 << 7);
    store.set_step_word(1, 1 << 17);
    let pool = Pool {
        base: 0,
        bytes: 1024,
        first: FIRST,
    };
    store.set_pool(0, Some(pool));
    store
}

/// A field of a block's record, with what is written into it.
#[derive(Clone, Copy)]
enum Field {
    Place(u32),
    Size(u32),
    State(State),
    Prev(Option<Slot>),
    Next(Option<Slot>),
    PrevFree(Option<Slot>),
    NextFree(Option<Slot>),
}

/// The record with the field written.
fn with_field(block: Record, field: Field) -> Record {
    let mut edited = block;
    match field {
        Field::Place(place) => edited.place = place,
        Field::Size(size) => edited.size = size,
        Field::State(state) => edited.state = state,
        Field::Prev(slot) => edited.prev = slot,
        Field::Next(slot) => edited.next = slot,
        Field::PrevFree(slot) => edited.prev_free = slot,
        Field::NextFree(slot) => edited.next_free = slot,
    }
    edited
}

/// Writes a field of a block's record, which has another value.
fn edit(rt: &impl Abort, store: &mut Store, slot: Slot, field: Field) {
    assert!(rt; u32::from(slot.0) < store.records());
    let old = store.read(slot);
    write(rt, store, slot, with_field(old, field));
}

#[test]
fn whole(rt: HostRuntime) {
    let mut store = filled(&rt, rt.alloc());
    assert!(rt; is_whole_store(&store));
}

/// Fields of blocks that spoil a filled store: in chains and then in lists.
const SPOILED_FIELDS: [(Slot, Field); 17] = [
    (FIRST, Field::Prev(Some(LAST))),
    (SECOND, Field::Prev(None)),
    (SECOND, Field::Prev(Some(THIRD))),
    (SECOND, Field::Next(Some(LAST))),
    (THIRD, Field::Next(None)),
    (LAST, Field::Next(Some(FIRST))),
    (SECOND, Field::Size(0)),
    (SECOND, Field::Size(32)),
    (LAST, Field::Size(768)),
    (THIRD, Field::Place(144)),
    (THIRD, Field::State(State::Free)),
    (FIRST, Field::PrevFree(Some(LAST))),
    (FIRST, Field::NextFree(Some(LAST))),
    (FIRST, Field::NextFree(Some(FIRST))),
    (LAST, Field::PrevFree(Some(LAST))),
    (FIRST, Field::State(State::Live)),
    (FIRST, Field::Size(0)),
];

#[test]
fn fields_spoiled(rt: HostRuntime) {
    for (slot, field) in SPOILED_FIELDS {
        let mut store = filled(&rt, rt.alloc());
        edit(&rt, &mut store, slot, field);
        assert!(rt; !is_whole_store(&store));
    }
}

/// A level word and the step words of the levels 0 and 1, with what is wrong with them in a filled store. Its free
/// blocks are of the classes 7 and 49.
const SPOILED_BITMAPS: [(u32, u32, u32); 7] = [
    // The bit of a class without a block.
    (0b11, 1 << 7 | 1, 1 << 17),
    (0b11, 1 << 7, 1 << 17 | 1 << 31),
    // No bit of a class with a block.
    (0b10, 0, 1 << 17),
    (0b01, 1 << 7, 0),
    // The bit of a level without a class, and no bit of one with a class.
    (0b11 | 1 << 21, 1 << 7, 1 << 17),
    (0b10, 1 << 7, 1 << 17),
    (0b01, 1 << 7, 1 << 17),
];

/// A filled store with these bitmaps.
fn with_bitmaps(rt: &impl Abort, alloc: Global, levels: u32, first: u32, second: u32) -> Store {
    let mut store = filled(rt, alloc);
    assert!(rt; levels < 1 << 22);
    store.set_level_word(levels);
    store.set_step_word(0, first);
    store.set_step_word(1, second);
    store
}

#[test]
fn bitmaps_spoiled(rt: HostRuntime) {
    let mut store = with_bitmaps(&rt, rt.alloc(), 0b11, 1 << 7, 1 << 17);
    assert!(rt; is_whole_store(&store));
    for (levels, first, second) in SPOILED_BITMAPS {
        let mut store = with_bitmaps(&rt, rt.alloc(), levels, first, second);
        assert!(rt; !is_whole_store(&store));
    }
    let mut store = filled(&rt, rt.alloc());
    store.set_head(class_of(112), None);
    assert!(rt; !is_whole_store(&store));
}

/// The entry of a pool behind one that is vacant.
#[test]
fn gap_between_pools(rt: HostRuntime) {
    let mut store = filled(&rt, rt.alloc());
    let pool = store.pool(0);
    assert!(rt; pool.is_some());
    store.set_pool(0, None);
    store.set_pool(1, pool);
    assert!(rt; !is_whole_store(&store));
    store.set_pool(0, pool);
    store.set_pool(1, None);
    assert!(rt; is_whole_store(&store));
}

/// A record in use that is of no chain, and a pool whose entry is gone.
#[test]
fn counts_spoiled(rt: HostRuntime) {
    let mut store = filled(&rt, rt.alloc());
    assert!(rt; store.take_vacant().is_some());
    assert!(rt; !is_whole_store(&store));
    let mut store = filled(&rt, rt.alloc());
    store.set_pool(0, None);
    assert!(rt; !is_whole_store(&store));
}
