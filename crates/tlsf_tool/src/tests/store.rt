//! Rows of the store, and each call once.

ghost use Rattle.std.specs.Prelude.{◌↔◌, IsTrue, length};
ghost use Rattle.tlsf_store.specs.Records.{IsBelow};

use std::process::Abort;
use tlsf_class::{Class, UNIT};
use tlsf_store::{GhostCount, MOST_RECORDS, Pool, Record, Slot, State, Store, StoreError};

/// Makes a record vacant of which the caller knows that it isn't.
fn give(rt: &impl Abort, store: &mut Store, slot: Slot) {
    assert!(rt; u32::from(slot.0) < store.records());
    assert!(rt; store.read(slot).state != State::Vacant);
    store.give_vacant(slot);
}

/// Reads a record of which the caller knows that it is there.
fn read(rt: &impl Abort, store: &mut Store, slot: Slot) -> Record {
    assert!(rt; u32::from(slot.0) < store.records());
    store.read(slot)
}

/// Whether a link is missing, or a slot of this store.
fn is_below(store: &Store, link: Option<Slot>) -> bool
    ensures { IsTrue result ↔ IsBelow (length store.now.cells.records) link }
{
    match link {
        None => true,
        Some(slot) => u32::from(slot.0) < store.records(),
    }
}

/// Writes over a record of which the caller knows that it isn't vacant.
fn write(rt: &impl Abort, store: &mut Store, slot: Slot, value: Record) {
    assert!(rt; u32::from(slot.0) < store.records());
    assert!(rt; store.read(slot).state != State::Vacant);
    assert!(rt; value.place % UNIT == 0 && value.size % UNIT == 0);
    assert!(rt; value.state != State::Vacant);
    assert!(rt; is_below(store, value.prev) && is_below(store, value.next));
    assert!(rt; is_below(store, value.prev_free) && is_below(store, value.next_free));
    store.write(slot, value);
}

/// Writes each part of a record alone, of which the caller knows that it isn't vacant, with links to another.
fn write_parts(rt: &impl Abort, store: &mut Store, slot: Slot, other: Slot) {
    assert!(rt; u32::from(slot.0) < store.records() && u32::from(other.0) < store.records());
    assert!(rt; store.read(slot).state != State::Vacant);
    store.set_block(slot, 48, State::Live, Some(other));
    assert!(rt; store.read(slot).state != State::Vacant);
    store.set_prev(slot, None);
    assert!(rt; store.read(slot).state != State::Vacant);
    store.set_prev_free(slot, Some(other));
    assert!(rt; store.read(slot).state != State::Vacant);
    store.set_next_free(slot, None);
}

/// Makes a record, of which the caller knows that it isn't vacant, that of a free block of 64 bytes in front of another.
fn set_free(rt: &impl Abort, store: &mut Store, slot: Slot, other: Slot) {
    assert!(rt; u32::from(slot.0) < store.records() && u32::from(other.0) < store.records());
    assert!(rt; store.read(slot).state != State::Vacant);
    store.set_free(slot, 64, Some(other));
}

/// A record of these fields.
fn row(
    (place, size): (u32, u32),
    state: State,
    (prev, next): (Option<Slot>, Option<Slot>),
    (prev_free, next_free): (Option<Slot>, Option<Slot>),
) -> Record {
    Record {
        place,
        size,
        state,
        prev,
        next,
        prev_free,
        next_free,
    }
}

#[test]
fn bad_counts(rt: HostRuntime) {
    assert_eq!(rt;
        Store::create(rt.alloc(), 0).err(),
        Some(StoreError::BadCount)
    );
    assert_eq!(rt;
        Store::create(rt.alloc(), MOST_RECORDS + 1).err(),
        Some(StoreError::BadCount)
    );
}

/// Whether its words are those of a store, as they always are.
fn has_kept_words(store: &Store) -> bool {
    store.words().kept(&mut GhostCount::new()).is_some()
}

/// Each call of a store once, and then another store. Its memory is the second that is taken, for no call but
/// `create` takes any. So this test fails where the first or the second allocation is refused, and passes where the
/// third is.
#[test]
fn memory_taken_once(rt: HostRuntime) {
    let mut store = Store::create(rt.alloc(), 3).expect(&rt, "a store");
    let slot = store.take_vacant().expect(&rt, "a slot");
    let value = row((16, 112), State::Live, (None, None), (None, None));
    write(&rt, &mut store, slot, value);
    assert_eq!(rt; read(&rt, &mut store, slot), value);
    let class = Class::new(703);
    store.set_head(class, None);
    assert_eq!(rt; store.head(class), None);
    store.set_level_word(1);
    assert_eq!(rt; store.level_word(), 1);
    store.set_step_word(21, 1);
    assert_eq!(rt; store.step_word(21), 1);
    let pool = Some(Pool {
        base: 64,
        bytes: 1_024,
        first: Slot(1),
    });
    assert_eq!(rt; store.records(), 3);
    store.set_pool(7, pool);
    assert_eq!(rt; store.pool(7), pool);
    give(&rt, &mut store, slot);
    assert_eq!(rt; store.vacant(), 3);
    assert!(rt; has_kept_words(&store));
    restart(&rt, &mut store);
    assert!(rt; Store::create(rt.alloc(), 1).is_ok(), "no second store");
}

/// Makes it a store of two records, with nothing in it.
fn restart(rt: &impl Abort, store: &mut Store) {
    if store.records() >= 2 {
        store.restart(2);
    }
    assert_eq!(rt; (store.records(), store.vacant()), (2, 2));
    assert_eq!(rt; store.pool(7), None);
    assert_eq!(rt; store.level_word(), 0);
    assert!(rt; has_kept_words(store));
}

#[test]
fn parts_of_a_record(rt: HostRuntime) {
    let Ok(mut store) = Store::create(rt.alloc(), 2) else {
        panic!(rt; "no store");
    };
    let slot = store.take_vacant().expect(&rt, "a slot");
    let other = store.take_vacant().expect(&rt, "another slot");
    let links = (Some(other), None);
    write(
        &rt,
        &mut store,
        slot,
        row((32, 16), State::Free, links, (None, Some(other))),
    );
    write_parts(&rt, &mut store, slot, other);
    let written = row(
        (32, 48),
        State::Live,
        (None, Some(other)),
        (Some(other), None),
    );
    assert_eq!(rt; read(&rt, &mut store, slot), written);
    set_free(&rt, &mut store, slot, other);
    let freed = row(
        (32, 64),
        State::Free,
        (None, Some(other)),
        (None, Some(other)),
    );
    assert_eq!(rt; read(&rt, &mut store, slot), freed);
}

/// Each other test that makes one store fails where the first allocation is refused, and passes where the second is.
/// This test sees the error of the first, and passes with both.
#[test]
fn refused_memory(rt: HostRuntime) {
    if let Some(error) = Store::create(rt.alloc(), 2).err() {
        assert_eq!(rt; error, StoreError::OutOfMemory);
        assert!(rt; Store::create(rt.alloc(), 2).is_ok());
    }
}

/// A new store of this many records has them all vacant, and each can be taken.
fn takes_each(rt: &impl Abort, store: &mut Store, count: u32) {
    assert_eq!(rt; store.records(), count);
    assert_eq!(rt; store.vacant(), count);
    for _record in 0..count {
        assert!(rt; store.take_vacant().is_some());
    }
    assert_eq!(rt; store.vacant(), 0);
    assert_eq!(rt; store.take_vacant(), None);
}

#[test]
fn one_record(rt: HostRuntime) {
    let Ok(mut store) = Store::create(rt.alloc(), 1) else {
        panic!(rt; "no store");
    };
    takes_each(&rt, &mut store, 1);
}

#[test]
fn thousand_records(rt: HostRuntime) {
    let Ok(mut store) = Store::create(rt.alloc(), 1_000) else {
        panic!(rt; "no store");
    };
    takes_each(&rt, &mut store, 1_000);
}

#[test]
fn greatest_count(rt: HostRuntime) {
    assert_eq!(rt; MOST_RECORDS, 65_535);
    let Ok(mut store) = Store::create(rt.alloc(), 65_535) else {
        panic!(rt; "no store");
    };
    takes_each(&rt, &mut store, 65_535);
}

#[test]
fn take_and_give(rt: HostRuntime) {
    let Ok(mut store) = Store::create(rt.alloc(), 2) else {
        panic!(rt; "no store");
    };
    assert_eq!(rt; store.vacant(), 2);
    let Some(first) = store.take_vacant() else {
        panic!(rt; "no first");
    };
    let Some(second) = store.take_vacant() else {
        panic!(rt; "no second");
    };
    assert_ne!(rt; first, second);
    assert_eq!(rt; store.take_vacant(), None);
    give(&rt, &mut store, first);
    assert_eq!(rt; store.vacant(), 1);
    assert_eq!(rt; store.take_vacant(), Some(first));
}

#[test]
fn records_are_kept(rt: HostRuntime) {
    let Ok(mut store) = Store::create(rt.alloc(), 3) else {
        panic!(rt; "no store");
    };
    let Some(slot) = store.take_vacant() else {
        panic!(rt; "no slot");
    };
    let taken = read(&rt, &mut store, slot);
    assert_eq!(rt; (taken.place, taken.size, taken.state), (0, 0, State::Free));
    let value = row((16, 112), State::Live, (None, Some(slot)), (None, None));
    write(&rt, &mut store, slot, value);
    let kept = read(&rt, &mut store, slot);
    assert_eq!(rt; (kept.place, kept.size, kept.state), (16, 112, State::Live));
    assert_eq!(rt;
        (kept.prev, kept.next, kept.prev_free, kept.next_free),
        (None, Some(slot), None, None)
    );
    give(&rt, &mut store, slot);
    let given = read(&rt, &mut store, slot);
    assert_eq!(rt;
        (given.place, given.size, given.state),
        (0, 0, State::Vacant)
    );
    assert_eq!(rt; given.next, None);
}

#[test]
fn heads_are_kept(rt: HostRuntime) {
    let Ok(mut store) = Store::create(rt.alloc(), 3) else {
        panic!(rt; "no store");
    };
    let class = Class::new(703);
    let slot = Some(Slot(2));
    assert_eq!(rt; store.head(class), None);
    store.set_head(class, slot);
    assert_eq!(rt; store.head(class), slot);
    assert_eq!(rt; store.head(Class::new(702)), None);
}

#[test]
fn words_are_kept(rt: HostRuntime) {
    let Ok(mut store) = Store::create(rt.alloc(), 3) else {
        panic!(rt; "no store");
    };
    assert_eq!(rt; store.level_word(), 0);
    store.set_level_word(1 << 21);
    assert_eq!(rt; store.level_word(), 1 << 21);
    assert_eq!(rt; store.step_word(21), 0);
    store.set_step_word(21, u32::MAX);
    assert_eq!(rt; store.step_word(21), u32::MAX);
    assert_eq!(rt; store.step_word(20), 0);
}

#[test]
fn pools_are_kept(rt: HostRuntime) {
    let Ok(mut store) = Store::create(rt.alloc(), 3) else {
        panic!(rt; "no store");
    };
    let pool = Some(Pool {
        base: 64,
        bytes: 1_024,
        first: Slot(1),
    });
    assert_eq!(rt; store.pool(7), None);
    store.set_pool(7, pool);
    assert_eq!(rt; store.pool(7), pool);
    assert_eq!(rt; store.pool(0), None);
}

/// A record is read as it was written, and as a vacant one when it is given back.
fn survives(rt: &impl Abort, store: &mut Store, value: Record) {
    let Some(slot) = store.take_vacant() else {
        panic!(rt; "no slot");
    };
    write(rt, store, slot, value);
    assert_eq!(rt; read(rt, store, slot), value);
    give(rt, store, slot);
    let given = read(rt, store, slot);
    assert_eq!(rt;
        (given.place, given.size, given.state),
        (0, 0, State::Vacant)
    );
    assert_eq!(rt; (given.prev, given.next), (None, None));
    assert_eq!(rt; (given.prev_free, given.next_free), (None, None));
}

/// A link to the least slot.
const FIRST: Option<Slot> = Some(Slot(0));

/// A link to the greatest slot.
const LAST: Option<Slot> = Some(Slot(65_534));

/// The greatest place and the greatest size.
const MOST: u32 = 4_294_967_280;

/// Records at the ends of what is packed: each link present and missing, the least and the greatest place,
/// size and slot, free and live.
#[test]
fn packed_records_survive(rt: HostRuntime) {
    let Ok(mut store) = Store::create(rt.alloc(), MOST_RECORDS) else {
        panic!(rt; "no store");
    };
    for value in [
        row((0, 0), State::Free, (None, None), (None, None)),
        row((16, 64), State::Free, (LAST, None), (None, FIRST)),
        row((16, 64), State::Live, (None, LAST), (FIRST, None)),
        row((0, MOST), State::Live, (FIRST, LAST), (Some(Slot(1)), LAST)),
        row(
            (MOST, 16),
            State::Free,
            (LAST, FIRST),
            (LAST, Some(Slot(32_768))),
        ),
        row((MOST, MOST), State::Live, (None, None), (LAST, None)),
    ] {
        survives(&rt, &mut store, value);
    }
}
