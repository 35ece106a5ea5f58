//! Worked images that are read, and bytes that break a rule.

use crate::tests::heap::image_bytes::vector;
use crate::tests::{expect_eq, expect_eq_at};
use std::process::Abort;
use tlsf_class::Class;
use tlsf_heap::{HasSections, Image, Rule};
use tlsf_store::{Slot, State, can_be_pool};

#[test]
fn vector_and_what_it_says(rt: HostRuntime) {
    let vector = vector();
    expect_eq(&rt, vector.broken(), None);
    let Ok(mut image) = Image::read(vector.as_slice()) else {
        panic!(rt; "no image");
    };
    expect_eq(&rt, image.count(), 1);
    expect_eq(&rt, image.head(Class::new(4)), Some(Slot(0)));
    expect_eq(&rt, image.head(Class::new(5)), None);
    let pool = image.pool(0).expect(&rt, "a pool");
    expect_eq(&rt, (pool.base, pool.bytes, pool.first), (0, 64, Slot(0)));
    expect_eq(&rt, image.pool(1), None);
    assert!(rt; u32::from(Slot(0).0) < image.count());
    let block = image.record(Slot(0));
    expect_eq(
        &rt,
        (block.place, block.size, block.state),
        (0, 64, State::Free),
    );
    expect_eq(
        &rt,
        (block.prev, block.next, block.prev_free, block.next_free),
        (None, None, None, None),
    );
}

/// A byte of the vector changed, and the rule that breaks first.
const CHANGED: [(usize, u8, Rule); 20] = [
    (0, 0x55, Rule::Magic),
    (7, 0x32, Rule::Magic),
    (8, 0, Rule::Length),
    (8, 2, Rule::Length),
    (10, 9, Rule::Length),
    (12, 1, Rule::Length),
    (15, 1, Rule::Length),
    (16, 8, Rule::Pools),
    (20, 72, Rule::Pools),
    (20, 0, Rule::Pools),
    (23, 0x40, Rule::Pools),
    (24, 1, Rule::Pools),
    (27, 1, Rule::Pools),
    (28, 1, Rule::UnusedPools),
    (111, 1, Rule::UnusedPools),
    (1_524, 0x43, Rule::States),
    (1_524, 0x40, Rule::States),
    (112, 0, Rule::Links),
    (1_520, 16, Rule::Cover),
    (1_524, 0x31, Rule::Cover),
];

#[test]
fn a_byte_changed(rt: HostRuntime) {
    for (offset, byte, rule) in CHANGED {
        let mut image = vector();
        image.put(offset, &[byte]);
        expect_eq_at(&rt, offset, image.broken(), Some(rule));
    }
}

/// Of two rules that are broken, the one that stands first is named.
#[test]
fn first_of_two(rt: HostRuntime) {
    let mut image = vector();
    image.put(120, &[0xff, 0xff]);
    image.put(1_520, &[16]);
    expect_eq(&rt, image.broken(), Some(Rule::Cover));
    image.put(1_528, &[0, 0]);
    expect_eq(&rt, image.broken(), Some(Rule::Chains));
    image.put(1_534, &[9, 0]);
    expect_eq(&rt, image.broken(), Some(Rule::Links));
    image.put(1_524, &[0x43]);
    expect_eq(&rt, image.broken(), Some(Rule::States));
    image.put(40, &[1]);
    expect_eq(&rt, image.broken(), Some(Rule::UnusedPools));
    image.put(16, &[1]);
    expect_eq(&rt, image.broken(), Some(Rule::Pools));
    image.put(13, &[1]);
    expect_eq(&rt, image.broken(), Some(Rule::Length));
    image.put(3, &[1]);
    expect_eq(&rt, image.broken(), Some(Rule::Magic));
}

/// Nothing, one byte too few in front of the records, and too few and too many for one record.
#[test]
fn wrong_lengths(rt: HostRuntime) {
    expect_eq(&rt, Image::read(&[]).err(), Some(Rule::Magic));
    for (len, rule) in [
        (1_519, Rule::Magic),
        (1_520, Rule::Length),
        (1_535, Rule::Length),
        (1_537, Rule::Length),
    ] {
        expect_eq_at(&rt, len, vector().of_len(len).broken(), Some(rule));
    }
}

#[test]
fn ranges_of_pools(rt: HostRuntime) {
    for (base, bytes, can) in [
        (0, 16, true),
        (16, 1_073_741_808, true),
        (4_294_967_280, 16, true),
        (4_294_967_280, 32, false),
        (8, 16, false),
        (0, 8, false),
        (0, 0, false),
        (0, 1_073_741_824, false),
        (u64::MAX - 15, 16, false),
    ] {
        assert_eq!(rt; can_be_pool(base, bytes), can, "{bytes} from {base}");
    }
}
