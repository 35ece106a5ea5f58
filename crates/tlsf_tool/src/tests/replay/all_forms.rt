//! Random lines of all forms, over both heaps side by side. What is wrong with each line, what is held after it
//! and the totals are the same.

use super::random_lines::Random;
use super::*;
use crate::tests::expect_eq_at;
use mtrace_log::{Addr, Location};

/// Little place and few records, so that lines are refused for want of either.
const SETTINGS: Settings = Settings {
    pool: 512,
    pools: 2,
    records: 12,
};

/// A number below the bound, and one more, as an address is spelled.
fn address(rt: &impl Abort, random: &mut Random, bound: u64) -> Addr {
    match Addr::new(random.below(bound).saturating_add(1)) {
        Some(addr) => addr,
        None => panic!(rt; "no address"),
    }
}

/// A power of two, the greatest of which no heap takes, or another small number.
fn alignment(rt: &impl Abort, random: &mut Random) -> Addr {
    let powers = [1, 2, 8, 16, 32, 64, 128, 256, 536_870_912, 1_073_741_824];
    let power = powers.get(random.below(10) as usize).copied();
    match power.and_then(Addr::new) {
        Some(align) if random.below(4) > 0 => align,
        _ => address(rt, random, 100),
    }
}

/// None, a few bytes, or more than any heap has.
fn size(random: &mut Random) -> u64 {
    match random.below(10) {
        0 => 0,
        1 => u64::MAX,
        _ => random.below(200),
    }
}

/// A line of any form, or one that is none.
fn random_line(rt: &impl Abort, random: &mut Random) -> Result<Event, LineFault> {
    let at = match random.below(2) {
        0 => Location::new(b"./prog:[0x1244]"),
        _ => None,
    };
    let addr = address(rt, random, 8);
    let align = alignment(rt, random);
    let size = size(random);
    match random.below(16) {
        0 => Ok(Event::Start),
        1 => Ok(Event::End),
        2 => Err(LineFault::TooLong),
        3 => Err(LineFault::NotALine),
        4 => Ok(Event::Alloc {
            at,
            addr: None,
            size,
        }),
        5 => Ok(Event::Failed {
            at,
            addr: Some(addr),
            size,
        }),
        6 | 7 => Ok(Event::Alloc {
            at,
            addr: Some(addr),
            size,
        }),
        8 | 9 => Ok(Event::Aligned {
            at,
            addr,
            align,
            size,
        }),
        10 | 11 => Ok(Event::Free { at, addr }),
        12 | 13 => Ok(Event::Old { at, addr }),
        _ => Ok(Event::New { at, addr, size }),
    }
}

/// Compares what is held.
fn expect_same_held(rt: &impl Abort, one: &Replay<Heap>, other: &Replay<PlainHeap>, line: u64) {
    let mut held = other.held();
    for entry in one.held() {
        match held.next() {
            Some(same) => expect_eq_at(rt, line, entry, same),
            None => panic!(rt; "line {line}: too few are held"),
        }
    }
    assert!(rt; held.next().is_none(), "line {line}: too many are held");
}

/// Feeds one line to each heap, and compares what comes of it. Answers whether it was refused for its alignment.
fn expect_same_line(
    rt: &impl Abort,
    line: u64,
    one: &mut Fed<Heap>,
    other: &mut Fed<PlainHeap>,
    events: (Result<Event, LineFault>, Result<Event, LineFault>),
) -> bool {
    let (Ok(diagnostics), Ok(other_diagnostics)) = (
        one.feed_event(rt, events.0),
        other.feed_event(rt, events.1),
    ) else {
        panic!(rt; "no memory");
    };
    expect_eq_at(rt, line, &diagnostics, &other_diagnostics);
    expect_eq_at(rt, line, one.replay.totals(), other.replay.totals());
    expect_same_held(rt, &one.replay, &other.replay, line);
    diagnostics
        .as_slice()
        .iter()
        .any(|d| matches!(d.kind, Kind::Refused(_, Refusal::BadAlign)))
}

/// Feeds this many lines to each heap, and answers how many were refused for their alignment.
fn expect_same(rt: &impl Abort, alloc: Global, seed: u64, count: u64) -> u64 {
    let (Ok(mut one), Ok(mut other)) = (
        Fed::<Heap>::create(alloc, SETTINGS),
        Fed::<PlainHeap>::create(alloc, SETTINGS),
    ) else {
        panic!(rt; "no memory");
    };
    let mut random = Random { state: seed };
    let mut same = Random { state: seed };
    let mut misaligned: u64 = 0;
    for line in 0..count {
        let events = (random_line(rt, &mut random), random_line(rt, &mut same));
        if expect_same_line(rt, line, &mut one, &mut other, events) {
            misaligned = misaligned.saturating_add(1);
        }
    }
    let totals = one.replay.totals();
    assert!(rt; misaligned > 0 && totals.refused > misaligned && totals.served > totals.refused);
    misaligned
}

#[test]
fn all_forms_over_both_heaps(rt: HostRuntime) {
    for seed in 1..9 {
        assert!(rt; expect_same(&rt, rt.alloc(), seed, 500) > 0, "{seed}");
    }
}
