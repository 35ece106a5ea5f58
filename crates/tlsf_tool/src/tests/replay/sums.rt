//! Lines, and their totals, over both heaps. Other totals are rows of whole reports, in the tests of the tool.

use super::*;
use crate::tests::expect_eq;

/// Lines, and their totals.
struct Row {
    lines: &'static [&'static str],
    totals: Totals,
}

/// Two blocks, one of them freed.
const LINES: [&str; 5] = [
    "= Start",
    "@ a + 0x10 0x64",
    "@ b + 0x20 0x1",
    "@ c - 0x10",
    "= End",
];

const TOTALS: Totals = Totals {
    lines: 5,
    served: 2,
    refused: 0,
    live_bytes: 1,
    live_blocks: 1,
    peak_bytes: 101,
    peak_line: 3,
    high_place: 128,
};

/// An alignment that is none, a block at the start, one for an address that is held, and one at place 64.
const ALIGNED: [&str; 4] = [
    "* 0x10 0x3 0x8",
    "@ a * 0x20 0x40 0x20",
    "* 0x20 0x40 0x20",
    "* 0x30 0x40 0x10",
];

const ALIGNED_TOTALS: Totals = Totals {
    lines: 4,
    served: 2,
    refused: 1,
    live_bytes: 48,
    live_blocks: 2,
    peak_bytes: 48,
    peak_line: 4,
    high_place: 80,
};

const ROWS: [Row; 2] = [
    Row {
        lines: &LINES,
        totals: TOTALS,
    },
    Row {
        lines: &ALIGNED,
        totals: ALIGNED_TOTALS,
    },
];

fn expect_totals<H: Heaped>(rt: &impl Abort, alloc: Global, row: &Row) {
    let Ok(mut fed) = Fed::<H>::create(alloc, SMALL) else {
        panic!(rt; "no replay");
    };
    for text in row.lines {
        assert!(rt; fed.feed(rt, text).is_ok(), "{text}");
    }
    expect_eq(rt, fed.replay.totals(), row.totals);
}

#[test]
fn totals_over_both_heaps(rt: HostRuntime) {
    for row in &ROWS {
        expect_totals::<Heap>(&rt, rt.alloc(), row);
        expect_totals::<PlainHeap>(&rt, rt.alloc(), row);
    }
}
