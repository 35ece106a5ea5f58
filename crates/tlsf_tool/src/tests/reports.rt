//! The reports of the peak and of the walk, in one piece and in pieces of one byte and of seven.

use super::rows::{PIECES, SMALL, WHOLE};
use crate::asked::HeapReport;
use crate::service::serve;
use crate::tests::expect_eq_at;
use mtrace_log::memory::{MemorySink, MemorySource};
use mtrace_replay::Settings;
use std::alloc::Global;
use std::process::Abort;

/// A log, with a report of it, and how many requests the heap refused.
struct Row {
    name: &'static str,
    report: HeapReport,
    settings: Settings,
    log: &'static [u8],
    text: &'static [u8],
    status: u8,
    refused: u64,
}

/// Pools of 64 bytes.
const TWO_POOLS: Settings = Settings {
    pool: 64,
    pools: 2,
    records: 8192,
};

const ROWS: [Row; 11] = [
    Row {
        name: "empty-log",
        report: HeapReport::Peak,
        settings: SMALL,
        log: b"",
        text: b"lines: 0\nserved: 0\nrefused: 0\nlive: 0 bytes in 0 blocks\npeak: 0 bytes at line 0\nhigh place: 0\nfree: 1024 bytes in 1 blocks\nlargest free: 1024\nspread: -\n",
        status: 0,
        refused: 0,
    },
    Row {
        name: "two-blocks",
        report: HeapReport::Peak,
        settings: SMALL,
        log: b"= Start\n@ a + 0x10 0x64\n@ b + 0x20 0x1\n@ c - 0x10\n= End\n",
        text: b"lines: 5\nserved: 2\nrefused: 0\nlive: 1 bytes in 1 blocks\npeak: 101 bytes at line 3\nhigh place: 128\nfree: 1008 bytes in 2 blocks\nlargest free: 896\nspread: 1267\n",
        status: 1,
        refused: 0,
    },
    Row {
        name: "two-blocks",
        report: HeapReport::Walk,
        settings: SMALL,
        log: b"= Start\n@ a + 0x10 0x64\n@ b + 0x20 0x1\n@ c - 0x10\n= End\n",
        text: b"pool 0: 1024 bytes\n0 112 free\n112 16 used\n128 896 free\n",
        status: 1,
        refused: 0,
    },
    Row {
        name: "reallocation-pair",
        report: HeapReport::Walk,
        settings: SMALL,
        log: b"@ a + 0x10 0x64\n@ b < 0x10\n@ b > 0x30 0xc8\n",
        text: b"pool 0: 1024 bytes\n0 208 used\n208 816 free\n",
        status: 1,
        refused: 0,
    },
    Row {
        name: "one-record-log",
        report: HeapReport::Peak,
        settings: Settings {
            pool: 64,
            pools: 1,
            records: 1,
        },
        log: b"+ 0x10 0x8\n- 0x10\n+ 0x10 0x40\n+ 0x10 0x8\n- 0x10\n",
        text: b"line 1: 0x10 refused: table full\nline 2: 0x10 is not held\nline 4: 0x10 is already held\nlines: 5\nserved: 1\nrefused: 1\nlive: 0 bytes in 0 blocks\npeak: 64 bytes at line 3\nhigh place: 64\nfree: 64 bytes in 1 blocks\nlargest free: 64\nspread: 1000\n",
        status: 1,
        refused: 1,
    },
    Row {
        name: "two-pools-walk",
        report: HeapReport::Walk,
        settings: TWO_POOLS,
        log: b"+ 0x10 0x40\n",
        text: b"pool 0: 64 bytes\n0 64 used\npool 64: 64 bytes\n64 64 free\n",
        status: 1,
        refused: 0,
    },
    Row {
        name: "aligned-line",
        report: HeapReport::Walk,
        settings: SMALL,
        log: b"+ 0x10 0x8\n* 0x20 0x40 0x20\n",
        text: b"pool 0: 1024 bytes\n0 16 used\n16 48 free\n64 32 used\n96 928 free\n",
        status: 1,
        refused: 0,
    },
    Row {
        name: "aligned-line",
        report: HeapReport::Peak,
        settings: SMALL,
        log: b"+ 0x10 0x8\n* 0x20 0x40 0x20\n",
        text: b"lines: 2\nserved: 2\nrefused: 0\nlive: 40 bytes in 2 blocks\npeak: 40 bytes at line 2\nhigh place: 96\nfree: 976 bytes in 2 blocks\nlargest free: 928\nspread: 2400\n",
        status: 1,
        refused: 0,
    },
    Row {
        name: "bad-alignment",
        report: HeapReport::Peak,
        settings: SMALL,
        log: b"* 0x10 0x3 0x8\n* 0x10 0 0x8\n* 0x10 0x1 0\n",
        text: b"line 1: 0x10 refused: bad alignment\nline 2: not a line\nlines: 3\nserved: 1\nrefused: 1\nlive: 0 bytes in 1 blocks\npeak: 0 bytes at line 0\nhigh place: 16\nfree: 1008 bytes in 1 blocks\nlargest free: 1008\nspread: -\n",
        status: 1,
        refused: 1,
    },
    Row {
        name: "zero-size-peak",
        report: HeapReport::Peak,
        settings: SMALL,
        log: b"+ 0x10 0\n",
        text: b"lines: 1\nserved: 1\nrefused: 0\nlive: 0 bytes in 1 blocks\npeak: 0 bytes at line 0\nhigh place: 16\nfree: 1008 bytes in 1 blocks\nlargest free: 1008\nspread: -\n",
        status: 1,
        refused: 0,
    },
    Row {
        name: "two-pools-peak",
        report: HeapReport::Peak,
        settings: TWO_POOLS,
        log: b"+ 0x10 0x40\n+ 0x20 0x8\n",
        text: b"lines: 2\nserved: 2\nrefused: 0\nlive: 72 bytes in 2 blocks\npeak: 72 bytes at line 2\nhigh place: 80\nfree: 48 bytes in 1 blocks\nlargest free: 48\nspread: 1111\n",
        status: 1,
        refused: 0,
    },
];

fn expect_row(rt: &impl Abort, alloc: Global, row: &Row, piece: usize) {
    let mut reader = MemorySource::in_pieces(row.log, piece.max(1));
    let mut writer = MemorySink::in_pieces(alloc, piece.max(1));
    let mut errors = MemorySink::in_pieces(alloc, WHOLE);
    let mut refused = 0;
    let status = serve(
        alloc,
        row.report,
        row.settings,
        &mut reader,
        &mut writer,
        &mut errors,
        &mut refused,
    );
    expect_eq_at(rt, row.name, refused, row.refused);
    expect_eq_at(rt, row.name, writer.bytes(), row.text);
    expect_eq_at(rt, row.name, status, row.status);
    expect_eq_at(rt, row.name, errors.bytes(), b"".as_slice());
}

#[test]
fn peak_and_walk(rt: HostRuntime) {
    for row in &ROWS {
        for piece in PIECES {
            expect_row(&rt, rt.alloc(), row, piece);
        }
    }
}
