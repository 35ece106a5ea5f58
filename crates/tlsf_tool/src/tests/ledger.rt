//! Logs that are followed without a heap, each with its text, its status and its line on standard error. They come in one
//! piece, and in pieces of one byte and of seven.

use super::plan::expect_usage;
use super::program::strings;
use crate::asked::Command;
use crate::service::end_run;
use crate::tests::{expect_eq, expect_eq_at, seed};
use crate::words::command;
use mtrace_log::memory::{Full, MemorySink, MemorySource};
use mtrace_replay::{LedgerReport, run_ledger};
use std::alloc::{AllocError, Global};
use std::test::Fail;

/// A log with its reports.
struct Row {
    name: &'static str,
    log: &'static [u8],
    leaks: &'static [u8],
    peak: &'static [u8],
    status: u8,
}

const ROWS: [Row; 6] = [
    Row {
        name: "no line",
        log: b"",
        leaks: b"No memory leaks.\n",
        peak: b"lines: 0\nserved: 0\nlive: 0 bytes in 0 blocks\npeak: 0 bytes at line 0\n",
        status: 0,
    },
    Row {
        name: "a block of any size and a place of any alignment are given",
        log: b"= Start\n@ a + 0x10 0xffffffffffffffff\n@ b * 0x20 0x3 0xffffffffffffffff\n= End\n",
        leaks: b"Memory not freed:\n0x10 18446744073709551615 line 2 at a\n0x20 18446744073709551615 line 3 at b\nTotal: 2 blocks, 36893488147419103230 bytes.\n",
        peak: b"lines: 4\nserved: 2\nlive: 36893488147419103230 bytes in 2 blocks\npeak: 36893488147419103230 bytes at line 3\n",
        status: 1,
    },
    Row {
        name: "all is freed",
        log: b"+ 0x10 0x64\n- 0x10\n",
        leaks: b"No memory leaks.\n",
        peak: b"lines: 2\nserved: 1\nlive: 0 bytes in 0 blocks\npeak: 100 bytes at line 1\n",
        status: 0,
    },
    Row {
        name: "what is wrong with lines is told",
        log: b"+ 0x10 0x64\n+ 0x10 0x1\n- 0x30\nx\n< 0x10\n",
        leaks: b"line 2: 0x10 is already held\nline 3: 0x30 is not held\nline 4: not a line\nline 5: half of a reallocation\nMemory not freed:\n0x10 100 line 1\nTotal: 1 blocks, 100 bytes.\n",
        peak: b"line 2: 0x10 is already held\nline 3: 0x30 is not held\nline 4: not a line\nline 5: half of a reallocation\nlines: 5\nserved: 1\nlive: 100 bytes in 1 blocks\npeak: 100 bytes at line 1\n",
        status: 1,
    },
    Row {
        name: "blocks in order of address, the greatest too",
        log: b"@ c + 0xffffffffffffffff 0x1\n@ b + 0x100000000 0x2\n@ a + 0xffffffff 0x3\n",
        leaks: b"Memory not freed:\n0xffffffff 3 line 3 at a\n0x100000000 2 line 2 at b\n0xffffffffffffffff 1 line 1 at c\nTotal: 3 blocks, 6 bytes.\n",
        peak: b"lines: 3\nserved: 3\nlive: 6 bytes in 3 blocks\npeak: 6 bytes at line 3\n",
        status: 1,
    },
    Row {
        name: "a block is moved, and the peak comes first where it comes twice",
        log: b"+ 0x10 0x8\n< 0x10\n> 0x20 0x9\n- 0x20\n+ 0x20 0x9\n",
        leaks: b"Memory not freed:\n0x20 9 line 5\nTotal: 1 blocks, 9 bytes.\n",
        peak: b"lines: 5\nserved: 3\nlive: 9 bytes in 1 blocks\npeak: 9 bytes at line 3\n",
        status: 1,
    },
];

#[test]
fn rows_without_a_heap(rt: HostRuntime) {
    let alloc = rt.alloc();
    for row in &ROWS {
        for (report, text) in [
            (LedgerReport::Held, row.leaks),
            (LedgerReport::Sums, row.peak),
        ] {
            for piece in [1, 7, 4096] {
                let mut reader = MemorySource::in_pieces(row.log, piece);
                let mut writer = MemorySink::in_pieces(alloc, piece);
                let mut errors = MemorySink::in_pieces(alloc, piece);
                let ended = run_ledger(alloc, seed(&rt), &mut reader, &mut writer, report);
                let status = end_run(&mut errors, ended);
                expect_eq_at(&rt, row.name, status, row.status);
                expect_eq_at(&rt, row.name, writer.bytes(), text);
                expect_eq_at(&rt, row.name, errors.bytes(), b"".as_slice());
            }
        }
    }
}

/// A log, and who holds its memory and who asks.
struct Calls {
    name: &'static str,
    log: &'static [u8],
    text: &'static [u8],
    status: u8,
}

const CALLS: [Calls; 8] = [
    Calls {
        name: "no line",
        log: b"",
        text: b"Held at the peak, line 0: 0 blocks, 0 bytes.\nHeld at the end: 0 blocks, 0 bytes.\nAsked over the log: 0 calls, 0 bytes, 0 temporary.\n",
        status: 0,
    },
    Calls {
        name: "a block that the very next line releases is temporary",
        log: b"@ a + 0x10 0x8\n- 0x10\n@ b + 0x20 0x1\n+ 0x30 0x2\n- 0x20\n",
        text: b"Held at the peak, line 1: 1 blocks, 8 bytes.\n8 bytes in 1 blocks at a\nHeld at the end: 1 blocks, 2 bytes.\n2 bytes in 1 blocks\nAsked over the log: 3 calls, 11 bytes, 1 temporary.\n8 bytes in 1 calls, 1 temporary at a\n2 bytes in 1 calls, 0 temporary\n1 bytes in 1 calls, 0 temporary at b\n",
        status: 1,
    },
    Calls {
        name: "a line that is given no block is no call",
        log: b"@ a + 0x10 0x8\n@ a + 0x10 0x9\n- 0x10\n@ b + (nil) 0x10\n@ a + 0x20 0x4\n- 0x30\n- 0x20\n@ c + 0x40 0x5\n< 0x40\n@ c > 0x50 0x6\n- 0x50\n",
        text: b"line 2: 0x10 is already held\nline 6: 0x30 is not held\nHeld at the peak, line 1: 1 blocks, 8 bytes.\n8 bytes in 1 blocks at a\nHeld at the end: 0 blocks, 0 bytes.\nAsked over the log: 4 calls, 23 bytes, 1 temporary.\n12 bytes in 2 calls, 0 temporary at a\n11 bytes in 2 calls, 1 temporary at c\n",
        status: 1,
    },
    Calls {
        name: "the greatest sizes",
        log: b"@ a + 0x10 0xffffffffffffffff\n- 0x10\n@ a * 0x20 0x3 0xffffffffffffffff\n",
        text: b"Held at the peak, line 1: 1 blocks, 18446744073709551615 bytes.\n18446744073709551615 bytes in 1 blocks at a\nHeld at the end: 1 blocks, 18446744073709551615 bytes.\n18446744073709551615 bytes in 1 blocks at a\nAsked over the log: 2 calls, 36893488147419103230 bytes, 1 temporary.\n36893488147419103230 bytes in 2 calls, 1 temporary at a\n",
        status: 1,
    },
    Calls {
        name: "most calls come first",
        log: b"@ a + 0x10 0x64\n@ b + 0x20 0x1\n@ b + 0x30 0x1\n",
        text: b"Held at the peak, line 3: 3 blocks, 102 bytes.\n100 bytes in 1 blocks at a\n2 bytes in 2 blocks at b\nHeld at the end: 3 blocks, 102 bytes.\n100 bytes in 1 blocks at a\n2 bytes in 2 blocks at b\nAsked over the log: 3 calls, 102 bytes, 0 temporary.\n2 bytes in 2 calls, 0 temporary at b\n100 bytes in 1 calls, 0 temporary at a\n",
        status: 1,
    },
    Calls {
        name: "a half without its other half is no call",
        log: b"@ a > 0x10 0x8\n",
        text: b"line 1: no < before >\nHeld at the peak, line 0: 0 blocks, 0 bytes.\nHeld at the end: 0 blocks, 0 bytes.\nAsked over the log: 0 calls, 0 bytes, 0 temporary.\n",
        status: 1,
    },
    Calls {
        name: "a block that moves isn't temporary",
        log: b"@ a + 0x10 0x8\n< 0x10\n@ b > 0x10 0x9\n- 0x10\n",
        text: b"Held at the peak, line 3: 1 blocks, 9 bytes.\n9 bytes in 1 blocks at b\nHeld at the end: 0 blocks, 0 bytes.\nAsked over the log: 2 calls, 17 bytes, 1 temporary.\n9 bytes in 1 calls, 1 temporary at b\n8 bytes in 1 calls, 0 temporary at a\n",
        status: 0,
    },
    Calls {
        name: "a faulty line stands between",
        log: b"+ 0x10 0x8\nx\n- 0x10\n",
        text: b"line 2: not a line\nHeld at the peak, line 1: 1 blocks, 8 bytes.\n8 bytes in 1 blocks\nHeld at the end: 0 blocks, 0 bytes.\nAsked over the log: 1 calls, 8 bytes, 0 temporary.\n8 bytes in 1 calls, 0 temporary\n",
        status: 1,
    },
];

#[test]
fn calls_by_location(rt: HostRuntime) {
    let alloc = rt.alloc();
    for row in &CALLS {
        for piece in [1, 7, 4096] {
            let mut reader = MemorySource::in_pieces(row.log, piece);
            let mut writer = MemorySink::in_pieces(alloc, piece);
            let mut errors = MemorySink::in_pieces(alloc, piece);
            let report = LedgerReport::Callers;
            let ended = run_ledger(alloc, seed(&rt), &mut reader, &mut writer, report);
            let status = end_run(&mut errors, ended);
            expect_eq_at(&rt, row.name, writer.bytes(), row.text);
            expect_eq_at(&rt, row.name, errors.bytes(), b"".as_slice());
            expect_eq_at(&rt, row.name, status, row.status);
        }
    }
}

#[test]
fn writer_that_fails_amid_calls(rt: HostRuntime) {
    let alloc = rt.alloc();
    let row = &CALLS[1];
    for room in 0..row.text.len() {
        let mut reader = MemorySource::in_pieces(row.log, 4096);
        let mut writer = MemorySink::with_room(alloc, 4096, room, Full::Fails);
        let mut errors = MemorySink::in_pieces(alloc, 4096);
        let report = LedgerReport::Callers;
        let ended = run_ledger(alloc, seed(&rt), &mut reader, &mut writer, report);
        let status = end_run(&mut errors, ended);
        expect_eq(&rt, status, 3);
        expect_eq(&rt, Some(writer.bytes()), row.text.get(..room));
        expect_eq(&rt, errors.bytes(), b"tlsf: write failed\n".as_slice());
    }
}

#[test]
fn writer_that_fails_without_a_heap(rt: HostRuntime) {
    let alloc = rt.alloc();
    for room in 0..45 {
        let mut reader = MemorySource::in_pieces(b"+ 0x10 0x64\nx\n", 4096);
        let mut writer = MemorySink::with_room(alloc, 4096, room, Full::Fails);
        let mut errors = MemorySink::in_pieces(alloc, 4096);
        let report = LedgerReport::Held;
        let ended = run_ledger(alloc, seed(&rt), &mut reader, &mut writer, report);
        let status = end_run(&mut errors, ended);
        let text: &[u8] = b"line 2: not a line\nMemory not freed:\n0x10 100 line 1\n";
        expect_eq(&rt, status, 3);
        expect_eq(&rt, Some(writer.bytes()), text.get(..room));
        expect_eq(&rt, errors.bytes(), b"tlsf: write failed\n".as_slice());
    }
}

/// The report without a heap that the words ask for, and its log; where they ask for no snapshots.
fn asked(alloc: Global, words: &[&str]) -> Result<Option<(LedgerReport, String)>, AllocError> {
    let words = strings(alloc, words)?;
    match command(alloc, words.as_slice()) {
        Ok(
            Command::Ledger {
                report,
                every: None,
                log,
            },
        ) => Ok(Some((report, log))),
        _ => Ok(None),
    }
}

#[test]
fn words_without_a_heap(rt: HostRuntime) -> Result<(), Fail> {
    let alloc = rt.alloc();
    let held = asked(alloc, &["tlsf", "leaks", "--no-heap", "a.log"])?;
    expect_eq(
        &rt,
        held,
        Some((LedgerReport::Held, String::from_str(alloc, "a.log")?)),
    );
    let sums = asked(alloc, &["tlsf", "peak", "-", "--no-heap"])?;
    expect_eq(
        &rt,
        sums,
        Some((LedgerReport::Sums, String::from_str(alloc, "-")?)),
    );
    let sites = asked(alloc, &["tlsf", "sites", "-"])?;
    expect_eq(
        &rt,
        sites,
        Some((LedgerReport::Sites, String::from_str(alloc, "-")?)),
    );
    let calls = asked(alloc, &["tlsf", "sites", "--calls", "a.log"])?;
    expect_eq(
        &rt,
        calls,
        Some((LedgerReport::Callers, String::from_str(alloc, "a.log")?)),
    );
    Ok(())
}

#[test]
fn settings_beside_no_heap(rt: HostRuntime) -> Result<(), Fail> {
    let rows: [&[&str]; 6] = [
        &["tlsf", "leaks", "--no-heap", "--pool=4096", "a.log"],
        &["tlsf", "peak", "--pools=2", "--no-heap", "a.log"],
        &["tlsf", "leaks", "--no-heap", "--records=8191", "a.log"],
        &["tlsf", "peak", "--no-heap", "--no-heap", "a.log"],
        &["tlsf", "walk", "--no-heap", "--", "a.log"],
        &["tlsf", "sites", "--no-heap", "--", "a.log"],
    ];
    expect_usage(&rt, rt.alloc(), &rows)
}

#[test]
fn settings_beside_calls(rt: HostRuntime) -> Result<(), Fail> {
    let rows: [&[&str]; 5] = [
        &["tlsf", "sites", "--calls", "--pool=4096", "a.log"],
        &["tlsf", "sites", "--pools=1", "--calls", "a.log"],
        &["tlsf", "sites", "--records=9", "--calls", "a.log"],
        &["tlsf", "sites", "--calls", "--calls", "a.log"],
        &["tlsf", "leaks", "--calls", "--", "a.log"],
    ];
    expect_usage(&rt, rt.alloc(), &rows)
}
