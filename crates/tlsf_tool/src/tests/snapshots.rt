//! Logs that tell the time, with snapshots of a report. They come in one piece, and in pieces of one byte and of seven.

use super::plan::expect_usage;
use super::program::strings;
use crate::asked::Command;
use crate::service::end_run;
use crate::tests::{expect_eq, expect_eq_at, seed};
use crate::words::command;
use mtrace_log::memory::{Full, MemorySink, MemorySource};
use mtrace_replay::{LedgerReport, run_ledger_snapshots};
use std::alloc::{AllocError, Global};
use std::test::Fail;

/// A log with a report and its snapshots.
struct Row {
    name: &'static str,
    log: &'static [u8],
    report: LedgerReport,
    every: u64,
    text: &'static [u8],
    errors: &'static [u8],
    status: u8,
}

const ROWS: [Row; 6] = [
    Row {
        name: "the first line behind each span, and a line that asks",
        log: b"= Start\n@ a + 0x10 0x64\n@ t999 ! (nil) 0\n@ t1000 ! (nil) 0\n@ t1999 ! (nil) 0\n@ b + 0x100 0x8\n@ n2000 ! (nil) 0\n- 0x10\n@ t5300 ! (nil) 0\n- 0x100\n= End\n",
        report: LedgerReport::Held,
        every: 1000,
        text: b"At line 4, 1000 ms:\nMemory not freed:\n0x10 100 line 2 at a\nTotal: 1 blocks, 100 bytes.\nAt line 7, 2000 ms:\nMemory not freed:\n0x10 100 line 2 at a\n0x100 8 line 6 at b\nTotal: 2 blocks, 108 bytes.\nAt line 9, 5300 ms:\nMemory not freed:\n0x100 8 line 6 at b\nTotal: 1 blocks, 8 bytes.\nNo memory leaks.\n",
        errors: b"",
        status: 0,
    },
    Row {
        name: "sites of the lines so far",
        log: b"@ a + 0x10 0x64\n- 0x10\n@ b + 0x20 0x8\n@ t60000 ! (nil) 0\n",
        report: LedgerReport::Sites,
        every: 60000,
        text: b"At line 4, 60000 ms:\nHeld at the peak, line 1: 1 blocks, 100 bytes.\n100 bytes in 1 blocks at a\nHeld at the end: 1 blocks, 8 bytes.\n8 bytes in 1 blocks at b\nHeld at the peak, line 1: 1 blocks, 100 bytes.\n100 bytes in 1 blocks at a\nHeld at the end: 1 blocks, 8 bytes.\n8 bytes in 1 blocks at b\n",
        errors: b"",
        status: 1,
    },
    Row {
        name: "what is wrong with a line comes first, what is wrong at the end last",
        log: b"- 0x30\n< 0x10\n@ n1 ! (nil) 0\n< 0x10\n",
        report: LedgerReport::Held,
        every: 1,
        text: b"line 1: 0x30 is not held\nline 2: half of a reallocation\nAt line 3, 1 ms:\nNo memory leaks.\nline 4: half of a reallocation\nNo memory leaks.\n",
        errors: b"",
        status: 1,
    },
    Row {
        name: "no time is told",
        log: b"+ 0x10 0x64\n@ t5 ! 0x10 0\n@ t5 ! (nil) 0x1\n@ t ! (nil) 0\n@ t5x ! (nil) 0\n! (nil) 0\n- 0x10\n",
        report: LedgerReport::Sums,
        every: 1,
        text: b"lines: 7\nserved: 1\nlive: 0 bytes in 0 blocks\npeak: 100 bytes at line 1\n",
        errors: b"",
        status: 0,
    },
    Row {
        name: "no report between the spans",
        log: b"@ t1 ! (nil) 0\n@ t18446744073709551615 ! (nil) 0\n",
        report: LedgerReport::Sums,
        every: 18446744073709551615,
        text: b"At line 2, 18446744073709551615 ms:\nlines: 2\nserved: 0\nlive: 0 bytes in 0 blocks\npeak: 0 bytes at line 0\nlines: 2\nserved: 0\nlive: 0 bytes in 0 blocks\npeak: 0 bytes at line 0\n",
        errors: b"",
        status: 0,
    },
    Row {
        name: "spans of no millisecond",
        log: b"@ t1 ! (nil) 0\n",
        report: LedgerReport::Held,
        every: 0,
        text: b"",
        errors: b"tlsf: bad settings\n",
        status: 2,
    },
];

#[test]
fn snapshots_of_logs(rt: HostRuntime) {
    let alloc = rt.alloc();
    for row in &ROWS {
        for piece in [1, 7, 4096] {
            let mut reader = MemorySource::in_pieces(row.log, piece);
            let mut writer = MemorySink::in_pieces(alloc, piece);
            let mut errors = MemorySink::in_pieces(alloc, piece);
            let ended = run_ledger_snapshots(
                alloc,
                seed(&rt),
                &mut reader,
                &mut writer,
                row.report,
                row.every,
            );
            let status = end_run(&mut errors, ended);
            expect_eq_at(&rt, row.name, writer.bytes(), row.text);
            expect_eq_at(&rt, row.name, errors.bytes(), row.errors);
            expect_eq_at(&rt, row.name, status, row.status);
        }
    }
}

#[test]
fn writer_that_fails_amid_snapshots(rt: HostRuntime) {
    let alloc = rt.alloc();
    let row = &ROWS[0];
    for room in 0..row.text.len() {
        let mut reader = MemorySource::in_pieces(row.log, 4096);
        let mut writer = MemorySink::with_room(alloc, 4096, room, Full::Fails);
        let mut errors = MemorySink::in_pieces(alloc, 4096);
        let ended = run_ledger_snapshots(
            alloc,
            seed(&rt),
            &mut reader,
            &mut writer,
            row.report,
            row.every,
        );
        let status = end_run(&mut errors, ended);
        expect_eq(&rt, status, 3);
        expect_eq(&rt, Some(writer.bytes()), row.text.get(..room));
        expect_eq(&rt, errors.bytes(), b"tlsf: write failed\n".as_slice());
    }
}

/// The report that the words ask for, and how far apart its snapshots are.
fn asked(alloc: Global, words: &[&str]) -> Result<Option<(LedgerReport, Option<u64>)>, AllocError> {
    let words = strings(alloc, words)?;
    match command(alloc, words.as_slice()) {
        Ok(Command::Ledger { report, every, .. }) => Ok(Some((report, every))),
        _ => Ok(None),
    }
}

#[test]
fn words_of_snapshots(rt: HostRuntime) -> Result<(), Fail> {
    let alloc = rt.alloc();
    let sites = asked(alloc, &["tlsf", "sites", "--every", "60000", "a.log"])?;
    expect_eq(&rt, sites, Some((LedgerReport::Sites, Some(60000))));
    let calls = asked(alloc, &["tlsf", "sites", "--calls", "--every=1", "a.log"])?;
    expect_eq(&rt, calls, Some((LedgerReport::Callers, Some(1))));
    let held = asked(
        alloc,
        &["tlsf", "leaks", "--every", "4294967295", "--no-heap", "-"],
    )?;
    expect_eq(&rt, held, Some((LedgerReport::Held, Some(4294967295))));
    let sums = asked(alloc, &["tlsf", "peak", "--no-heap", "--every", "7", "-"])?;
    expect_eq(&rt, sums, Some((LedgerReport::Sums, Some(7))));
    Ok(())
}

#[test]
fn wrong_words_of_snapshots(rt: HostRuntime) -> Result<(), Fail> {
    let rows: [&[&str]; 8] = [
        &["tlsf", "leaks", "--every", "1", "a.log"],
        &["tlsf", "peak", "--every", "1", "a.log"],
        &["tlsf", "sites", "--pools", "1", "--every", "1", "a.log"],
        &["tlsf", "sites", "--every", "0", "a.log"],
        &["tlsf", "sites", "--every", "4294967296", "a.log"],
        &["tlsf", "sites", "--every", "10m", "a.log"],
        &["tlsf", "walk", "--every", "1", "a.log"],
        &["tlsf", "timeline", "--every", "1", "a.log"],
    ];
    expect_usage(&rt, rt.alloc(), &rows)
}
