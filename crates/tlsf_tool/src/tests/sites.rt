//! Who holds the memory of a log.

use super::again::{
    Case, Row, expect_bad_settings, expect_reader_failures, expect_rows, expect_text_or_refusal,
    expect_writer_failures,
};
use super::rows::SMALL;
use crate::asked::Rereading;
use mtrace_log::ToWrite;
use mtrace_log::memory::MemorySource;
use mtrace_replay::{Settings, Status, run_sites};
use std::io;

const ROWS: [Row; 10] = [
    Row {
        name: "empty-log",
        what: Rereading::Sites(SMALL),
        log: b"",
        text: b"Held at the peak, line 0: 0 blocks, 0 bytes.\nHeld at the end: 0 blocks, 0 bytes.\n",
        status: 0,
    },
    Row {
        name: "a-block-of-no-byte",
        what: Rereading::Sites(SMALL),
        log: b"+ 0x10 0\n",
        text: b"Held at the peak, line 0: 0 blocks, 0 bytes.\nHeld at the end: 1 blocks, 0 bytes.\n0 bytes in 1 blocks\n",
        status: 1,
    },
    Row {
        name: "more-blocks-first",
        what: Rereading::Sites(SMALL),
        log: b"@ a + 0x10 0x10\n@ b + 0x20 0x8\n@ b + 0x30 0x8\n- 0x20\n- 0x30\n",
        text: b"Held at the peak, line 3: 3 blocks, 32 bytes.\n16 bytes in 2 blocks at b\n16 bytes in 1 blocks at a\nHeld at the end: 1 blocks, 16 bytes.\n16 bytes in 1 blocks at a\n",
        status: 1,
    },
    Row {
        name: "no-location-first",
        what: Rereading::Sites(SMALL),
        log: b"@ b + 0x10 0x8\n@ ab + 0x20 0x8\n+ 0x30 0x8\n@ a + 0x40 0x8\n",
        text: b"Held at the peak, line 4: 4 blocks, 32 bytes.\n8 bytes in 1 blocks\n8 bytes in 1 blocks at a\n8 bytes in 1 blocks at ab\n8 bytes in 1 blocks at b\nHeld at the end: 4 blocks, 32 bytes.\n8 bytes in 1 blocks\n8 bytes in 1 blocks at a\n8 bytes in 1 blocks at ab\n8 bytes in 1 blocks at b\n",
        status: 1,
    },
    Row {
        name: "no-location-by-its-bytes",
        what: Rereading::Sites(SMALL),
        log: b"+ 0x10 0x1\n@ a + 0x20 0x2\n+ 0x30 0x2\n",
        text: b"Held at the peak, line 3: 3 blocks, 5 bytes.\n3 bytes in 2 blocks\n2 bytes in 1 blocks at a\nHeld at the end: 3 blocks, 5 bytes.\n3 bytes in 2 blocks\n2 bytes in 1 blocks at a\n",
        status: 1,
    },
    Row {
        name: "first-of-two-peaks",
        what: Rereading::Sites(SMALL),
        log: b"@ a + 0x10 0x10\n@ x - 0x10\n@ b + 0x20 0x10\n",
        text: b"Held at the peak, line 1: 1 blocks, 16 bytes.\n16 bytes in 1 blocks at a\nHeld at the end: 1 blocks, 16 bytes.\n16 bytes in 1 blocks at b\n",
        status: 1,
    },
    Row {
        name: "nothing-at-the-end",
        what: Rereading::Sites(SMALL),
        log: b"@ a + 0x10 0x10\n@ b + 0x20 0x1\n- 0x10\n- 0x20\n",
        text: b"Held at the peak, line 2: 2 blocks, 17 bytes.\n16 bytes in 1 blocks at a\n1 bytes in 1 blocks at b\nHeld at the end: 0 blocks, 0 bytes.\n",
        status: 0,
    },
    Row {
        name: "half-in-front",
        what: Rereading::Sites(SMALL),
        log: b"@ a + 0x10 0x8\n@ b < 0x10\n",
        text: b"line 2: half of a reallocation\nHeld at the peak, line 1: 1 blocks, 8 bytes.\n8 bytes in 1 blocks at a\nHeld at the end: 1 blocks, 8 bytes.\n8 bytes in 1 blocks at a\n",
        status: 1,
    },
    Row {
        name: "who-moved-it-holds-it",
        what: Rereading::Sites(SMALL),
        log: b"@ a + 0x10 0x8\n@ b < 0x10\n@ c > 0x20 0x18\n",
        text: b"Held at the peak, line 3: 1 blocks, 24 bytes.\n24 bytes in 1 blocks at c\nHeld at the end: 1 blocks, 24 bytes.\n24 bytes in 1 blocks at c\n",
        status: 1,
    },
    Row {
        name: "refused-is-not-held",
        what: Rereading::Sites(SMALL),
        log: b"@ a + 0x10 0x8\nx\n@ b + 0x20 0x800",
        text: b"line 2: not a line\nline 3: 0x20 refused: no fit\nHeld at the peak, line 1: 1 blocks, 8 bytes.\n8 bytes in 1 blocks at a\nHeld at the end: 1 blocks, 8 bytes.\n8 bytes in 1 blocks at a\nrefused: 1 lines\n",
        status: 1,
    },
];

#[test]
fn rows_of_sites(rt: HostRuntime) {
    expect_rows(&rt, rt.alloc(), &ROWS);
}

/// A log with a diagnostic and its peak at the third line. The reader gives it, tells its end, begins again, and gives it.
const CASE: Case = Case {
    what: Rereading::Sites(SMALL),
    log: b"x\n@ a + 0x10 0x8\n@ b + 0x20 0x8\n- 0x10\n",
    notes: b"line 1: not a line\n",
    text: b"line 1: not a line\nHeld at the peak, line 3: 2 blocks, 16 bytes.\n8 bytes in 1 blocks at a\n8 bytes in 1 blocks at b\nHeld at the end: 1 blocks, 8 bytes.\n8 bytes in 1 blocks at b\n",
    calls: 4,
};

#[test]
fn reader_of_sites_fails(rt: HostRuntime) {
    expect_reader_failures(&rt, rt.alloc(), &CASE);
}

#[test]
fn writer_of_sites_fails(rt: HostRuntime) {
    expect_writer_failures(&rt, rt.alloc(), &CASE);
}

#[test]
fn bad_settings_of_sites(rt: HostRuntime) {
    let bad = Settings { pool: 24, ..SMALL };
    expect_bad_settings(&rt, rt.alloc(), Rereading::Sites(bad), CASE.log);
}

/// A run takes memory eight times: twice for each of two replays, and twice to group what each holds. With a writer that
/// takes none it fails where one of these is refused, and with no later one.
#[test]
fn memory_of_sites(rt: HostRuntime) {
    let mut reader = MemorySource::in_pieces(CASE.log, 7);
    let mut writer = ToWrite::new(io::sink());
    let answer = run_sites(rt.alloc(), &mut reader, &mut writer, SMALL);
    assert!(rt; answer == Ok(Status::Found));
}

#[test]
fn sites_with_refused_memory(rt: HostRuntime) {
    expect_text_or_refusal(&rt, rt.alloc(), &CASE);
}
