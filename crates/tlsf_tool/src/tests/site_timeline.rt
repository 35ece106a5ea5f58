//! What each location holds over the lines of a log.

use super::again::{
    Case, Row, expect_bad_settings, expect_read_fault, expect_rows, expect_writer_failures,
};
use crate::asked::Rereading;
use crate::service::run_again;
use crate::tests::{expect_eq, seed};
use mtrace_log::memory::{MemorySink, MemorySource};
use mtrace_replay::{RunFault, Status};

/// Blocks of three locations and of none; one is moved to another location.
const MOVED: &[u8] =
    b"= Start\n@ ./a:[0x1] + 0x1000 0x64\n@ ./b:[0x2] + 0x2000 0xc8\n@ ./a:[0x1] - 0x1000\n@ ./a:[0x1] + 0x1000 0x64\n+ 0x3000 0x8\n@ ./b:[0x2] < 0x2000\n@ ./c:[0x3] > 0x4000 0x12c\n- 0x3000\n= End\n";

const ROWS: [Row; 6] = [
    Row {
        name: "empty-log",
        what: Rereading::SiteTimeline(100),
        log: b"",
        text: b"line bytes blocks\n0 0 0\n",
        status: 0,
    },
    Row {
        name: "each line of a log",
        what: Rereading::SiteTimeline(10),
        log: MOVED,
        text: b"line bytes blocks\n0 0 0\n1 0 0\n2 100 1\n100 bytes in 1 blocks at ./a:[0x1]\n3 300 2\n200 bytes in 1 blocks at ./b:[0x2]\n4 200 1\n0 bytes in 0 blocks at ./a:[0x1]\n5 300 2\n100 bytes in 1 blocks at ./a:[0x1]\n6 308 3\n8 bytes in 1 blocks\n7 308 3\n8 408 3\n300 bytes in 1 blocks at ./c:[0x3]\n0 bytes in 0 blocks at ./b:[0x2]\n9 400 2\n0 bytes in 0 blocks\n10 400 2\n",
        status: 1,
    },
    Row {
        name: "what has changed since the line before that is told",
        what: Rereading::SiteTimeline(2),
        log: MOVED,
        text: b"line bytes blocks\n0 0 0\n5 300 2\n200 bytes in 1 blocks at ./b:[0x2]\n100 bytes in 1 blocks at ./a:[0x1]\n8 408 3\n300 bytes in 1 blocks at ./c:[0x3]\n8 bytes in 1 blocks\n0 bytes in 0 blocks at ./b:[0x2]\n10 400 2\n0 bytes in 0 blocks\n",
        status: 1,
    },
    Row {
        name: "as many bytes in other blocks, and as many blocks of other bytes",
        what: Rereading::SiteTimeline(4),
        log: b"@ a + 0x10 0x8\n@ b + 0x20 0x8\n@ a + 0x30 0\n@ b < 0x20\n@ b > 0x20 0x9\n@ a - 0x10\n@ a + 0x40 0x8\n= End\n",
        text: b"line bytes blocks\n0 0 0\n2 16 2\n8 bytes in 1 blocks at a\n8 bytes in 1 blocks at b\n4 16 3\n8 bytes in 2 blocks at a\n5 17 3\n9 bytes in 1 blocks at b\n6 9 2\n0 bytes in 1 blocks at a\n8 17 3\n8 bytes in 2 blocks at a\n",
        status: 1,
    },
    Row {
        name: "a block of no byte is told, and goes again",
        what: Rereading::SiteTimeline(2),
        log: b"@ a + 0x10 0\n- 0x10\n",
        text: b"line bytes blocks\n0 0 0\n1 0 1\n0 bytes in 1 blocks at a\n2 0 0\n0 bytes in 0 blocks at a\n",
        status: 0,
    },
    Row {
        name: "what is wrong with lines is told once, and isn't held",
        what: Rereading::SiteTimeline(1),
        log: b"@ a + 0x10 0x8\n@ b + 0x10 0x64\n- 0x30\nx\n< 0x10\n",
        text: b"line 2: 0x10 is already held\nline 3: 0x30 is not held\nline 4: not a line\nline 5: half of a reallocation\nline bytes blocks\n0 0 0\n1 8 1\n8 bytes in 1 blocks at a\n5 8 1\n",
        status: 1,
    },
];

#[test]
fn rows_of_timelines_by_location(rt: HostRuntime) {
    expect_rows(&rt, rt.alloc(), &ROWS);
}

/// A log with a diagnostic and its peak at the third line, in two stretches. The reader gives it, tells its end, begins again,
/// and gives it.
const CASE: Case = Case {
    what: Rereading::SiteTimeline(2),
    log: b"x\n@ a + 0x10 0x8\n@ b + 0x20 0x8\n- 0x10\n",
    notes: b"line 1: not a line\n",
    text: b"line 1: not a line\nline bytes blocks\n0 0 0\n2 8 1\n8 bytes in 1 blocks at a\n3 16 2\n8 bytes in 1 blocks at b\n4 8 1\n0 bytes in 0 blocks at a\n",
    calls: 4,
};

/// What is told before a line is needed that the reader doesn't give.
#[test]
fn reader_of_a_timeline_by_location_fails(rt: HostRuntime) {
    let begun = b"line 1: not a line\nline bytes blocks\n0 0 0\n";
    for (calls, wanted) in [
        (0, b"".as_slice()),
        (1, CASE.notes),
        (2, CASE.notes),
        (3, begun),
    ] {
        expect_read_fault(&rt, rt.alloc(), &CASE, calls, wanted);
    }
}

#[test]
fn writer_of_a_timeline_by_location_fails(rt: HostRuntime) {
    expect_writer_failures(&rt, rt.alloc(), &CASE);
}

#[test]
fn bad_stretches_by_location(rt: HostRuntime) {
    for stretches in [0, 10_001] {
        let what = Rereading::SiteTimeline(stretches);
        expect_bad_settings(&rt, rt.alloc(), what, CASE.log);
    }
}

/// Where memory is refused to the run, a beginning of the text is written.
#[test]
fn timeline_by_location_with_refused_memory(rt: HostRuntime) {
    let mut reader = MemorySource::in_pieces(CASE.log, 1);
    let mut writer = MemorySink::in_pieces(rt.alloc(), 4096);
    match run_again(
        rt.alloc(),
        seed(&rt),
        CASE.what,
        &mut reader,
        &mut writer,
        &(),
    ) {
        Ok(status) => {
            expect_eq(&rt, status, Status::Found);
            expect_eq(&rt, writer.bytes(), CASE.text);
        }
        Err(fault) => {
            assert!(rt; fault == RunFault::OutOfMemory || fault == RunFault::Write);
            assert!(rt; CASE.text.starts_with(writer.bytes()));
        }
    }
}
