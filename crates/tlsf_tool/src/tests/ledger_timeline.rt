//! What is held over the lines of a log, without a heap.

use super::again::{
    Case, Row, expect_bad_settings, expect_reader_failures, expect_rows, expect_writer_failures,
};
use crate::asked::Rereading;
use crate::service::run_again;
use crate::tests::{expect_eq, seed};
use mtrace_log::memory::{MemorySink, MemorySource};
use mtrace_replay::{RunFault, Status};

const ROWS: [Row; 7] = [
    Row {
        name: "empty-log",
        what: Rereading::Timeline {
            heap: None,
            stretches: 100,
        },
        log: b"",
        text: b"line bytes blocks\n0 0 0\n",
        status: 0,
    },
    Row {
        name: "each-line-once",
        what: Rereading::Timeline {
            heap: None,
            stretches: 10_000,
        },
        log: b"@ a + 0x10 0x8\n",
        text: b"line bytes blocks\n0 0 0\n1 8 1\n",
        status: 1,
    },
    Row {
        name: "peak-between",
        what: Rereading::Timeline {
            heap: None,
            stretches: 1,
        },
        log: b"+ 0x10 0x64\n+ 0x20 0x8\n- 0x20\n- 0x10\n",
        text: b"line bytes blocks\n0 0 0\n2 108 2\n4 0 0\n",
        status: 0,
    },
    Row {
        name: "blocks of any size, which have more bytes than 64 bits tell",
        what: Rereading::Timeline {
            heap: None,
            stretches: 2,
        },
        log: b"@ a + 0x10 0xffffffffffffffff\n@ b * 0x20 0x3 0xffffffffffffffff\n",
        text: b"line bytes blocks\n0 0 0\n1 18446744073709551615 1\n2 36893488147419103230 2\n",
        status: 1,
    },
    Row {
        name: "ends-rounded-up",
        what: Rereading::Timeline {
            heap: None,
            stretches: 3,
        },
        log: b"= Start\n= Start\n= Start\n= Start\n= Start\n= Start\n= Start\n",
        text: b"line bytes blocks\n0 0 0\n3 0 0\n5 0 0\n7 0 0\n",
        status: 0,
    },
    Row {
        name: "a block is moved",
        what: Rereading::Timeline {
            heap: None,
            stretches: 4,
        },
        log: b"+ 0x10 0x8\n< 0x10\n> 0x20 0x9\n- 0x20\n",
        text: b"line bytes blocks\n0 0 0\n1 8 1\n2 8 1\n3 9 1\n4 0 0\n",
        status: 0,
    },
    Row {
        name: "what is wrong with lines is told once, and isn't held",
        what: Rereading::Timeline {
            heap: None,
            stretches: 1,
        },
        log: b"+ 0x10 0x8\n+ 0x10 0x64\n- 0x30\nx\n< 0x10\n",
        text: b"line 2: 0x10 is already held\nline 3: 0x30 is not held\nline 4: not a line\nline 5: half of a reallocation\nline bytes blocks\n0 0 0\n1 8 1\n5 8 1\n",
        status: 1,
    },
];

#[test]
fn rows_of_timelines_without_a_heap(rt: HostRuntime) {
    expect_rows(&rt, rt.alloc(), &ROWS);
}

/// A log with a diagnostic and its peak at the third line, in two stretches. The reader gives it, tells its end, begins again,
/// and gives it.
const CASE: Case = Case {
    what: Rereading::Timeline {
        heap: None,
        stretches: 2,
    },
    log: b"x\n@ a + 0x10 0x8\n@ b + 0x20 0x8\n- 0x10\n",
    notes: b"line 1: not a line\n",
    text: b"line 1: not a line\nline bytes blocks\n0 0 0\n2 8 1\n3 16 2\n4 8 1\n",
    calls: 4,
};

#[test]
fn reader_of_a_timeline_without_a_heap_fails(rt: HostRuntime) {
    expect_reader_failures(&rt, rt.alloc(), &CASE);
}

#[test]
fn writer_of_a_timeline_without_a_heap_fails(rt: HostRuntime) {
    expect_writer_failures(&rt, rt.alloc(), &CASE);
}

#[test]
fn bad_parts_without_a_heap(rt: HostRuntime) {
    for stretches in [0, 10_001] {
        let what = Rereading::Timeline {
            heap: None,
            stretches,
        };
        expect_bad_settings(&rt, rt.alloc(), what, CASE.log);
    }
}

/// Where memory is refused to the run, what is wrong with the lines before is written, and no point.
#[test]
fn timeline_without_a_heap_with_refused_memory(rt: HostRuntime) {
    let mut reader = MemorySource::in_pieces(CASE.log, 1);
    let mut writer = MemorySink::in_pieces(rt.alloc(), 4096);
    match run_again(
        rt.alloc(),
        seed(&rt),
        CASE.what,
        &mut reader,
        &mut writer,
        &(),
    ) {
        Ok(status) => {
            expect_eq(&rt, status, Status::Found);
            expect_eq(&rt, writer.bytes(), CASE.text);
        }
        // The writer was refused memory.
        Err(RunFault::Write) => assert!(rt; CASE.text.starts_with(writer.bytes())),
        Err(fault) => {
            expect_eq(&rt, fault, RunFault::OutOfMemory);
            expect_eq(&rt, writer.bytes(), CASE.notes);
        }
    }
}
