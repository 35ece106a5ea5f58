//! What is held over the lines of a log.

use super::again::{
    Case, Row, expect_bad_settings, expect_reader_failures, expect_rows, expect_text_or_refusal,
    expect_writer_failures,
};
use super::rows::SMALL;
use crate::asked::Rereading;
use mtrace_log::ToWrite;
use mtrace_log::memory::MemorySource;
use mtrace_replay::{Settings, Status, run_timeline};
use std::io;

/// Two pools of 64 bytes.
const TWO_POOLS: Settings = Settings {
    pool: 64,
    pools: 2,
    records: 8,
};

const ROWS: [Row; 10] = [
    Row {
        name: "empty-log",
        what: Rereading::Timeline {
            heap: Some(SMALL),
            stretches: 100,
        },
        log: b"",
        text: b"line bytes blocks reach free largest\n0 0 0 0 1024 1024\n",
        status: 0,
    },
    Row {
        name: "each-line-once",
        what: Rereading::Timeline {
            heap: Some(SMALL),
            stretches: 10_000,
        },
        log: b"@ a + 0x10 0x8\n",
        text: b"line bytes blocks reach free largest\n0 0 0 0 1024 1024\n1 8 1 16 1008 1008\n",
        status: 1,
    },
    Row {
        name: "peak-between",
        what: Rereading::Timeline {
            heap: Some(SMALL),
            stretches: 1,
        },
        log: b"+ 0x10 0x64\n+ 0x20 0x8\n- 0x20\n- 0x10\n",
        text: b"line bytes blocks reach free largest\n0 0 0 0 1024 1024\n2 108 2 128 896 896\n4 0 0 0 1024 1024\n",
        status: 0,
    },
    Row {
        name: "peak-at-an-end",
        what: Rereading::Timeline {
            heap: Some(SMALL),
            stretches: 2,
        },
        log: b"+ 0x10 0x64\n+ 0x20 0x8\n- 0x20\n- 0x10\n",
        text: b"line bytes blocks reach free largest\n0 0 0 0 1024 1024\n2 108 2 128 896 896\n4 0 0 0 1024 1024\n",
        status: 0,
    },
    Row {
        name: "a-hole",
        what: Rereading::Timeline {
            heap: Some(SMALL),
            stretches: 3,
        },
        log: b"+ 0x10 0x64\n+ 0x20 0x8\n- 0x10\n",
        text: b"line bytes blocks reach free largest\n0 0 0 0 1024 1024\n1 100 1 112 912 912\n2 108 2 128 896 896\n3 8 1 128 1008 896\n",
        status: 1,
    },
    Row {
        name: "reach-falls",
        what: Rereading::Timeline {
            heap: Some(SMALL),
            stretches: 3,
        },
        log: b"+ 0x10 0x64\n+ 0x20 0x8\n- 0x20\n",
        text: b"line bytes blocks reach free largest\n0 0 0 0 1024 1024\n1 100 1 112 912 912\n2 108 2 128 896 896\n3 100 1 112 912 912\n",
        status: 1,
    },
    Row {
        name: "all-pools",
        what: Rereading::Timeline {
            heap: Some(TWO_POOLS),
            stretches: 2,
        },
        log: b"+ 0x10 0x40\n+ 0x20 0x40\n",
        text: b"line bytes blocks reach free largest\n0 0 0 0 128 64\n1 64 1 64 64 64\n2 128 2 128 0 0\n",
        status: 1,
    },
    Row {
        name: "ends-rounded-up",
        what: Rereading::Timeline {
            heap: Some(SMALL),
            stretches: 3,
        },
        log: b"= Start\n= Start\n= Start\n= Start\n= Start\n= Start\n= Start\n",
        text: b"line bytes blocks reach free largest\n0 0 0 0 1024 1024\n3 0 0 0 1024 1024\n5 0 0 0 1024 1024\n7 0 0 0 1024 1024\n",
        status: 0,
    },
    Row {
        name: "refused-is-not-held",
        what: Rereading::Timeline {
            heap: Some(SMALL),
            stretches: 1,
        },
        log: b"@ a + 0x10 0x8\nx\n@ b + 0x20 0x800",
        text: b"line 2: not a line\nline 3: 0x20 refused: no fit\nline bytes blocks reach free largest\n0 0 0 0 1024 1024\n1 8 1 16 1008 1008\n3 8 1 16 1008 1008\nrefused: 1 lines\n",
        status: 1,
    },
    Row {
        name: "half-in-front",
        what: Rereading::Timeline {
            heap: Some(SMALL),
            stretches: 2,
        },
        log: b"@ a + 0x10 0x8\n@ b < 0x10\n",
        text: b"line 2: half of a reallocation\nline bytes blocks reach free largest\n0 0 0 0 1024 1024\n1 8 1 16 1008 1008\n2 8 1 16 1008 1008\n",
        status: 1,
    },
];

#[test]
fn rows_of_timelines(rt: HostRuntime) {
    expect_rows(&rt, rt.alloc(), &ROWS);
}

/// A log with a diagnostic and its peak at the third line, in two stretches. The reader gives it, tells its end, begins again,
/// and gives it.
const CASE: Case = Case {
    what: Rereading::Timeline {
        heap: Some(SMALL),
        stretches: 2,
    },
    log: b"x\n@ a + 0x10 0x8\n@ b + 0x20 0x8\n- 0x10\n",
    notes: b"line 1: not a line\n",
    text: b"line 1: not a line\nline bytes blocks reach free largest\n0 0 0 0 1024 1024\n2 8 1 16 1008 1008\n3 16 2 32 992 992\n4 8 1 32 1008 992\n",
    calls: 4,
};

#[test]
fn reader_of_a_timeline_fails(rt: HostRuntime) {
    expect_reader_failures(&rt, rt.alloc(), &CASE);
}

#[test]
fn writer_of_a_timeline_fails(rt: HostRuntime) {
    expect_writer_failures(&rt, rt.alloc(), &CASE);
}

#[test]
fn bad_settings_of_a_timeline(rt: HostRuntime) {
    let bad = Settings { pool: 24, ..SMALL };
    for (settings, stretches) in [(bad, 2), (SMALL, 0), (SMALL, 10_001)] {
        let what = Rereading::Timeline {
            heap: Some(settings),
            stretches,
        };
        expect_bad_settings(&rt, rt.alloc(), what, CASE.log);
    }
}

/// A run takes memory four times: for the line numbers, for the points, and twice for the replay. With a writer that takes none
/// it fails where one of these is refused, and with no later one.
#[test]
fn memory_of_a_timeline(rt: HostRuntime) {
    let mut reader = MemorySource::in_pieces(CASE.log, 7);
    let mut writer = ToWrite::new(io::sink());
    let answer = run_timeline(rt.alloc(), &mut reader, &mut writer, SMALL, 10_000);
    assert!(rt; answer == Ok(Status::Found));
}

#[test]
fn timeline_with_refused_memory(rt: HostRuntime) {
    expect_text_or_refusal(&rt, rt.alloc(), &CASE);
}
