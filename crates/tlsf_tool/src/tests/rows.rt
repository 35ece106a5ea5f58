//! Logs, each with its text, its status and its line on standard error. They come in one piece, and in
//! pieces of one byte, of seven, and of about as many as the buffer of `Lines` has.

use crate::asked::HeapReport;
use crate::service::serve;
use crate::tests::{expect_eq, expect_eq_at};
use mtrace_log::memory::{MemorySink, MemorySource};
use mtrace_log::{LONGEST_LINE, LONGEST_LOCATION, Sink, Source};
use mtrace_replay::Settings;
use std::alloc::{AllocError, Global};
use std::process::Abort;
use std::test::Fail;

/// One pool of 1024 bytes and 16 records.
pub const SMALL: Settings = Settings {
    pool: 1024,
    pools: 1,
    records: 16,
};

/// One pool of 64 bytes and one record.
const ONE_RECORD: Settings = Settings {
    pool: 64,
    pools: 1,
    records: 1,
};

/// One pool of 64 bytes and four records.
const FOUR_RECORDS: Settings = Settings {
    records: 4,
    ..ONE_RECORD
};

/// A log with its reports.
struct Row {
    name: &'static str,
    settings: Settings,
    log: &'static [u8],
    text: &'static [u8],
    status: u8,
}

const ROWS: [Row; 23] = [
    Row {
        name: "first-leak",
        settings: Settings::DEFAULT,
        log: b"= Start\n@ a + 0x10 0x64\n= End\n",
        text: b"Memory not freed:\n0x10 100 line 2 at a\nTotal: 1 blocks, 100 bytes.\n",
        status: 1,
    },
    Row {
        name: "first-path-diagnostics",
        settings: SMALL,
        log: b"= Start\n+ 0x10 0x64\n+ 0x10 0x1\n- 0x10\n+ 0x20 0x400\n",
        text: b"line 3: 0x10 is already held\nMemory not freed:\n0x20 1024 line 5\nTotal: 1 blocks, 1024 bytes.\n",
        status: 1,
    },
    Row {
        name: "first-path-table-full",
        settings: ONE_RECORD,
        log: b"+ 0x10 0x8\n",
        text: b"line 1: 0x10 refused: table full\nNo memory leaks.\n",
        status: 1,
    },
    Row {
        name: "empty-log",
        settings: SMALL,
        log: b"",
        text: b"No memory leaks.\n",
        status: 0,
    },
    Row {
        name: "lines-without-effect",
        settings: SMALL,
        log: b"! 0x10 0x8\n! (nil) 0\n+ (nil) 0x8\n= End\n",
        text: b"No memory leaks.\n",
        status: 0,
    },
    Row {
        name: "a last line without newline",
        settings: SMALL,
        log: b"+ 0x10 0",
        text: b"Memory not freed:\n0x10 0 line 1\nTotal: 1 blocks, 0 bytes.\n",
        status: 1,
    },
    Row {
        name: "an empty line, leading zeros, capital digits, a carriage return",
        settings: SMALL,
        log: b"\n+ 0x01000 0x10\n+ 0xA 0x1\n= Start\r\n",
        text: b"line 1: not a line\nline 2: not a line\nline 3: not a line\nline 4: not a line\nNo memory leaks.\n",
        status: 1,
    },
    Row {
        name: "entries in order of address",
        settings: SMALL,
        log: b"+ 0x30 0x1\n@ b + 0x10 0x2\n+ 0x20 0x3\n",
        text: b"Memory not freed:\n0x10 2 line 2 at b\n0x20 3 line 3\n0x30 1 line 1\nTotal: 3 blocks, 6 bytes.\n",
        status: 1,
    },
    Row {
        name: "two-blocks-three-reports",
        settings: SMALL,
        log: b"= Start\n@ a + 0x10 0x64\n@ b + 0x20 0x1\n@ c - 0x10\n= End\n",
        text: b"Memory not freed:\n0x20 1 line 3 at b\nTotal: 1 blocks, 1 bytes.\n",
        status: 1,
    },
    Row {
        name: "reallocation-pair",
        settings: SMALL,
        log: b"@ a + 0x10 0x64\n@ b < 0x10\n@ b > 0x30 0xc8\n",
        text: b"Memory not freed:\n0x30 200 line 3 at b\nTotal: 1 blocks, 200 bytes.\n",
        status: 1,
    },
    Row {
        name: "refused-reallocation",
        settings: FOUR_RECORDS,
        log: b"+ 0x10 0x8\n< 0x10\n> 0x20 0x80\n",
        text: b"line 3: 0x20 refused: no fit\nNo memory leaks.\n",
        status: 1,
    },
    Row {
        name: "repeated-half",
        settings: FOUR_RECORDS,
        log: b"+ 0x10 0x8\n< 0x10\n< 0x10\n> 0x10 0x10\n",
        text: b"line 2: half of a reallocation\nMemory not freed:\n0x10 16 line 4\nTotal: 1 blocks, 16 bytes.\n",
        status: 1,
    },
    Row {
        name: "half-reallocation",
        settings: SMALL,
        log: b"+ 0x01000 0x10\n+ 0x1000 0\n- 0x2000\n< 0x1000\n",
        text: b"line 1: not a line\nline 3: 0x2000 is not held\nline 4: half of a reallocation\nMemory not freed:\n0x1000 0 line 2\nTotal: 1 blocks, 0 bytes.\n",
        status: 1,
    },
    Row {
        name: "half-reallocation without a last newline",
        settings: SMALL,
        log: b"+ 0x01000 0x10\n+ 0x1000 0\n- 0x2000\n< 0x1000",
        text: b"line 1: not a line\nline 3: 0x2000 is not held\nline 4: half of a reallocation\nMemory not freed:\n0x1000 0 line 2\nTotal: 1 blocks, 0 bytes.\n",
        status: 1,
    },
    Row {
        name: "end-between-halves",
        settings: SMALL,
        log: b"< 0x10\n= End\n> 0x10 0x8\n",
        text: b"line 1: half of a reallocation\nline 3: no < before >\nNo memory leaks.\n",
        status: 1,
    },
    Row {
        name: "stray-new",
        settings: SMALL,
        log: b"> 0x20 0x8\n< 0x10\n> 0x20 0x8\n",
        text: b"line 1: no < before >\nline 3: 0x10 is not held\nMemory not freed:\n0x20 8 line 3\nTotal: 1 blocks, 8 bytes.\n",
        status: 1,
    },
    Row {
        name: "old-not-held-new-held",
        settings: SMALL,
        log: b"+ 0x20 0x8\n< 0x10\n> 0x20 0x8\n",
        text: b"line 3: 0x10 is not held\nline 3: 0x20 is already held\nMemory not freed:\n0x20 8 line 1\nTotal: 1 blocks, 8 bytes.\n",
        status: 1,
    },
    Row {
        name: "one-record-log",
        settings: ONE_RECORD,
        log: b"+ 0x10 0x8\n- 0x10\n+ 0x10 0x40\n+ 0x10 0x8\n- 0x10\n",
        text: b"line 1: 0x10 refused: table full\nline 2: 0x10 is not held\nline 4: 0x10 is already held\nNo memory leaks.\n",
        status: 1,
    },
    Row {
        name: "aligned-line",
        settings: SMALL,
        log: b"+ 0x10 0x8\n* 0x20 0x40 0x20\n",
        text: b"Memory not freed:\n0x10 8 line 1\n0x20 32 line 2\nTotal: 2 blocks, 40 bytes.\n",
        status: 1,
    },
    Row {
        name: "bad-alignment",
        settings: SMALL,
        log: b"* 0x10 0x3 0x8\n* 0x10 0 0x8\n* 0x10 0x1 0\n",
        text: b"line 1: 0x10 refused: bad alignment\nline 2: not a line\nMemory not freed:\n0x10 0 line 3\nTotal: 1 blocks, 0 bytes.\n",
        status: 1,
    },
    Row {
        name: "an aligned line behind a half",
        settings: SMALL,
        log: b"+ 0x10 0x8\n< 0x10\n@ a * 0x20 0x40 0x8\n> 0x30 0x8\n* 0x10 0x3 0x8\n",
        text: b"line 2: half of a reallocation\nline 4: no < before >\nline 5: 0x10 is already held\nMemory not freed:\n0x10 8 line 1\n0x20 8 line 3 at a\nTotal: 2 blocks, 16 bytes.\n",
        status: 1,
    },
    Row {
        name: "the greatest alignment, and the next one",
        settings: Settings {
            pool: 536_870_912,
            pools: 1,
            records: 16,
        },
        log: b"* 0x10 0x20000000 0x8\n* 0x20 0x20000000 0x8\n* 0x30 0x40000000 0x8\n",
        text: b"line 2: 0x20 refused: no fit\nline 3: 0x30 refused: bad alignment\nMemory not freed:\n0x10 8 line 1\nTotal: 1 blocks, 8 bytes.\n",
        status: 1,
    },
    Row {
        name: "location-bytes",
        settings: SMALL,
        log: b"@ \xC3\xA9 + 0x10 0x8\n",
        text: b"Memory not freed:\n0x10 8 line 1 at \xC3\xA9\nTotal: 1 blocks, 8 bytes.\n",
        status: 1,
    },
];

/// The longest piece that a reader is asked to give.
pub const WHOLE: usize = 1 << 20;

/// The longest pieces that the rows are tried with. The buffer of `Lines` has 4,096 bytes.
pub const PIECES: [usize; 6] = [WHOLE, 1, 7, 4095, 4096, 4097];

/// The report of leaks of what the reader gives; compares the status and the line on standard error.
pub fn expect_status<R: Source, W: Sink>(
    rt: &impl Abort,
    alloc: Global,
    name: &str,
    settings: Settings,
    reader: &mut R,
    writer: &mut W,
    status: u8,
    error: &[u8],
) {
    let mut errors = MemorySink::in_pieces(alloc, WHOLE);
    let mut refused = 0;
    let answer = serve(
        alloc,
        HeapReport::Leaks,
        settings,
        reader,
        writer,
        &mut errors,
        &mut refused,
    );
    expect_eq_at(rt, name, answer, status);
    expect_eq_at(rt, name, errors.bytes(), error);
}

/// Serves a log in pieces of at most `piece` bytes, and compares text and status. Nothing goes to standard
/// error.
pub fn expect_report(
    rt: &impl Abort,
    alloc: Global,
    name: &str,
    settings: Settings,
    log: &[u8],
    piece: usize,
    text: &[u8],
    status: u8,
) {
    let mut reader = MemorySource::in_pieces(log, piece.max(1));
    let mut writer = MemorySink::in_pieces(alloc, piece.max(1));
    expect_status(
        rt,
        alloc,
        name,
        settings,
        &mut reader,
        &mut writer,
        status,
        b"",
    );
    expect_eq_at(rt, name, writer.bytes(), text);
}

#[test]
fn rows_in_one_piece_and_in_pieces(rt: HostRuntime) {
    for row in &ROWS {
        for piece in PIECES {
            expect_report(
                &rt,
                rt.alloc(),
                row.name,
                row.settings,
                row.log,
                piece,
                row.text,
                row.status,
            );
        }
    }
}

/// A line of `@ `, this many times `a`, and what stands behind the location.
fn long_line(alloc: Global, location: usize, behind: &[u8]) -> Result<Vec<u8>, AllocError> {
    let mut line = Vec::from_slice(alloc, b"@ ")?;
    for _ in 0..location {
        line.push(b'a')?;
    }
    line.extend_from_slice(behind)?;
    Ok(line)
}

/// The greatest address and size.
const GREATEST: &[u8] = b" + 0xffffffffffffffff 0xffffffffffffffff";

/// The greatest address, alignment and size.
const GREATEST_ALIGNED: &[u8] = b" * 0xffffffffffffffff 0xffffffffffffffff 0xffffffffffffffff";

#[test]
fn longest_line(rt: HostRuntime) -> Result<(), Fail> {
    let longest = long_line(rt.alloc(), LONGEST_LOCATION, GREATEST)?;
    expect_eq(&rt, longest.len(), 297);
    let longer = long_line(rt.alloc(), LONGEST_LOCATION + 1, GREATEST)?;
    for piece in PIECES {
        expect_report(
            &rt,
            rt.alloc(),
            "longest-line",
            SMALL,
            longest.as_slice(),
            piece,
            b"line 1: 0xffffffffffffffff refused: no fit\nNo memory leaks.\n",
            1,
        );
        expect_report(
            &rt,
            rt.alloc(),
            "one byte longer",
            SMALL,
            longer.as_slice(),
            piece,
            b"line 1: not a line\nNo memory leaks.\n",
            1,
        );
    }
    Ok(())
}

#[test]
fn longest_aligned_line(rt: HostRuntime) -> Result<(), Fail> {
    let longest = long_line(rt.alloc(), LONGEST_LOCATION, GREATEST_ALIGNED)?;
    expect_eq(&rt, longest.len(), LONGEST_LINE);
    let longer = long_line(rt.alloc(), LONGEST_LOCATION + 1, GREATEST_ALIGNED)?;
    for piece in PIECES {
        expect_report(
            &rt,
            rt.alloc(),
            "longest-aligned-line",
            SMALL,
            longest.as_slice(),
            piece,
            b"line 1: 0xffffffffffffffff refused: bad alignment\nNo memory leaks.\n",
            1,
        );
        expect_report(
            &rt,
            rt.alloc(),
            "one byte longer than the longest aligned line",
            SMALL,
            longer.as_slice(),
            piece,
            b"line 1: too long\nNo memory leaks.\n",
            1,
        );
    }
    Ok(())
}

#[test]
fn greatest_pools(rt: HostRuntime) {
    let settings = Settings {
        pool: 1_073_741_808,
        pools: 4,
        records: 5,
    };
    expect_report(
        &rt,
        rt.alloc(),
        "four of the greatest pools",
        settings,
        b"+ 0x10 0x3f000000\n+ 0x20 0x3f000001\n",
        WHOLE,
        b"line 2: 0x20 refused: no fit\nMemory not freed:\n0x10 1056964608 line 1\nTotal: 1 blocks, 1056964608 bytes.\n",
        1,
    );
}
