//! Readers and writers that fail while a log is served.

use crate::tests::rows::{SMALL, WHOLE, expect_status};
use crate::tests::{expect_eq, expect_eq_at};
use mtrace_log::memory::{Full, MemorySink, MemorySource};
use mtrace_replay::{RunFault, run_leaks};

/// A log with a line that has no effect, a block that is not freed, and a half at its end.
const NOTED_AND_HELD: &[u8] = b"- 0x1\n+ 0x10 0x8\n< 0x10\n";

/// Its reports.
const TEXT_OF_BOTH: &[u8] =
    b"line 1: 0x1 is not held\nline 3: half of a reallocation\nMemory not freed:\n0x10 8 line 2\nTotal: 1 blocks, 8 bytes.\n";

/// A log with its reports, to be served to a writer that fails.
const TO_WRITE: [(&[u8], &[u8]); 2] = [
    (b"", b"No memory leaks.\n"),
    (NOTED_AND_HELD, TEXT_OF_BOTH),
];

#[test]
fn writer_fails_at_each_byte(rt: HostRuntime) {
    for (log, text) in TO_WRITE {
        for room in 0..text.len() {
            for (full, piece) in [
                (Full::Fails, WHOLE),
                (Full::TakesNone, WHOLE),
                (Full::Fails, 1),
                (Full::TakesNone, 1),
            ] {
                let mut reader = MemorySource::in_pieces(log, WHOLE);
                let mut writer = MemorySink::with_room(rt.alloc(), piece, room, full);
                expect_status(
                    &rt,
                    rt.alloc(),
                    "a writer that fails",
                    SMALL,
                    &mut reader,
                    &mut writer,
                    3,
                    b"tlsf: write failed\n",
                );
                expect_eq_at(&rt, room, writer.bytes(), &text[..room]);
            }
        }
    }
}

#[test]
fn flush_fails(rt: HostRuntime) {
    for (log, text) in TO_WRITE {
        let mut reader = MemorySource::in_pieces(log, WHOLE);
        let mut writer = MemorySink::in_pieces(rt.alloc(), WHOLE).failing_flush();
        expect_status(
            &rt,
            rt.alloc(),
            "a flush that fails",
            SMALL,
            &mut reader,
            &mut writer,
            3,
            b"tlsf: write failed\n",
        );
        expect_eq(&rt, writer.bytes(), text);
    }
}

#[test]
fn reader_fails(rt: HostRuntime) {
    // The text of the lines before, whatever the pieces; the unfinished line is lost, and what the reader
    // has behind its failure is not read. A flush that fails too changes nothing.
    let log = b"- 0x1\n- 0x2\n= Start\n+ 0x10 0x8\n";
    for calls in [11u64, 12, 13] {
        let mut reader = MemorySource::failing_after(log, 1, calls);
        let mut writer = MemorySink::in_pieces(rt.alloc(), WHOLE).failing_flush();
        expect_status(
            &rt,
            rt.alloc(),
            "a reader that fails",
            SMALL,
            &mut reader,
            &mut writer,
            3,
            b"tlsf: read failed\n",
        );
        let text: &[u8] = if calls < 12 {
            b"line 1: 0x1 is not held\n"
        } else {
            b"line 1: 0x1 is not held\nline 2: 0x2 is not held\n"
        };
        expect_eq_at(&rt, calls, writer.bytes(), text);
    }
}

#[test]
fn reader_fails_behind_a_half(rt: HostRuntime) {
    let mut reader = MemorySource::failing_after(b"< 0x10\n", WHOLE, 1);
    let mut writer = MemorySink::in_pieces(rt.alloc(), WHOLE);
    expect_status(
        &rt,
        rt.alloc(),
        "a half, and then a reader that fails",
        SMALL,
        &mut reader,
        &mut writer,
        3,
        b"tlsf: read failed\n",
    );
    expect_eq(&rt, writer.bytes(), b"".as_slice());
}

#[test]
fn faults_of_run_leaks(rt: HostRuntime) {
    let alloc = rt.alloc();
    let mut reader = MemorySource::failing_after(b"- 0x1\n- 0x2", 1, 11);
    let mut writer = MemorySink::in_pieces(alloc, WHOLE);
    let answer = run_leaks(alloc, &mut reader, &mut writer, SMALL);
    expect_eq(&rt, answer, Err(RunFault::Read));
    expect_eq(&rt, writer.bytes(), b"line 1: 0x1 is not held\n".as_slice());

    let mut reader = MemorySource::failing_after(b"< 0x10\n", 1, 7);
    let mut writer = MemorySink::in_pieces(alloc, WHOLE);
    let answer = run_leaks(alloc, &mut reader, &mut writer, SMALL);
    expect_eq(&rt, answer, Err(RunFault::Read));
    expect_eq(&rt, writer.bytes(), b"".as_slice());

    let mut reader = MemorySource::in_pieces(b"", WHOLE);
    let mut writer = MemorySink::with_room(alloc, WHOLE, 5, Full::Fails);
    let answer = run_leaks(alloc, &mut reader, &mut writer, SMALL);
    expect_eq(&rt, answer, Err(RunFault::Write));
    expect_eq(&rt, writer.bytes(), b"No me".as_slice());
}
