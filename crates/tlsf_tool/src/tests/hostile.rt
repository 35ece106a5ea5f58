//! Readers and writers that fail at each byte in turn, over all three reports.

use super::rows::{SMALL, WHOLE};
use crate::asked::HeapReport;
use crate::tests::expect_eq_at;
use mtrace_log::memory::{Full, MemorySink, MemorySource};
use mtrace_replay::{RunFault, Status, run_leaks, run_peak, run_walk};
use std::alloc::Global;
use std::process::Abort;

/// A line that is none, one that is served, one without effect, and half of a reallocation with no newline.
const HALF: &[u8] = b"+ 0x01000 0x10\n+ 0x1000 0\n- 0x2000\n< 0x1000";

/// What each report of it says: what is wrong with its lines, and then what stands at its end.
const TEXTS: [(HeapReport, &[u8]); 3] = [
    (
        HeapReport::Leaks,
        b"line 1: not a line\nline 3: 0x2000 is not held\nline 4: half of a reallocation\nMemory not freed:\n0x1000 0 line 2\nTotal: 1 blocks, 0 bytes.\n",
    ),
    (
        HeapReport::Peak,
        b"line 1: not a line\nline 3: 0x2000 is not held\nline 4: half of a reallocation\nlines: 4\nserved: 1\nrefused: 0\nlive: 0 bytes in 1 blocks\npeak: 0 bytes at line 0\nhigh place: 16\nfree: 1008 bytes in 1 blocks\nlargest free: 1008\nspread: -\n",
    ),
    (
        HeapReport::Walk,
        b"line 1: not a line\nline 3: 0x2000 is not held\nline 4: half of a reallocation\npool 0: 1024 bytes\n0 16 used\n16 1008 free\n",
    ),
];

const REPORTS: [HeapReport; 3] = [HeapReport::Leaks, HeapReport::Peak, HeapReport::Walk];

/// The texts where the reader fails behind the first bytes of the log: the least number of bytes that gives a text,
/// and the text.
const READ: [(u64, &[u8]); 3] = [
    (0, b""),
    (15, b"line 1: not a line\n"),
    (35, b"line 1: not a line\nline 3: 0x2000 is not held\n"),
];

/// Makes one report of what the reader gives, and compares its answer and the text that it wrote. The number tells the
/// round.
fn expect_one(
    rt: &impl Abort,
    alloc: Global,
    (report, at): (HeapReport, usize),
    mut reader: MemorySource<'_>,
    mut writer: MemorySink,
    wanted: Result<Status, RunFault>,
    text: &[u8],
) {
    let answer = match report {
        HeapReport::Leaks => run_leaks(alloc, &mut reader, &mut writer, SMALL),
        HeapReport::Peak => run_peak(alloc, &mut reader, &mut writer, SMALL),
        HeapReport::Walk => run_walk(alloc, &mut reader, &mut writer, SMALL),
    };
    expect_eq_at(rt, (report, at), answer, wanted);
    expect_eq_at(rt, (report, at), writer.bytes(), text);
}

#[test]
fn reader_fails_at_each_byte(rt: HostRuntime) {
    for report in REPORTS {
        let mut text: &[u8] = b"";
        for bytes in 0..44 {
            for (first, from_first) in READ {
                if bytes == first {
                    text = from_first;
                }
            }
            let reader = MemorySource::failing_after(HALF, 1, bytes);
            let writer = MemorySink::in_pieces(rt.alloc(), WHOLE);
            expect_one(
                &rt,
                rt.alloc(),
                (report, bytes as usize),
                reader,
                writer,
                Err(RunFault::Read),
                text,
            );
        }
    }
}

#[test]
fn writer_fails_at_each_byte(rt: HostRuntime) {
    for (report, text) in TEXTS {
        for room in 0..text.len() {
            for full in [Full::Fails, Full::TakesNone] {
                let reader = MemorySource::in_pieces(HALF, WHOLE);
                let writer = MemorySink::with_room(rt.alloc(), WHOLE, room, full);
                expect_one(
                    &rt,
                    rt.alloc(),
                    (report, room),
                    reader,
                    writer,
                    Err(RunFault::Write),
                    &text[..room],
                );
            }
        }
    }
}

/// The writer takes the whole text, and its flush fails; with a flush that doesn't, the run is done.
#[test]
fn flush_fails_behind_the_text(rt: HostRuntime) {
    for (report, text) in TEXTS {
        for wanted in [Err(RunFault::Write), Ok(Status::Found)] {
            let reader = MemorySource::in_pieces(HALF, WHOLE);
            let room = MemorySink::with_room(rt.alloc(), WHOLE, text.len(), Full::Fails);
            let writer = match wanted {
                Ok(_) => room,
                Err(_) => room.failing_flush(),
            };
            expect_one(
                &rt,
                rt.alloc(),
                (report, text.len()),
                reader,
                writer,
                wanted,
                text,
            );
        }
    }
}

#[test]
fn read_fault_before_flush_fault(rt: HostRuntime) {
    for report in REPORTS {
        let reader = MemorySource::failing_after(HALF, 1, 15);
        let writer = MemorySink::in_pieces(rt.alloc(), WHOLE).failing_flush();
        expect_one(
            &rt,
            rt.alloc(),
            (report, 0),
            reader,
            writer,
            Err(RunFault::Read),
            b"line 1: not a line\n".as_slice(),
        );
    }
}

#[test]
fn pending_half_at_read_fault(rt: HostRuntime) {
    for report in REPORTS {
        let reader = MemorySource::failing_after(b"< 0x10\n", WHOLE, 1);
        let writer = MemorySink::in_pieces(rt.alloc(), WHOLE);
        expect_one(
            &rt,
            rt.alloc(),
            (report, 0),
            reader,
            writer,
            Err(RunFault::Read),
            b"".as_slice(),
        );
    }
}

/// A byte 0x0D in front of the newline belongs to the line.
#[test]
fn carriage_return(rt: HostRuntime) {
    let texts: [(HeapReport, &[u8]); 3] = [
        (HeapReport::Leaks, b"line 1: not a line\nNo memory leaks.\n"),
        (
            HeapReport::Peak,
            b"line 1: not a line\nlines: 1\nserved: 0\nrefused: 0\nlive: 0 bytes in 0 blocks\npeak: 0 bytes at line 0\nhigh place: 0\nfree: 1024 bytes in 1 blocks\nlargest free: 1024\nspread: -\n",
        ),
        (
            HeapReport::Walk,
            b"line 1: not a line\npool 0: 1024 bytes\n0 1024 free\n",
        ),
    ];
    for (report, text) in texts {
        for log in [b"= Start\r".as_slice(), b"= Start\r\n"] {
            let reader = MemorySource::in_pieces(log, WHOLE);
            let writer = MemorySink::in_pieces(rt.alloc(), WHOLE);
            expect_one(
                &rt,
                rt.alloc(),
                (report, log.len()),
                reader,
                writer,
                Ok(Status::Found),
                text,
            );
        }
    }
}
