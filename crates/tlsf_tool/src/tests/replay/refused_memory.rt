//! Memory is refused at any call. Each test passes whichever allocation is refused, and where none is.

use super::*;
use crate::tests::{expect_eq, expect_eq_at};
use mtrace_log::memory::{MemorySink, MemorySource};
use mtrace_log::{Source, ToWrite};
use std::io;

const SETTINGS: Settings = Settings {
    pool: 4096,
    pools: 2,
    records: 64,
};

/// Lines that hold 16 addresses, then that of a pair in place of the first, then one less.
const LINES: [&str; 19] = [
    "+ 0x10 0x1",
    "+ 0x20 0x1",
    "* 0x30 0x40 0x1",
    "+ 0x40 0x1",
    "+ 0x50 0x1",
    "+ 0x60 0x1",
    "+ 0x70 0x1",
    "+ 0x80 0x1",
    "+ 0x90 0x1",
    "+ 0xa0 0x1",
    "+ 0xb0 0x1",
    "+ 0xc0 0x1",
    "+ 0xd0 0x1",
    "+ 0xe0 0x1",
    "+ 0xf0 0x1",
    "+ 0x100 0x1",
    "< 0x10",
    "> 0x1000 0x100",
    "- 0x20",
];

/// Compares the line of the next entry that is held.
fn expect_next(rt: &impl Abort, held: &mut Entries<'_>, line: u64) {
    match held.next() {
        Some(entry) => expect_eq(rt, entry.line, line),
        None => panic!(rt; "line {line} is not held"),
    }
}

/// Compares what is held after this many of the lines.
fn expect_held_after<H: Heaped>(rt: &impl Abort, replay: &Replay<H>, lines: u64) {
    let mut held = replay.held();
    let first = match lines {
        18 => 2,
        19 => 3,
        _ => 1,
    };
    for line in first..=lines.min(16) {
        expect_next(rt, &mut held, line);
    }
    if lines >= 18 {
        expect_next(rt, &mut held, 18);
    }
    assert!(rt; held.next().is_none(), "too many are held after {lines}");
}

/// Whether a line or the end was taken, with nothing wrong; else memory was refused.
fn is_taken(rt: &impl Abort, text: &str, answer: Result<Note, ReplayFault>) -> bool {
    match answer {
        Ok(diagnostics) => {
            assert!(rt; diagnostics.is_empty(), "{text}");
            true
        }
        Err(fault) => {
            expect_eq_at(rt, text, fault, ReplayFault::OutOfMemory);
            false
        }
    }
}

/// Feeds all of the lines. Where memory is refused at one of them, which only a heap that lacks some can do, each call
/// behind it is refused too.
fn sees_refused_memory<H: Heaped>(rt: &impl Abort, alloc: Global, may_lack: bool) {
    let mut fed = match Fed::<H>::create(alloc, SETTINGS) {
        Ok(fed) => fed,
        Err(fault) => {
            expect_eq(rt, fault, ReplayFault::OutOfMemory);
            return;
        }
    };
    let mut served = 0;
    let mut is_refused = false;
    for text in LINES {
        if is_taken(rt, text, fed.feed(rt, text)) {
            assert!(rt; !is_refused, "{text}");
            served = fed.lines;
        } else {
            assert!(rt; may_lack, "{text}");
            is_refused = true;
        }
        expect_held_after(rt, &fed.replay, served);
    }
    assert!(rt; is_taken(rt, "the end", fed.replay.finish()) != is_refused);
}

#[test]
fn refused_memory(rt: HostRuntime) {
    sees_refused_memory::<Heap>(&rt, rt.alloc(), false);
    sees_refused_memory::<PlainHeap>(&rt, rt.alloc(), true);
}

const LOG: &[u8] = b"- 0x10\n+ 0x10 0x1\n- 0x20\n+ 0x20 0x1\n= Stop\n+ 0x30 0x1\n";

const TEXT: &[u8] =
    b"line 1: 0x10 is not held\nline 3: 0x20 is not held\nline 5: not a line\nMemory not freed:\n0x10 1 line 2\n0x20 1 line 4\n0x30 1 line 6\nTotal: 3 blocks, 3 bytes.\n";

/// How many bytes the reader has left.
fn bytes_left(rt: &impl Abort, reader: &mut MemorySource<'_>) -> usize {
    let mut left: usize = 0;
    let mut piece = [0; 64];
    for _ in 0..100 {
        match reader.pull(&mut piece) {
            Ok(count) => left = left.saturating_add(count),
            Err(_) => panic!(rt; "the reader failed"),
        }
    }
    left
}

/// Where memory is refused, nothing is read or written.
#[test]
fn run_with_refused_memory(rt: HostRuntime) {
    let mut reader = MemorySource::in_pieces(LOG, 1);
    let mut writer = MemorySink::in_pieces(rt.alloc(), 4096);
    match run_leaks(rt.alloc(), &mut reader, &mut writer, SETTINGS) {
        Ok(status) => {
            expect_eq(&rt, status, Status::Found);
            expect_eq(&rt, writer.bytes(), TEXT);
        }
        // The writer was refused memory.
        Err(RunFault::Write) => assert!(rt; TEXT.starts_with(writer.bytes())),
        Err(fault) => {
            expect_eq(&rt, fault, RunFault::OutOfMemory);
            expect_eq(&rt, bytes_left(&rt, &mut reader), LOG.len());
            assert!(rt; writer.bytes().is_empty());
        }
    }
}

/// Addresses that fall, so that the index is arranged anew.
const FALLING: &[u8] =
    b"+ 0x70 0x1\n+ 0x60 0x1\n+ 0x50 0x1\n+ 0x40 0x1\n+ 0x30 0x1\n+ 0x20 0x1\n= Stop\n- 0x40\n";

/// A run takes memory twice. With a writer that takes none, it fails where the first or the second allocation is
/// refused, and with no later one.
#[test]
fn memory_taken_twice(rt: HostRuntime) {
    let mut reader = MemorySource::in_pieces(FALLING, 7);
    let mut writer = ToWrite::new(io::sink());
    let answer = run_leaks(rt.alloc(), &mut reader, &mut writer, SETTINGS);
    assert!(rt; answer == Ok(Status::Found));
}
