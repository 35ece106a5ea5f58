//! How far a run is, and what passes a notice by.

use crate::progress::{Cleared, Counts, Notice, Progress};
use crate::service::serve_help;
use crate::tests::{expect_eq, expect_eq_at};
use mtrace_log::memory::{Full, MemorySink};
use std::io;
use std::io::Write;

/// What is told: lines, bytes and sizes.
type Told = Option<(usize, usize, usize)>;

/// Pieces, each with its second, whether the log is begun again in front of it, and what is told then.
const PIECES: [(&[u8], u64, bool, Told); 8] = [
    (b"= Start\n", 0, false, None),
    (b"a\nb\nc", 1, false, Some((3, 13, 0))),
    (b"\n\n", 1, false, None),
    (b"", 1, true, None),
    (b"x", 3, true, Some((5, 16, 1))),
    (b"\n", 4, true, Some((6, 17, 2))),
    (b"\n", 4, true, None),
    (b"\r\n", 9, false, Some((8, 20, 3))),
];

/// The numbers of what is told.
fn numbers(progress: Progress) -> (usize, usize, usize) {
    (progress.lines, progress.bytes, progress.sizes)
}

#[test]
fn what_is_told(rt: HostRuntime) {
    let mut counts = Counts::NONE;
    for (bytes, second, begins, told) in PIECES {
        if begins {
            counts.begin();
        }
        let found = counts.count(bytes, second).map(numbers);
        expect_eq_at(&rt, second, found, told);
    }
    for _ in 0..1000 {
        counts.begin();
    }
    let found = counts.count(b"", 10).map(numbers);
    expect_eq(&rt, found, Some((8, 20, 1003)));
}

/// A writer that counts what it is asked for, and fails where it is asked to flush a second time.
#[derive(Drop)]
struct Asked {
    bytes: usize,
    flushes: usize,
}

impl Write for &mut Asked {
    fn write(&mut self, buf: &[u8]) -> io::Result<usize> {
        self.bytes = self.bytes.saturating_add(buf.len());
        Ok(buf.len())
    }

    fn flush(&mut self) -> io::Result<()> {
        self.flushes = self.flushes.saturating_add(1);
        if self.flushes > 1 {
            return Err(io::Error::from(io::ErrorKind::Other));
        }
        Ok(())
    }
}

#[test]
fn cleared_passes_on(rt: HostRuntime) {
    let mut asked = Asked {
        bytes: 0,
        flushes: 0,
    };
    let notice = Notice::new(&rt, false);
    let mut cleared = Cleared::new(&notice, &mut asked);
    expect_eq(&rt, cleared.write(b"tlsf").is_ok(), true);
    expect_eq(&rt, cleared.flush().is_ok(), true);
    expect_eq(&rt, cleared.flush().is_ok(), false);
    drop(cleared);
    expect_eq(&rt, (asked.bytes, asked.flushes), (4, 2));
}

#[test]
fn help_is_put_or_told(rt: HostRuntime) {
    let alloc = rt.alloc();
    for (room, status, said) in [(7, 0, b"".as_slice()), (6, 3, b"tlsf: write failed\n")] {
        let mut writer = MemorySink::with_room(alloc, 3, room, Full::Fails);
        let mut errors = MemorySink::in_pieces(alloc, 4096);
        expect_eq_at(
            &rt,
            room,
            serve_help("a text\n", &mut writer, &mut errors),
            status,
        );
        expect_eq_at(&rt, room, errors.bytes(), said);
        expect_eq_at(&rt, room, writer.bytes(), &b"a text\n"[..room]);
    }
}
