//! How far a long run is. What is told of it has contracts, when and where has none. What is read and written is passed
//! on, by the contracts of std's `Read` and `Write`.

ghost use Rattle.std.specs.Prelude.{◌≡◌, ◌+◌, ◌-◌, ◌^◌, min};
ghost use Rattle.tlsf_tool.specs.Progress.{CountsPiece};

use mtrace_replay::Watch;
use std::cell::Cell;
use std::io;
use std::io::{Read, Seek, SeekFrom, Write};
use std::time::Instant;

/// How far a run is.
#[derive(Clone, Copy, Debug, PartialEq, Eq)]
pub struct Progress {
    /// How many lines are read; what is read again is counted again.
    pub lines: usize,
    /// How many bytes are read, counted likewise.
    pub bytes: usize,
    /// How many sizes are tried.
    pub sizes: usize,
}

/// What is counted of a log, and when that was told last.
#[derive(Clone, Copy, Debug, PartialEq, Eq)]
pub struct Counts {
    lines: usize,
    bytes: usize,
    begun: usize,
    told: u64,
}

impl Counts {
    /// Nothing is counted, and nothing was told.
    pub const NONE: Counts = Counts {
        lines: 0,
        bytes: 0,
        begun: 0,
        told: 0,
    };

    /// Counts the bytes of a piece, which came in this second of the run, and the lines that end in it. Answers what is to be told: once in
    /// each second, and nothing in the first. A log that is begun again tries a size, and one that is begun once more has
    /// tried it.
    pub fn count(&mut self, bytes: &[u8], second: u64) -> Option<Progress>
        ensures { CountsPiece bytes.now second result self.old self.new }
    {
        let ends = bytes.iter().filter(|byte| **byte == b'\n').count();
        self.lines = self.lines.saturating_add(ends);
        self.bytes = self.bytes.saturating_add(bytes.len());
        if self.told >= second {
            return None;
        }
        self.told = second;
        Some(Progress {
            lines: self.lines,
            bytes: self.bytes,
            sizes: self.begun.saturating_sub(1),
        })
    }

    /// Counts that the log was begun again.
    pub fn begin(&mut self)
        ensures lines { self.new.lines ≡ self.old.lines }
        ensures bytes { self.new.bytes ≡ self.old.bytes }
        ensures begun { self.new.begun ≡ min (self.old.begun + 1) (2 ^ 64 - 1) }
        ensures told { self.new.told ≡ self.old.told }
    {
        self.begun = self.begun.saturating_add(1);
    }
}

/// A line on the terminal that says how much of the log is read. It is rewritten once a second, from the second
/// second on, and cleared before anything else is written there.
#[derive(Drop)]
pub(crate) struct Notice<'a> {
    rt: &'a HostRuntime,
    start: Option<Instant>,
    stands: Cell<bool>,
    sizes: Cell<u64>,
}

impl<'a> Notice<'a> {
    /// The notice of a run that begins now, where it is to be told.
    pub fn new(rt: &'a HostRuntime, is_told: bool) -> Notice<'a> {
        let start = if is_told { Instant::now(rt).ok() } else { None };
        Notice {
            rt,
            start,
            stands: Cell::new(false),
            sizes: Cell::new(0),
        }
    }

    /// For how many seconds the run goes on; 0 where nothing is to be told.
    fn seconds(&self) -> u64 {
        match self.start {
            Some(start) => match start.elapsed(self.rt) {
                Ok(time) => time.as_secs(),
                Err(_) => 0,
            },
            None => 0,
        }
    }

    /// Writes the notice, over the one that stands: how many lines and bytes are read, and how many sizes are tried and of how
    /// many, where some are. A line without an end is told by its bytes alone.
    fn tell(&self, progress: Progress) {
        let Progress {
            lines,
            bytes,
            sizes,
        } = progress;
        let thousands = bytes / 1000;
        let _ = eprint!(self.rt; "\r\x1b[Ktlsf: {lines} lines, {thousands} kB read");
        if sizes > 0 {
            let all = self.sizes.get();
            let _ = eprint!(self.rt; ", {sizes} of {all} sizes tried");
        }
        self.stands.set(true);
    }

    /// Clears the notice where it stands.
    fn clear(&self) {
        if self.stands.get() {
            let _ = eprint!(self.rt; "\r\x1b[K");
            self.stands.set(false);
        }
    }
}

impl Watch for Notice<'_> {
    fn expect(&self, sizes: u64) {
        self.sizes.set(self.sizes.get().saturating_add(sizes));
    }
}

/// A reader whose lines are counted for a notice. It seeks as the reader does.
#[derive(Drop)]
pub(crate) struct Counted<'a, R> {
    notice: &'a Notice<'a>,
    reader: R,
    counts: Counts,
}

impl<'a, R: Read> Counted<'a, R> {
    /// The reader, of which no line is counted yet.
    pub fn new(notice: &'a Notice<'a>, reader: R) -> Counted<'a, R> {
        Counted {
            notice,
            reader,
            counts: Counts::NONE,
        }
    }

    /// Counts the lines that end in these bytes, and tells once a second how many there are.
    fn count(&mut self, bytes: &[u8])
        ensures { self.new.reader ≡ self.old.reader }
    {
        if self.notice.start.is_none() {
            return;
        }
        if let Some(progress) = self.counts.count(bytes, self.notice.seconds()) {
            self.notice.tell(progress);
        }
    }
}

impl<R: Read> Read for Counted<'_, R> {
    ghost remaining = { λ counted. R.remaining counted.reader };

    fn read(&mut self, buf: &mut [u8]) -> io::Result<usize> {
        let answer = self.reader.read(buf);
        match &answer {
            Ok(count) if *count > 0 => self.count(&buf[..*count]),
            _ => self.notice.clear(),
        }
        answer
    }
}

impl<R: Seek> Seek for Counted<'_, R> {
    ghost stream_position = { λ counted. R.stream_position counted.reader };

    ghost stream_bytes = { λ counted. R.stream_bytes counted.reader };

    fn seek(&mut self, to: SeekFrom) -> io::Result<u64> {
        self.counts.begin();
        self.reader.seek(to)
    }
}

/// A writer that clears a notice first.
#[derive(Drop)]
pub(crate) struct Cleared<'a, W> {
    notice: &'a Notice<'a>,
    writer: W,
}

impl<'a, W: Write> Cleared<'a, W> {
    /// The writer, with the notice that is in its way.
    pub fn new(notice: &'a Notice<'a>, writer: W) -> Cleared<'a, W> {
        Cleared { notice, writer }
    }
}

impl<W: Write> Write for Cleared<'_, W> {
    ghost contents = { λ cleared. W.contents cleared.writer };

    fn write(&mut self, buf: &[u8]) -> io::Result<usize> {
        self.notice.clear();
        self.writer.write(buf)
    }

    fn flush(&mut self) -> io::Result<()> {
        self.notice.clear();
        self.writer.flush()
    }
}
