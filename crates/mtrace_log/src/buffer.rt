//! The bytes that were asked of a reader and aren't read yet.
ghost use Rattle.std.specs.Prelude.{◌≡◌, ◌<◌, ◌≤◌, ◌==◌, ◌∷◌, [], length, true, IfOk, OnErr, MatchOption};
ghost use Rattle.std.specs.Io.KnownBytes.{prepend_known, IsAtEnd};
ghost use Rattle.mtrace_log.specs.Buffer.{Buffered, TakesBufferedLine};
ghost use Rattle.mtrace_log.specs.Frequent.{IsFrequent};
ghost use Rattle.mtrace_log.specs.Progress.{most_asked};
ghost use Rattle.mtrace_log.specs.Trace.{pulled};

use crate::failed::Failed;
use crate::frequent::{Frequent, read_frequent};
use crate::source::Source;
use memchr::memchr;
use std::marker::Model;

/// How many bytes a buffer holds.
const BUFFER_SIZE: usize = 4096;

/// The bytes from `start` up to `end` are unread. Those from `line` up to `line_end` are the line that was taken last.
#[derive(Drop)]
pub(crate) struct Buffer {
    bytes: [u8; BUFFER_SIZE],
    start: usize,
    end: usize,
    line: usize,
    line_end: usize,
}

impl Model for Buffer {
    ghost use Rattle.std.specs.Prelude.{◌≤◌, slice_range};
    ghost use Rattle.mtrace_log.specs.Buffer.{Buffered};

    ghost Value = { Buffered };

    ghost view = { λ buffer. record {
      unread = slice_range buffer.bytes buffer.start buffer.end;
      line = slice_range buffer.bytes buffer.line buffer.line_end;
    } };

    ghost invariant = { λ buffer. (buffer.start ≤ buffer.end) × (buffer.end ≤ 4096)
        × (buffer.line ≤ buffer.line_end) × (buffer.line_end ≤ 4096) };
}

impl Buffer {
    /// No byte.
    pub(crate) fn new() -> Self
        ensures { result ≡ record { unread = []; line = [] } }
    {
        Buffer {
            bytes: [0; BUFFER_SIZE],
            start: 0,
            end: 0,
            line: 0,
            line_end: 0,
        }
    }

    /// Whether each byte is read.
    pub(crate) fn is_empty(&self) -> bool
        ensures { result ≡ (length self.now.unread == 0) }
    {
        self.start == self.end
    }

    /// The unread bytes.
    pub(crate) fn unread(&self) -> &[u8]
        ensures { result.now ≡ self.now.unread }
    {
        &self.bytes[self.start..self.end]
    }

    /// Says how many bytes are unread at most, and does nothing.
    pub(crate) fn holds_few(&self)
        ensures { length self.now.unread ≤ most_asked }
    {
        let _bytes = &self.bytes;
    }

    /// Takes the unread bytes before the first newline as a line, and passes over the newline; false where there is none.
    #[inline(always)]
    pub(crate) fn take_line(&mut self) -> bool
        ensures { TakesBufferedLine result self.old self.new }
    {
        let Some(len) = memchr(b'\n', self.unread()) else {
            return false;
        };
        self.line = self.start;
        self.line_end = self.start + len;
        self.start = self.line_end + 1;
        true
    }

    /// Takes the line at the front, where it is a whole one of the two frequent forms, and answers what it says.
    #[inline(always)]
    pub(crate) fn take_frequent(&mut self) -> Option<Frequent>
        ensures { MatchOption result (self.new ≡ self.old)
            (λ frequent. TakesBufferedLine true self.old self.new × IsFrequent self.new.line frequent) }
    {
        let (frequent, len) = read_frequent(self.unread())?;
        self.line = self.start;
        self.line_end = self.start + len;
        self.start = self.line_end + 1;
        Some(frequent)
    }

    /// The line that was taken last, until the buffer is filled again.
    pub(crate) fn line(&self) -> &[u8]
        ensures { result.now ≡ self.now.line }
    {
        &self.bytes[self.line..self.line_end]
    }

    /// Each byte is read.
    pub(crate) fn skip_all(&mut self)
        ensures { self.new ≡ record self.old { unread = [] } }
    {
        self.start = self.end;
    }

    /// Asks the reader once for a buffer of bytes, where none is unread, and answers how many it gave.
    pub(crate) fn refill<R: Source>(&mut self, reader: &mut R) -> Result<usize, Failed>
        requires { self.old.unread ≡ [] }
        ensures count { IfOk result (λ count. length self.new.unread ≡ count) }
        ensures bytes { IfOk result (λ count. (R.shown reader.old).left ≡ prepend_known self.new.unread (R.shown reader.new).left) }
        ensures end { IfOk result (λ count. count ≡ 0 → IsAtEnd (R.shown reader.new).left) }
        ensures falls { IfOk result (λ count. 0 < count → R.budget reader.new < R.budget reader.old) }
        ensures failed { OnErr result ((self.new.unread ≡ []) × ((R.shown reader.new).left ≡ (R.shown reader.old).left)) }
        ensures whole { (R.shown reader.new).whole ≡ (R.shown reader.old).whole }
        ensures told { (R.shown reader.new).calls ≡ pulled result ∷ (R.shown reader.old).calls }
    {
        let count = reader.pull(&mut self.bytes)?;
        self.start = 0;
        self.end = count;
        self.line_end = self.line;
        Ok(count)
    }
}
