ghost use Rattle.std.specs.Prelude.{◌≡◌, ◌-◌, ◌^◌, ◌<◌, [], ◌∷◌, length, None};
ghost use Rattle.std.specs.Io.KnownBytes.{Keeps};
ghost use Rattle.std.specs.Io.Seek.{MovesTo};
ghost use Rattle.mtrace_log.specs.declared.call.Call.{Call};
ghost use Rattle.mtrace_log.specs.Adapters.{reader_of, calls_left, reader_trace, IsReading, ReadsOnce};
ghost use Rattle.mtrace_log.specs.Trace.{pulled, began};

use crate::again::Again;
use crate::call::Call;
use crate::failed::Failed;
use crate::source::Source;
use crate::trace::Trace;
use std::io::{Read, Seek};

/// A reader of std's as a [`Source`]: one read a pull, and an error of any kind is a failure. It begins again
/// where the reader can seek.
///
/// It tells no bytes. It counts its calls, and from the 2^64-th on it fails without a read.
#[derive(Drop)]
pub struct FromRead<R> {
    reader: R,
    calls: u64,
    trace: Trace,
}

impl<R: Read> FromRead<R> {
    /// The reader as a `Source`.
    pub fn new(reader: R) -> Self
        ensures { IsReading reader (2 ^ 64 - 1) [] result }
    {
        FromRead {
            reader,
            calls: 0,
            trace: Trace::new(),
        }
    }
}

impl<R: Read> Source for FromRead<R> {
    ghost shown = { λ source. record { left = None; whole = None; calls = reader_trace source } };

    ghost budget = { calls_left };

    /// Reads once, into `buf`.
    ///
    /// # Errors
    ///
    /// `Failed` where the read answered an error, and where 2^64 - 1 reads were asked before.
    fn pull(&mut self, buf: &mut [u8]) -> Result<usize, Failed>
        requires { 0 < length buf.old }
        // The bytes are those that the reader gave, where it tells them, and 0 is its end.
        ensures { ReadsOnce R.remaining (pulled result ∷ reader_trace self.old) result buf.new self.old self.new }
    {
        let answer = if self.calls == u64::MAX {
            Err(Failed)
        } else {
            self.calls += 1;
            self.reader.read(buf).map_err(|_| Failed)
        };
        self.trace.add(&Call::pulled(&answer));
        answer
    }
}

impl<R: Read + Seek> Again for FromRead<R> {
    /// Seeks to the first byte.
    ///
    /// # Errors
    ///
    /// `Failed` where the seek answered an error, as a pipe's does.
    fn begin(&mut self) -> Result<(), Failed>
        // The position is 0, where the reader tells it, and its bytes stay.
        ensures moves { MovesTo (R.stream_position (reader_of self.old)) (R.stream_position (reader_of self.new)) 0 result }
        ensures bytes { Keeps (R.stream_bytes (reader_of self.old)) (R.stream_bytes (reader_of self.new)) }
        ensures told { reader_trace self.new ≡ began result ∷ reader_trace self.old }
        ensures counted { calls_left self.new ≡ calls_left self.old }
    {
        let answer = self.reader.rewind().map_err(|_| Failed);
        self.trace.add(&Call::began(&answer));
        answer
    }
}
