ghost use Rattle.std.specs.Prelude.{◌≡◌, ◌≤◌, [], ◌∷◌, length, None, IfOk};
ghost use Rattle.std.specs.Io.KnownBytes.{WriteAppends, Keeps};
ghost use Rattle.mtrace_log.specs.declared.call.Call.{Call};
ghost use Rattle.mtrace_log.specs.Adapters.{writer_of, writer_trace};
ghost use Rattle.mtrace_log.specs.Trace.{offered, flushed};

use crate::call::Call;
use crate::failed::Failed;
use crate::sink::Sink;
use crate::trace::Trace;
use std::io::Write;

/// A writer of std's as a [`Sink`]: one write a put, one flush a flush, and an error of any kind is a
/// failure.
///
/// It tells no bytes.
#[derive(Drop)]
pub struct ToWrite<W> {
    writer: W,
    trace: Trace,
}

impl<W: Write> ToWrite<W> {
    /// The writer as a `Sink`.
    pub fn new(writer: W) -> Self
        ensures writer { writer_of result ≡ writer }
        ensures trace { writer_trace result ≡ [] }
    {
        ToWrite {
            writer,
            trace: Trace::new(),
        }
    }
}

impl<W: Write> Sink for ToWrite<W> {
    ghost shown = { λ sink. record { taken = None; calls = writer_trace sink } };

    /// Writes once.
    ///
    /// # Errors
    ///
    /// `Failed` where the write answered an error.
    fn put(&mut self, bytes: &[u8]) -> Result<usize, Failed>
        ensures bound { IfOk result (λ n. n ≤ length bytes.now) }
        // The bytes taken are those that the writer took, where it tells them.
        ensures writes { WriteAppends (W.contents (writer_of self.old)) (W.contents (writer_of self.new)) result bytes.now }
        ensures told { writer_trace self.new ≡ offered (length bytes.now) result ∷ writer_trace self.old }
    {
        let answer = self.writer.write(bytes).map_err(|_| Failed);
        self.trace.add(&Call::offered(bytes.len(), &answer));
        answer
    }

    /// Flushes once.
    ///
    /// # Errors
    ///
    /// `Failed` where the flush answered an error.
    fn flush(&mut self) -> Result<(), Failed>
        ensures keeps { Keeps (W.contents (writer_of self.old)) (W.contents (writer_of self.new)) }
        ensures told { writer_trace self.new ≡ flushed result ∷ writer_trace self.old }
    {
        let answer = self.writer.flush().map_err(|_| Failed);
        self.trace.add(&Call::flushed(&answer));
        answer
    }
}
