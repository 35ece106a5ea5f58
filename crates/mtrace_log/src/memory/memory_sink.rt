ghost use Rattle.std.specs.Prelude.{◌≡◌, [], ◌+◌, ◌<◌, ◌≤◌, ◌↔◌, ◌++◌, ◌∷◌, length, take, true, false, Some, IfOk, OnErr, IsErr, IsTrue};
ghost use Rattle.mtrace_log.specs.Memory.{sink_taken, sink_piece, sink_room, sink_full, sink_count, flush_fails, sink_trace, IsSink};
ghost use Rattle.mtrace_log.specs.Trace.{offered, flushed};
ghost use Rattle.mtrace_log.specs.declared.memory.memory_sink.Full.TheVariants.{Fails};

use crate::call::Call;
use crate::failed::Failed;
use crate::sink::Sink;
use crate::trace::Trace;
use std::alloc::Global;

/// What a full writer answers.
#[derive(Clone, Copy, Debug, PartialEq, Eq)]
pub enum Full {
    /// It fails.
    Fails,
    /// It takes no byte.
    TakesNone,
}

/// A writer that keeps its bytes in memory.
#[derive(Drop)]
pub struct MemorySink {
    bytes: Vec<u8>,
    piece: usize,
    room: usize,
    full: Full,
    flush_fails: bool,
    trace: Trace,
}

impl MemorySink {
    /// A writer that takes all bytes, at most `piece` of them a call. It fails only where memory is
    /// refused.
    pub fn in_pieces(alloc: Global, piece: usize) -> Self
        ensures { IsSink [] piece usize.MAX Fails false [] result }
    {
        MemorySink::with_room(alloc, piece, usize::MAX, Full::Fails)
    }

    /// A writer that takes `room` bytes, at most `piece` of them a call, and then is full.
    pub fn with_room(alloc: Global, piece: usize, room: usize, full: Full) -> Self
        ensures { IsSink [] piece room full false [] result }
    {
        MemorySink {
            bytes: Vec::new(alloc),
            piece,
            room,
            full,
            flush_fails: false,
            trace: Trace::new(),
        }
    }

    /// The same writer, whose every flush fails.
    pub fn failing_flush(mut self) -> Self
        ensures { IsSink (sink_taken self) (sink_piece self) (sink_room self) (sink_full self) true (sink_trace self) result }
    {
        self.flush_fails = true;
        self
    }

    /// The bytes taken.
    pub fn bytes(&self) -> &[u8]
        ensures { result.now ≡ sink_taken self.now }
    {
        self.bytes.as_slice()
    }
}

impl Sink for MemorySink {
    ghost shown = { λ sink. record { taken = Some (sink_taken sink); calls = sink_trace sink } };

    /// Takes as many bytes as a piece has and as there is room for.
    ///
    /// # Errors
    ///
    /// `Failed` where there is no room and it is to fail then, and where memory is refused.
    fn put(&mut self, bytes: &[u8]) -> Result<usize, Failed>
        ensures bound { IfOk result (λ n. n ≤ length bytes.now) }
        ensures bytes { IfOk result (λ n. sink_taken self.new ≡ sink_taken self.old ++ take n bytes.now) }
        ensures count { IfOk result (λ n. n ≡ sink_count self.old (length bytes.now)) }
        ensures room { IfOk result (λ n. sink_room self.new + n ≡ sink_room self.old) }
        ensures full { sink_count self.old (length bytes.now) ≡ 0 → 0 < length bytes.now
            → IsErr result ↔ (sink_full self.old ≡ Fails) }
        ensures kept { OnErr result (sink_taken self.new ≡ sink_taken self.old) }
        ensures kept_room { OnErr result (sink_room self.new ≡ sink_room self.old) }
        ensures rest { IsSink (sink_taken self.new) (sink_piece self.old) (sink_room self.new) (sink_full self.old) (flush_fails self.old) (offered (length bytes.now) result ∷ sink_trace self.old) self.new }
    {
        let count = bytes.len().min(self.room).min(self.piece);
        if count == 0 && !bytes.is_empty() {
            self.trace.add(&Call::Failed);
            return match self.full {
                Full::Fails => Err(Failed),
                Full::TakesNone => Ok(0),
            };
        }
        if self.bytes.extend_from_slice(&bytes[..count]).is_err() {
            self.trace.add(&Call::Failed);
            return Err(Failed);
        }
        self.room -= count;
        self.trace.add(&Call::Took(count));
        Ok(count)
    }

    /// Does nothing.
    ///
    /// # Errors
    ///
    /// `Failed` where it is to fail.
    fn flush(&mut self) -> Result<(), Failed>
        ensures fails { IsErr result ↔ IsTrue (flush_fails self.old) }
        ensures kept { IsSink (sink_taken self.old) (sink_piece self.old) (sink_room self.old) (sink_full self.old) (flush_fails self.old) (flushed result ∷ sink_trace self.old) self.new }
    {
        if self.flush_fails {
            self.trace.add(&Call::FlushFailed);
            return Err(Failed);
        }
        self.trace.add(&Call::Flushed);
        Ok(())
    }
}
