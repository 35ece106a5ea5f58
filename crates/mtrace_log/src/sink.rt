ghost use Rattle.std.specs.Prelude.{◌≡◌, ◌≤◌, ◌∷◌, length, take, IfOk, OnErr};
ghost use Rattle.std.specs.Io.KnownBytes.{append_known};
ghost use Rattle.mtrace_log.specs.Shown.{WriterState};
ghost use Rattle.mtrace_log.specs.Trace.{offered, flushed};

use crate::failed::Failed;

/// A writer that takes bytes piece by piece.
///
/// Contracts alone see what it shows: the bytes that it has taken, where its type tells them, and the
/// outcome of each of its calls.
pub trait Sink {
    // What it shows.
    ghost shown: { Self → WriterState };

    /// Takes the first of `bytes`, as many as it answers.
    ///
    /// To take no byte of a piece that isn't empty is a failure too.
    ///
    /// # Errors
    ///
    /// `Failed` where the writer fails: then it has taken no byte.
    fn put(&mut self, bytes: &[u8]) -> Result<usize, Failed>
        ensures bound { IfOk result (λ n. n ≤ length bytes.now) }
        ensures bytes { IfOk result (λ n. (shown self.new).taken ≡ append_known (shown self.old).taken (take n bytes.now)) }
        ensures kept { OnErr result ((shown self.new).taken ≡ (shown self.old).taken) }
        ensures told { (shown self.new).calls ≡ offered (length bytes.now) result ∷ (shown self.old).calls };

    /// Passes on what it has taken and still holds.
    ///
    /// # Errors
    ///
    /// `Failed` where that fails.
    fn flush(&mut self) -> Result<(), Failed>
        ensures kept { (shown self.new).taken ≡ (shown self.old).taken }
        ensures told { (shown self.new).calls ≡ flushed result ∷ (shown self.old).calls };
}
