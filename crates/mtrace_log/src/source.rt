ghost use Rattle.std.specs.Prelude.{◌≡◌, ℕ, ◌<◌, ◌≤◌, ◌∷◌, length, take, IfOk, OnErr};
ghost use Rattle.std.specs.Io.KnownBytes.{prepend_known, IsAtEnd};
ghost use Rattle.mtrace_log.specs.Shown.{ReaderState};
ghost use Rattle.mtrace_log.specs.Trace.{pulled};

use crate::failed::Failed;

/// A reader that gives bytes piece by piece.
///
/// Contracts alone see what it shows: the bytes left and those from the first on, where its type
/// tells them, and the outcome of each call. They see also a number that falls with each piece, so
/// that every run over a `Source` ends.
pub trait Source {
    // What it shows. The bytes from the first on are known only where it can begin again.
    ghost shown: { Self → ReaderState };

    // At most how many more pieces it gives, before it begins again.
    ghost budget: { Self → ℕ };

    /// Gives the first of the bytes left, as many as it answers, at the front of `buf`, which isn't
    /// empty. The answer is 0 exactly where none is left, and at most the length of `buf`, in bytes.
    ///
    /// # Errors
    ///
    /// `Failed` where the reader fails: then no byte left is lost.
    fn pull(&mut self, buf: &mut [u8]) -> Result<usize, Failed>
        requires { 0 < length buf.old }
        ensures bound { IfOk result (λ n. n ≤ length buf.new) }
        ensures bytes { IfOk result (λ n. (shown self.old).left ≡ prepend_known (take n buf.new) (shown self.new).left) }
        ensures end { IfOk result (λ n. n ≡ 0 → IsAtEnd (shown self.new).left) }
        ensures kept { OnErr result ((shown self.new).left ≡ (shown self.old).left) }
        ensures whole { (shown self.new).whole ≡ (shown self.old).whole }
        ensures told { (shown self.new).calls ≡ pulled result ∷ (shown self.old).calls }
        ensures falls { IfOk result (λ n. 0 < n → budget self.new < budget self.old) }
        ensures never_rises { budget self.new ≤ budget self.old };
}
