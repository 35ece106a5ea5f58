ghost use Rattle.std.specs.Prelude.{◌≡◌, ◌<◌, ◌≤◌, ◌↔◌, [], length, take, Some, None, IfOk, OnOk, OnErr, IsTrue};
ghost use Rattle.std.specs.Io.KnownBytes.{prepend_known, IsAtEnd};
ghost use Rattle.mtrace_log.specs.Trace.{pulled, began};

use crate::again::Again;
use crate::call::Call;
use crate::failed::Failed;
use crate::source::Source;
use crate::trace::Trace;

/// A reader over bytes in memory.
#[derive(Drop)]
pub struct MemorySource<'a> {
    whole: &'a [u8],
    rest: &'a [u8],
    piece: usize,
    calls_before_failure: Option<u64>,
    trace: Trace,
    ghost some_piece: { 0 < piece },
}

impl<'a> MemorySource<'a> {
    ghost use Rattle.mtrace_log.specs.Memory.{source_left, one_call_less, IsSource};

    /// A reader that gives these bytes in pieces of at most `piece` bytes, and doesn't fail.
    pub fn in_pieces(bytes: &'a [u8], piece: usize) -> Self
        requires { 0 < piece }
        ensures { IsSource bytes.now bytes.now piece None [] result }
    {
        MemorySource {
            whole: bytes,
            rest: bytes,
            piece,
            calls_before_failure: None,
            trace: Trace::new(),
        }
    }

    /// A reader that gives these bytes in pieces of at most `piece` bytes, and fails once, after
    /// `calls` calls. The calls after it go on giving bytes.
    pub fn failing_after(bytes: &'a [u8], piece: usize, calls: u64) -> Self
        requires { 0 < piece }
        ensures { IsSource bytes.now bytes.now piece (Some calls) [] result }
    {
        let mut source = MemorySource::in_pieces(bytes, piece);
        source.calls_before_failure = Some(calls);
        source
    }

    /// Whether this call is the one that fails. It is counted, and not told yet.
    fn fails(&mut self) -> bool
        ensures fails { IsTrue result ↔ (self.old.calls_before_failure ≡ Some 0) }
        ensures counted { IsSource (source_left self.old) self.old.whole.now self.old.piece (one_call_less self.old.calls_before_failure) self.old.trace.calls self.new }
    {
        let fails = self.calls_before_failure == Some(0);
        self.calls_before_failure = match self.calls_before_failure {
            Some(calls) if calls > 0 => Some(calls - 1),
            _ => None,
        };
        fails
    }
}

impl Source for MemorySource<'_> {
    ghost use Rattle.mtrace_log.specs.Memory.{source_left, source_count, source_shown, IsCalled};

    ghost shown = { source_shown };

    ghost budget = { λ source. length (source_left source) };

    /// Gives the next piece: as many bytes as are left, as a piece has and as `buf` has room for.
    ///
    /// # Errors
    ///
    /// `Failed` at the call that is to fail.
    fn pull(&mut self, buf: &mut [u8]) -> Result<usize, Failed>
        requires { 0 < length buf.old }
        ensures bound { IfOk result (λ n. n ≤ length buf.new) }
        ensures bytes { IfOk result (λ n. (source_shown self.old).left ≡ prepend_known (take n buf.new) (source_shown self.new).left) }
        ensures end { IfOk result (λ n. n ≡ 0 → IsAtEnd (source_shown self.new).left) }
        ensures falls { IfOk result (λ n. 0 < n → length (source_left self.new) < length (source_left self.old)) }
        ensures never_rises { length (source_left self.new) ≤ length (source_left self.old) }
        ensures count { IfOk result (λ n. n ≡ source_count self.old (length buf.old)) }
        ensures called { IsCalled (pulled result) result self.old self.new }
    {
        if self.fails() {
            self.trace.add(&Call::Failed);
            return Err(Failed);
        }
        let count = self.rest.len().min(self.piece).min(buf.len());
        let (front, back) = self.rest.split_at(count);
        buf[..count].copy_from_slice(front);
        self.rest = back;
        let answer = Ok(count);
        self.trace.add(&Call::pulled(&answer));
        answer
    }
}

impl Again for MemorySource<'_> {
    ghost use Rattle.mtrace_log.specs.Memory.{source_left, source_shown, IsCalled};

    /// Begins again. This counts as a call.
    ///
    /// # Errors
    ///
    /// `Failed` at the call that is to fail.
    fn begin(&mut self) -> Result<(), Failed>
        ensures left { OnOk result ((source_shown self.new).left ≡ (source_shown self.old).whole) }
        ensures kept_budget { OnErr result (length (source_left self.new) ≡ length (source_left self.old)) }
        ensures called { IsCalled (began result) result self.old self.new }
    {
        if self.fails() {
            self.trace.add(&Call::Failed);
            return Err(Failed);
        }
        self.rest = self.whole;
        self.trace.add(&Call::Began);
        Ok(())
    }
}
