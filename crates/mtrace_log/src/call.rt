ghost use Rattle.std.specs.Prelude.{◌≡◌};
ghost use Rattle.mtrace_log.specs.Trace.{pulled, began, offered, flushed};

use crate::failed::Failed;

/// The outcome of one call of a reader or of a writer.
#[derive(Clone, Copy, Debug, PartialEq, Eq)]
pub enum Call {
    /// The reader gave this many bytes, at least one.
    Gave(usize),
    /// The reader told its end.
    Ended,
    /// The reader began again.
    Began,
    /// The writer took this many bytes: none only where none was offered.
    Took(usize),
    /// The writer flushed.
    Flushed,
    /// The writer failed to flush.
    FlushFailed,
    /// The reader failed to give bytes or to begin again, or the writer to take any of some.
    Failed,
}

impl Call {
    /// The outcome of a `pull` with this answer.
    pub(crate) fn pulled(answer: &Result<usize, Failed>) -> Call
        ensures { result ≡ pulled answer.now }
    {
        match answer {
            Ok(0) => Call::Ended,
            Ok(count) => Call::Gave(*count),
            Err(_) => Call::Failed,
        }
    }

    /// The outcome of a `begin` with this answer.
    pub(crate) fn began(answer: &Result<(), Failed>) -> Call
        ensures { result ≡ began answer.now }
    {
        match answer {
            Ok(()) => Call::Began,
            Err(_) => Call::Failed,
        }
    }

    /// The outcome of a `put` of this many bytes, with this answer.
    pub(crate) fn offered(bytes: usize, answer: &Result<usize, Failed>) -> Call
        ensures { result ≡ offered bytes answer.now }
    {
        match answer {
            Ok(0) if bytes > 0 => Call::Failed,
            Ok(count) => Call::Took(*count),
            Err(_) => Call::Failed,
        }
    }

    /// The outcome of a `flush` with this answer.
    pub(crate) fn flushed(answer: &Result<(), Failed>) -> Call
        ensures { result ≡ flushed answer.now }
    {
        match answer {
            Ok(()) => Call::Flushed,
            Err(_) => Call::FlushFailed,
        }
    }
}
