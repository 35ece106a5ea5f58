//! The end of a run, and of a text.

ghost use Rattle.std.specs.Prelude.{◌≡◌, ◌||◌, List, ℕ, IfOk, IfErr, if◌then◌else◌};
ghost use Rattle.mtrace_log.specs.Output.{Puts};
ghost use Rattle.mtrace_log.specs.Shown.{WriterState};
ghost use Rattle.mtrace_replay.specs.Following.{has_some};
ghost use Rattle.mtrace_replay.specs.Reporting.{PutsAndFlushes};

use crate::held::diagnostic::Note;
use crate::runs::status::{RunFault, Status};
use mtrace_log::{Failed, Sink};

/// The status at the end of a log, by whether a line had a diagnostic, by what is wrong at the end, and by whether anything is held.
pub(crate) fn status_at_end(has_diagnostics: bool, last: &Note, is_held: bool) -> Status
    ensures { result ≡ (if has_diagnostics || (has_some last.now.items || is_held) then Status.Found else Status.Clean) }
{
    if has_diagnostics || !last.is_empty() || is_held {
        return Status::Found;
    }
    Status::Clean
}

/// Flushes behind a text, unless it wasn't put, and answers this status.
///
/// # Errors
///
/// `Write` where the text wasn't put, or the writer fails its flush.
pub(crate) fn flush_behind<W: Sink>(
    writer: &mut W,
    put: Result<(), Failed>,
    status: Status,
) -> Result<Status, RunFault>
    ensures flushed { (before : WriterState) (text : List ℕ) → Puts put text before (W.shown writer.old) → PutsAndFlushes result text before (W.shown writer.new) }
    ensures status { IfOk result (λ answered. answered ≡ status) }
    ensures fault { IfErr result (λ fault. fault ≡ RunFault.Write) }
{
    if put.is_err() {
        return Err(RunFault::Write);
    }
    match writer.flush() {
        Ok(()) => Ok(status),
        Err(_) => Err(RunFault::Write),
    }
}
