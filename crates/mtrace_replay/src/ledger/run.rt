//! The run that writes the report of a log without a heap.

ghost use Rattle.std.specs.Prelude.{◌≡◌, ◌++◌, IfOk};
ghost use Rattle.mtrace_log.specs.Output.{Puts};
ghost use Rattle.mtrace_replay.specs.Texts.{diagnostics_text};
ghost use Rattle.mtrace_replay.specs.Prepared.{HasNamed, prepared_text};
ghost use Rattle.mtrace_replay.specs.Moment.{half};
ghost use Rattle.mtrace_replay.specs.Reporting.{Finishes};
ghost use Rattle.mtrace_replay.specs.RunLedger.{RunsLedger, EndsLedger, ledger_status};
ghost use Rattle.mtrace_replay.specs.declared.ledger.report.LedgerReport.TheVariants.{Nothing};

use super::prepared::{Prepared, prepare};
use super::replay::LedgerReplay;
use super::report::{LedgerReport, put_ledger_report};
use crate::held::diagnostic::Note;
use crate::runs::flush::{flush_behind, status_at_end};
use crate::runs::following::read_log;
use crate::runs::run::put_diagnostics;
use crate::runs::status::{RunFault, Status};
use mtrace_log::{Failed, Sink, Source};
use std::alloc::Global;
use std::hash::RandomState;

/// Puts what is wrong at the end, and then the report.
fn put_end<W: Sink>(
    writer: &mut W,
    replay: &LedgerReplay,
    diagnostics: &Note,
    prepared: &Prepared<'_>,
) -> Result<(), Failed>
    requires named { HasNamed replay.now prepared.now }
    ensures { Puts result (diagnostics_text diagnostics.now.items ++ prepared_text replay.now prepared.now) (W.shown writer.old) (W.shown writer.new) }
{
    put_diagnostics(writer, diagnostics)?;
    put_ledger_report(writer, replay, prepared)
}

/// Puts what is wrong at the end and the report, and flushes. Answers the status.
///
/// # Errors
///
/// `Write` where the writer failed.
pub(crate) fn finish<W: Sink>(
    writer: &mut W,
    replay: &LedgerReplay,
    has_diagnostics: bool,
    prepared: &Prepared<'_>,
) -> Result<Status, RunFault>
    requires named { HasNamed replay.now prepared.now }
    ensures { Finishes (half replay.now.lines replay.now.pending) replay.now.all (prepared_text replay.now prepared.now) has_diagnostics result (W.shown writer.old) (W.shown writer.new) }
{
    let diagnostics = replay.finish();
    let status = status_at_end(has_diagnostics, &diagnostics, replay.ledger().len() > 0);
    let put = put_end(writer, replay, &diagnostics, prepared);
    flush_behind(writer, put, status)
}

/// A run that read its log to the end: its status, and the replay then.
#[derive(Drop)]
pub(crate) struct EndedLedger {
    pub(crate) status: Status,
    pub(crate) replay: LedgerReplay,
}

/// Reads a log and follows it without a heap, and writes what is wrong with its lines, and then the report.
pub(crate) fn follow_log<R: Source, W: Sink>(
    alloc: Global,
    seed: RandomState,
    reader: &mut R,
    writer: &mut W,
    report: LedgerReport,
) -> Result<EndedLedger, RunFault>
    ensures ran { RunsLedger report (ledger_status result) (R.shown reader.old) (R.shown reader.new) (W.shown writer.old) (W.shown writer.new) }
    ensures last { report ≡ Nothing → IfOk result (λ ended. EndsLedger ended.status ended.replay (R.shown reader.old) (R.shown reader.new) (W.shown writer.old) (W.shown writer.new)) }
{
    let mut replay = LedgerReplay::new(alloc, seed);
    let has_diagnostics = match read_log(reader, writer, &mut replay) {
        Ok(has_diagnostics) => has_diagnostics,
        Err(fault) => return Err(fault),
    };
    let Ok(prepared) = prepare(alloc, &replay, report) else {
        let _ = writer.flush();
        return Err(RunFault::OutOfMemory);
    };
    let finished = finish(writer, &replay, has_diagnostics, &prepared);
    drop(prepared);
    match finished {
        Ok(status) => Ok(EndedLedger { status, replay }),
        Err(_) => Err(RunFault::Write),
    }
}

/// Reads a log of mtrace(3) and follows it without a heap, so that each block that is asked for is given: of any size, and any
/// number of them. Writes what is wrong with its lines, each as it comes. Then writes the report.
///
/// The writer is flushed once at the end, but not after `Write`. After `Read` and `OutOfMemory` it doesn't matter whether that
/// succeeds. Memory is taken for each address that is held, for each location that is named, and at the end for the report.
///
/// # Errors
///
/// `Read` where the reader failed, or line 2^64 would come: then what is wrong with the lines before is written. `Write` where the
/// writer answered an error, took no byte of some, or failed its flush: then a beginning of the text is written. `OutOfMemory`
/// where memory is refused: then what is wrong with the lines before is written.
pub fn run_ledger<R: Source, W: Sink>(
    alloc: Global,
    seed: RandomState,
    reader: &mut R,
    writer: &mut W,
    report: LedgerReport,
) -> Result<Status, RunFault>
    ensures { RunsLedger report result (R.shown reader.old) (R.shown reader.new) (W.shown writer.old) (W.shown writer.new) }
{
    let ended = follow_log(alloc, seed, reader, writer, report)?;
    Ok(ended.status)
}
