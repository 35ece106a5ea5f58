//! The runs that write the reports of a log.

ghost use Rattle.std.specs.Prelude.{◌≡◌, ◌++◌, false, [], IfOk, OnErr};
ghost use Rattle.mtrace_log.specs.Output.{Puts};
ghost use Rattle.mtrace_replay.specs.Course.{course};
ghost use Rattle.mtrace_replay.specs.Texts.{diagnostic_text, diagnostics_text, report_text};
ghost use Rattle.mtrace_replay.specs.Replay.{entries};
ghost use Rattle.mtrace_replay.specs.Moment.{half};
ghost use Rattle.mtrace_replay.specs.Reporting.{Finishes};
ghost use Rattle.mtrace_replay.specs.Run.{Runs, CountsRefused, EndsAt, status_in, PutsReport};

use crate::heap::replay::{Replay, ReplayFault};
use crate::heap::settings::Settings;
use crate::held::diagnostic::{Diagnostic, Note};
use crate::held::findings::Findings;
use crate::held::line_text::diagnostic_text;
use crate::held::lines::{InLine, put_lines};
use crate::runs::flush::{flush_behind, status_at_end};
use crate::runs::following::read_log;
use crate::runs::report::{Report, put_report};
use crate::runs::status::{RunFault, Status};
use mtrace_log::{Failed, Sink, Source, put_all};
use std::alloc::Global;
use tlsf_heap::{Heap, Heaped};

impl InLine for Diagnostic {
    ghost line = { diagnostic_text };

    fn put_line<W: Sink>(&self, writer: &mut W) -> Result<(), Failed> {
        put_all(writer, diagnostic_text(self).as_slice())
    }
}

/// Puts a line for each diagnostic.
#[inline(never)]
pub(crate) fn put_diagnostics<W: Sink>(writer: &mut W, diagnostics: &Note) -> Result<(), Failed>
    ensures { Puts result (diagnostics_text diagnostics.now.items) (W.shown writer.old) (W.shown writer.new) }
{
    put_lines(writer, diagnostics.as_slice())
}

/// Puts what is wrong with a line; then nothing is.
#[inline(never)]
pub(crate) fn put_findings<W: Sink>(writer: &mut W, findings: &mut Findings) -> Result<(), Failed>
    ensures put { Puts result (diagnostics_text findings.old) (W.shown writer.old) (W.shown writer.new) }
    ensures cleared { findings.new ≡ [] }
{
    let diagnostics = findings.diagnostics();
    findings.clear();
    put_diagnostics(writer, &diagnostics)
}

/// Puts what is wrong at the end, and then the report.
fn put_end<H: Heaped, W: Sink>(
    writer: &mut W,
    replay: &mut Replay<H>,
    diagnostics: &Note,
    report: Report,
) -> Result<(), Failed>
    requires works { replay.old.out_of_memory ≡ false }
    ensures { PutsReport result report (diagnostics_text diagnostics.now.items ++ report_text report (entries replay.old) replay.old.totals replay.old.content)
        replay.old replay.new (W.shown writer.old) (W.shown writer.new) }
{
    put_diagnostics(writer, diagnostics)?;
    put_report(writer, replay, report)
}

/// Puts what is wrong at the end and the report, and flushes. Answers the status.
///
/// # Errors
///
/// `Write` where the writer failed.
pub(crate) fn finish<H: Heaped, W: Sink>(
    writer: &mut W,
    replay: &mut Replay<H>,
    has_diagnostics: bool,
    report: Report,
) -> Result<Status, RunFault>
    requires works { replay.old.out_of_memory ≡ false }
    ensures finished { Finishes (half replay.old.totals.lines replay.old.pending) (entries replay.old) (report_text report (entries replay.old) replay.old.totals replay.old.content)
        has_diagnostics result (W.shown writer.old) (W.shown writer.new) }
    ensures kept { report ≡ Report.Nothing → replay.new ≡ replay.old }
{
    let Ok(diagnostics) = replay.finish() else {
        unreachable!();
    };
    let status = status_at_end(has_diagnostics, &diagnostics, replay.blocks() > 0);
    let put = put_end(writer, replay, &diagnostics, report);
    flush_behind(writer, put, status)
}

/// A run that read its log to the end: its status, how many lines the heap refused, and the replay then.
#[derive(Drop)]
pub(crate) struct FinishedRun {
    pub(crate) status: Status,
    pub(crate) refused: u64,
    pub(crate) replay: Replay<Heap>,
}

/// Reads and replays a log on a heap by the settings, and writes what is wrong with its lines, and then the report.
pub(crate) fn replay_log<R: Source, W: Sink>(
    alloc: Global,
    reader: &mut R,
    writer: &mut W,
    settings: Settings,
    report: Report,
) -> Result<FinishedRun, RunFault>
    ensures ran { Runs report settings (status_in result) (course R.shown reader.old reader.new) (course W.shown writer.old writer.new) }
    ensures counted { IfOk result (λ ended. CountsRefused settings ended.refused (R.shown reader.old) (R.shown reader.new)) }
    ensures last { report ≡ Report.Nothing → IfOk result (λ ended. EndsAt settings ended.status ended.replay
        (R.shown reader.old) (R.shown reader.new) (W.shown writer.old) (W.shown writer.new)) }
{
    let mut replay = match Replay::<Heap>::create(alloc, settings) {
        Ok(replay) => replay,
        Err(ReplayFault::BadSettings) => return Err(RunFault::BadSettings),
        Err(ReplayFault::OutOfMemory) => return Err(RunFault::OutOfMemory),
    };
    let has_diagnostics = match read_log(reader, writer, &mut replay) {
        Ok(has_diagnostics) => has_diagnostics,
        Err(fault) => return Err(fault),
    };
    let refused = replay.totals().refused;
    match finish(writer, &mut replay, has_diagnostics, report) {
        Ok(status) => Ok(FinishedRun {
            status,
            refused,
            replay,
        }),
        Err(_) => Err(RunFault::Write),
    }
}

/// Reads a log of mtrace(3), replays it on a heap by the settings, and writes what is wrong with its lines, each as
/// it comes. Then writes the report.
///
/// The writer is flushed once at the end, but not after `Write`, `BadSettings` or `OutOfMemory`; after `Read` it doesn't
/// matter whether that succeeds. Memory is taken at the start alone, for the heap's records and for what is held.
///
/// # Errors
///
/// `Read` where the reader failed, or line 2^64 would come: then what is wrong with the lines before is
/// written. `Write` where the writer answered an error, took no byte of some, or failed its flush: then a
/// beginning of the text is written. `OutOfMemory` where memory is refused, and then nothing is read or
/// written. `BadSettings` exactly where the settings are bad: then nothing is read or written.
pub fn run_report<R: Source, W: Sink>(
    alloc: Global,
    reader: &mut R,
    writer: &mut W,
    settings: Settings,
    report: Report,
) -> Result<Status, RunFault>
    ensures { Runs report settings result (course R.shown reader.old reader.new) (course W.shown writer.old writer.new) }
{
    let ended = replay_log(alloc, reader, writer, settings, report)?;
    Ok(ended.status)
}

/// [`run_report`], which also counts the lines that the heap refused.
///
/// # Errors
///
/// Those of `run_report`: then the count stays.
pub fn run_counting<R: Source, W: Sink>(
    alloc: Global,
    reader: &mut R,
    writer: &mut W,
    settings: Settings,
    report: Report,
    refused: &mut u64,
) -> Result<Status, RunFault>
    ensures ran { Runs report settings result (course R.shown reader.old reader.new) (course W.shown writer.old writer.new) }
    ensures counted { IfOk result (λ status. CountsRefused settings refused.new (R.shown reader.old) (R.shown reader.new)) }
    ensures kept { OnErr result (refused.new ≡ refused.old) }
{
    let ended = replay_log(alloc, reader, writer, settings, report)?;
    *refused = ended.refused;
    Ok(ended.status)
}

/// [`run_report`] of `Report::Leaks`, the report of leaks: what is held at the end of the log.
pub fn run_leaks<R: Source, W: Sink>(
    alloc: Global,
    reader: &mut R,
    writer: &mut W,
    settings: Settings,
) -> Result<Status, RunFault>
    ensures { Runs Report.Leaks settings result (course R.shown reader.old reader.new) (course W.shown writer.old writer.new) }
{
    run_report(alloc, reader, writer, settings, Report::Leaks)
}

/// [`run_report`] of `Report::Peak`, the report of the peak: the sums over the lines, and what is free at the end of the log.
pub fn run_peak<R: Source, W: Sink>(
    alloc: Global,
    reader: &mut R,
    writer: &mut W,
    settings: Settings,
) -> Result<Status, RunFault>
    ensures { Runs Report.Peak settings result (course R.shown reader.old reader.new) (course W.shown writer.old writer.new) }
{
    run_report(alloc, reader, writer, settings, Report::Peak)
}

/// [`run_report`] of `Report::Walk`, the report of the walk: the pools at the end of the log, each with its blocks.
pub fn run_walk<R: Source, W: Sink>(
    alloc: Global,
    reader: &mut R,
    writer: &mut W,
    settings: Settings,
) -> Result<Status, RunFault>
    ensures { Runs Report.Walk settings result (course R.shown reader.old reader.new) (course W.shown writer.old writer.new) }
{
    run_report(alloc, reader, writer, settings, Report::Walk)
}
