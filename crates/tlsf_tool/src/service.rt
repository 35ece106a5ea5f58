//! One run, with its status.

ghost use Rattle.std.specs.Prelude.{◌≡◌, ◌≤◌};
ghost use Rattle.mtrace_replay.specs.Course.{course};
ghost use Rattle.mtrace_replay.specs.Run.{Runs, CountsRefused};
ghost use Rattle.mtrace_replay.specs.Reporting.{PutsAndFlushes};
ghost use Rattle.mtrace_replay.specs.Saving.{RunsAndSaves};
ghost use Rattle.tlsf_tool.specs.Statuses.{report_of, EndsAs, Rereads, PutsHelp};

use crate::asked::{HeapReport, Rereading, ToolFault};
use crate::statuses::{end_status, fault_status};
use arrayvec::ArrayString;
use mtrace_log::{Again, Failed, Sink, Source, put_all};
use mtrace_replay::{
    Report, RunFault, Settings, Status, Watch, run_counting, run_fit, run_ledger_timeline,
    run_save, run_site_timeline, run_sites, run_timeline,
};
use std::alloc::Global;
use std::fmt::Write;
use std::hash::RandomState;

/// No text of a run's fault is longer, in bytes.
const LONGEST_FAULT: usize = 64;

/// Puts the line of a fault; it doesn't matter whether that succeeds.
pub(crate) fn put_fault<E: Sink>(errors: &mut E, fault: &ToolFault) {
    let mut text: ArrayString<LONGEST_FAULT> = ArrayString::new();
    if write!(text, "{fault}\n").is_ok() {
        let _ = put_all(errors, text.as_str().as_bytes());
    }
}

/// Ends after a run of this answer: puts the line of its fault to `errors`, whose own fault doesn't matter. Answers the
/// status that the program ends with. It is 0 where nothing was found, and 1 where something was. It is 2 for bad settings, 3 where a
/// reader or a writer failed, and 4 where memory was refused.
pub fn end_run<E: Sink>(errors: &mut E, run: Result<Status, RunFault>) -> u8
    ensures { EndsAs (λ outcome. outcome ≡ run) result errors.old errors.new }
{
    match run {
        Ok(status) => end_status(status),
        Err(fault) => {
            put_fault(errors, &ToolFault::Run(fault));
            fault_status(fault)
        }
    }
}

/// Puts a text, and flushes.
pub(crate) fn put_text<W: Sink>(writer: &mut W, text: &[u8]) -> Result<(), Failed>
    ensures { PutsAndFlushes result text.now (W.shown writer.old) (W.shown writer.new) }
{
    put_all(writer, text)?;
    writer.flush()
}

/// Puts help or the version, and flushes. Puts the line of a fault to `errors`, whose own fault doesn't matter. Answers
/// the status that the program ends with: 0 where all is put, and 3 where the writer failed.
pub fn serve_help<W: Sink, E: Sink>(text: &str, writer: &mut W, errors: &mut E) -> u8
    ensures { EndsAs (λ outcome. PutsHelp text.now outcome (W.shown writer.old) (W.shown writer.new)) result errors.old errors.new }
{
    let run = match put_text(writer, text.as_bytes()) {
        Ok(()) => Ok(Status::Clean),
        Err(_) => Err(RunFault::Write),
    };
    end_run(errors, run)
}

/// The report of this name.
fn report_of(name: HeapReport) -> Report
    ensures { result ≡ report_of name }
{
    match name {
        HeapReport::Leaks => Report::Leaks,
        HeapReport::Peak => Report::Peak,
        HeapReport::Walk => Report::Walk,
    }
}

/// Makes the report of this name from what the reader has left, and counts the lines that the heap refused. Puts the line of a fault
/// to `errors`, whose own fault doesn't matter. Answers the status that the program ends with. It is 0 where nothing was found, 1
/// where something was, and 2 for bad settings. It is 3 where the reader or the writer failed, and 4 where memory was refused.
pub fn serve<R: Source, W: Sink, E: Sink>(
    alloc: Global,
    name: HeapReport,
    settings: Settings,
    reader: &mut R,
    writer: &mut W,
    errors: &mut E,
    refused: &mut u64,
) -> u8
    ensures ran { EndsAs (λ outcome. Runs (report_of name) settings outcome (course R.shown reader.old reader.new) (course W.shown writer.old writer.new))
        result errors.old errors.new }
    ensures counted { result ≤ 1 → CountsRefused settings refused.new (R.shown reader.old) (R.shown reader.new) }
{
    let run = run_counting(alloc, reader, writer, settings, report_of(name), refused);
    end_run(errors, run)
}

/// Makes what reads its log more than once, of the log that the reader has left. Its faults are those of the run that it makes.
pub fn run_again<R: Again, W: Sink, T: Watch>(
    alloc: Global,
    seed: RandomState,
    what: Rereading,
    reader: &mut R,
    writer: &mut W,
    watch: &T,
) -> Result<Status, RunFault>
    ensures { Rereads what result (course R.shown reader.old reader.new) (course W.shown writer.old writer.new) }
{
    match what {
        Rereading::Sites(settings) => run_sites(alloc, reader, writer, settings),
        Rereading::Timeline {
            heap: None,
            stretches,
        } => { run_ledger_timeline(alloc, seed, reader, writer, stretches) }
        Rereading::Timeline {
            heap: Some(settings),
            stretches,
        } => run_timeline(alloc, reader, writer, settings, stretches),
        Rereading::SiteTimeline(stretches) => {
            run_site_timeline(alloc, seed, reader, writer, stretches)
        }
        Rereading::Fit { front, step } => run_fit(alloc, reader, writer, front, step, watch),
    }
}

/// Saves the heap at the end of the log that the reader has left, by `run_save`. Puts the line of a fault to
/// `errors`, whose own fault doesn't matter. Answers the status that the program ends with. It is 0 where nothing was
/// found, 1 where something was, and 2 for bad settings. It is 3 where the reader or a writer failed, and 4 where
/// memory was refused.
pub fn serve_save<R: Source, W: Sink, I: Sink, E: Sink>(
    alloc: Global,
    settings: Settings,
    reader: &mut R,
    writer: &mut W,
    image: &mut I,
    errors: &mut E,
) -> u8
    ensures { EndsAs (λ outcome. RunsAndSaves settings outcome (course R.shown reader.old reader.new) (course W.shown writer.old writer.new)
        (course I.shown image.old image.new)) result errors.old errors.new }
{
    end_run(errors, run_save(alloc, reader, writer, image, settings))
}
