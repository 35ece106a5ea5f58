//! The run that puts snapshots of a report without a heap, while it reads the log.

ghost use Rattle.std.specs.Prelude.{◌≡◌, ◌<◌, ◌++◌, [], IfOk, OnOk, decimal, codes};
ghost use Rattle.mtrace_log.specs.Output.{Puts};
ghost use Rattle.mtrace_replay.specs.Texts.{diagnostics_text};
ghost use Rattle.mtrace_replay.specs.LineReplay.{has_some};
ghost use Rattle.mtrace_replay.specs.Prepared.{HasNamed, prepared_text};
ghost use Rattle.mtrace_replay.specs.Snapshots.{snapshot_line, StandsWithSnapshots, RunsSnapshots};

use super::clock::Clock;
use super::prepared::{Prepared, prepare};
use super::replay::LedgerReplay;
use super::report::{LedgerReport, put_ledger_report};
use super::run::finish;
use crate::held::findings::Findings;
use crate::held::line_text::{LineText, push_bytes, push_number};
use crate::runs::following::{put_found, read_log, tell_found};
use crate::runs::line_replay::{LineReplay, TellFault};
use crate::runs::status::{RunFault, Status};
use arrayvec::ArrayVec;
use mtrace_log::{Event, Failed, LentLocation, LineFault, Sink, Source, put_all};
use std::alloc::{AllocError, Global};
use std::hash::RandomState;

/// The line above a snapshot.
fn snapshot_line(lines: u64, time: u64) -> LineText
    ensures { result.items ≡ snapshot_line lines time }
{
    let mut text = ArrayVec::new();
    push_bytes(&mut text, b"At line ");
    push_number(&mut text, u128::from(lines));
    push_bytes(&mut text, b", ");
    push_number(&mut text, u128::from(time));
    push_bytes(&mut text, b" ms:\n");
    text
}

/// Puts a snapshot: its line, and the report of the lines so far.
fn put_snapshot<W: Sink>(
    writer: &mut W,
    replay: &LedgerReplay,
    time: u64,
    prepared: &Prepared<'_>,
) -> Result<(), Failed>
    requires named { HasNamed replay.now prepared.now }
    ensures { Puts result (snapshot_line replay.now.lines time ++ prepared_text replay.now prepared.now) (W.shown writer.old) (W.shown writer.new) }
{
    put_all(writer, snapshot_line(replay.lines(), time).as_slice())?;
    put_ledger_report(writer, replay, prepared)
}

/// Puts what is wrong with a line, and then a snapshot. Answers whether anything was wrong.
fn put_found_and_snapshot<W: Sink>(
    writer: &mut W,
    findings: &mut Findings,
    replay: &LedgerReplay,
    time: u64,
    prepared: &Prepared<'_>,
) -> Result<bool, Failed>
    requires named { HasNamed replay.now prepared.now }
    ensures put { Puts result (diagnostics_text findings.old ++ (snapshot_line replay.now.lines time ++ prepared_text replay.now prepared.now)) (W.shown writer.old) (W.shown writer.new) }
    ensures found { IfOk result (λ more. more ≡ has_some findings.old) }
    ensures cleared { OnOk result (findings.new ≡ []) }
{
    let more = put_found(writer, findings)?;
    put_snapshot(writer, replay, time, prepared)?;
    Ok(more)
}

/// A replay without a heap that puts snapshots of a report.
#[derive(Drop)]
pub(crate) struct Snapshots {
    replay: LedgerReplay,
    clock: Clock,
    report: LedgerReport,
    alloc: Global,
}

impl Snapshots {
    /// A replay of no line yet, with spans of this many milliseconds. It takes no memory.
    fn new(alloc: Global, seed: RandomState, report: LedgerReport, every: u64) -> Snapshots
        ensures stands { StandsWithSnapshots (record { every = every; report = report }) result [] }
        ensures every { result.clock.every ≡ every }
        ensures lines { result.replay.lines ≡ 0 }
    {
        Snapshots {
            replay: LedgerReplay::new(alloc, seed),
            clock: Clock::new(every),
            report,
            alloc,
        }
    }
}

impl LineReplay for Snapshots {
    ghost use Rattle.mtrace_replay.specs.Snapshots.{snapshot_rules};

    ghost rules = { snapshot_rules };

    #[inline(always)]
    fn lines(&self) -> u64 {
        self.replay.lines()
    }

    #[inline(always)]
    fn take_line(
        &mut self,
        number: u64,
        event: Result<Event<LentLocation<'_>>, LineFault>,
        findings: &mut Findings,
    ) -> Result<(), AllocError> {
        self.clock.see(&event);
        self.replay.feed_lent(number, event, findings)
    }

    fn tell_line<W: Sink>(
        &self,
        writer: &mut W,
        findings: &mut Findings,
    ) -> Result<bool, TellFault> {
        let Some(time) = self.clock.due() else {
            return tell_found(writer, findings);
        };
        let Ok(prepared) = prepare(self.alloc, &self.replay, self.report) else {
            return Err(TellFault::OutOfMemory);
        };
        match put_found_and_snapshot(writer, findings, &self.replay, time, &prepared) {
            Ok(more) => Ok(more),
            Err(_) => Err(TellFault::Write),
        }
    }
}

/// Reads a log of mtrace(3) and follows it without a heap, as `run_ledger`, and puts snapshots of the report meanwhile. A snapshot
/// is the report of the lines so far, under a line that tells their number and the time in milliseconds. One is put behind the first
/// line `@ tN ! (nil) 0` by which one more span of `every` milliseconds is over, and behind each line `@ nN ! (nil) 0`.
///
/// The writer is flushed once at the end, but not after `Write`. After `Read` and `OutOfMemory` it doesn't matter whether that
/// succeeds. Memory is taken for each address that is held, for each location that is named, and for each report while it is put.
///
/// # Errors
///
/// `BadSettings` exactly where `every` is 0: then nothing is read or written. `Read` where the reader failed, or line 2^64 would
/// come: then what is told of the lines before is written. `Write` where the writer answered an error, took no byte of some, or
/// failed its flush: then a beginning of the text is written. `OutOfMemory` where memory is refused: then what is told of the lines
/// before is written.
pub fn run_ledger_snapshots<R: Source, W: Sink>(
    alloc: Global,
    seed: RandomState,
    reader: &mut R,
    writer: &mut W,
    report: LedgerReport,
    every: u64,
) -> Result<Status, RunFault>
    ensures { RunsSnapshots every report result (R.shown reader.old) (R.shown reader.new) (W.shown writer.old) (W.shown writer.new) }
{
    if every == 0 {
        return Err(RunFault::BadSettings);
    }
    let mut snapshots = Snapshots::new(alloc, seed, report, every);
    let has_diagnostics = match read_log(reader, writer, &mut snapshots) {
        Ok(has_diagnostics) => has_diagnostics,
        Err(fault) => return Err(fault),
    };
    let Ok(prepared) = prepare(alloc, &snapshots.replay, report) else {
        let _ = writer.flush();
        return Err(RunFault::OutOfMemory);
    };
    match finish(writer, &snapshots.replay, has_diagnostics, &prepared) {
        Ok(status) => Ok(status),
        Err(_) => Err(RunFault::Write),
    }
}
