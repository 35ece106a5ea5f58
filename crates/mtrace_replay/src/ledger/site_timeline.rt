//! The run that tells what each location holds over the lines of a log.

ghost use Rattle.std.specs.Prelude.{◌≡◌, ◌<◌, List, length, IfOk};
ghost use Rattle.std.specs.List.Sorted.{IsStrictlyIncreasing};
ghost use Rattle.mtrace_log.specs.Output.{Puts};
ghost use Rattle.mtrace_replay.specs.Course.{course};
ghost use Rattle.mtrace_replay.specs.Moment.{ReadLine};
ghost use Rattle.mtrace_replay.specs.Totals.{IsPeak};
ghost use Rattle.mtrace_replay.specs.Texts.{changes_text};
ghost use Rattle.mtrace_replay.specs.LedgerReplay.{ledger_history};
ghost use Rattle.mtrace_replay.specs.SiteTimeline.{PutsChanges, ReadsChanges, TellsAgain, FlushesTold};
ghost use Rattle.mtrace_replay.specs.RunSiteTimeline.{SitesFollow, RunsSiteTimeline};

use super::marked::MarkedReplay;
use super::point::LedgerPoint;
use super::replay::LedgerTotals;
use super::report::LedgerReport;
use super::run::follow_log;
use super::timeline::{TIMELINE_WORDS, told_lines};
use crate::held::lines::{InLine, put_lines};
use crate::held::site::Site;
use crate::runs::flush::flush_behind;
use crate::runs::reading::{Reading, Stop};
use crate::runs::status::{RunFault, Status};
use crate::runs::timeline::MOST_STRETCHES;
use mtrace_log::{Again, Failed, Sink, Source, put_all};
use std::alloc::Global;
use std::hash::RandomState;

/// Puts the line of a point, and a line for each site that has changed.
fn put_rows<W: Sink>(writer: &mut W, point: &LedgerPoint, sites: &[Site<'_>]) -> Result<(), Failed>
    ensures { Puts result (changes_text point.now sites.now) (W.shown writer.old) (W.shown writer.new) }
{
    point.put_line(writer)?;
    put_lines(writer, sites)
}

/// Puts what is held behind the last line, and what has changed since the mark.
///
/// # Errors
///
/// `Write` where the writer failed. `OutOfMemory` where memory is refused: then nothing is put.
fn put_changes<W: Sink>(
    alloc: Global,
    writer: &mut W,
    replay: &MarkedReplay,
) -> Result<(), RunFault>
    ensures { PutsChanges replay.now result (W.shown writer.old) (W.shown writer.new) }
{
    let Ok(sites) = replay.changes(alloc) else {
        return Err(RunFault::OutOfMemory);
    };
    match put_rows(writer, &replay.point(), sites.as_slice()) {
        Ok(()) => Ok(()),
        Err(_) => Err(RunFault::Write),
    }
}

/// Follows the log from its first line on, and puts behind each of the lines that are told what has changed since the one before.
///
/// # Errors
///
/// `Read` where the reader fails, or has fewer lines. `Write` where the writer failed. `OutOfMemory` where memory is refused.
fn tell_lines<R: Source, W: Sink>(
    alloc: Global,
    seed: RandomState,
    reader: &mut R,
    writer: &mut W,
    numbers: &[u64],
) -> Result<(), RunFault>
    requires rising { IsStrictlyIncreasing numbers.now }
    ensures { ReadsChanges numbers.now result (R.shown reader.old) (R.shown reader.new) (W.shown writer.old) (W.shown writer.new) }
{
    let mut replay = MarkedReplay::new(alloc, seed);
    let mut reading = Reading::new();
    for number in numbers {
        match reading.follow_up_to(reader, &mut replay, *number) {
            Ok(()) => {}
            Err(Stop::Memory) => return Err(RunFault::OutOfMemory),
            Err(Stop::Reader) => return Err(RunFault::Read),
        }
        reading.holds_few();
        match put_changes(alloc, writer, &replay) {
            Ok(()) => replay.mark_last(),
            Err(fault) => return Err(fault),
        }
    }
    Ok(())
}

/// Begins the log again, and puts the words and then what has changed behind each of the lines that are told.
///
/// # Errors
///
/// `Read` where the reader doesn't begin again, fails, or has fewer lines then. `Write` where the writer failed. `OutOfMemory` where
/// memory is refused.
fn tell_again<R: Again, W: Sink>(
    alloc: Global,
    seed: RandomState,
    reader: &mut R,
    writer: &mut W,
    numbers: &[u64],
) -> Result<(), RunFault>
    requires rising { IsStrictlyIncreasing numbers.now }
    ensures { TellsAgain numbers.now result (R.shown reader.old) (R.shown reader.new) (W.shown writer.old) (W.shown writer.new) }
{
    let Ok(()) = reader.begin() else {
        return Err(RunFault::Read);
    };
    let Ok(()) = put_all(writer, TIMELINE_WORDS) else {
        return Err(RunFault::Write);
    };
    tell_lines(alloc, seed, reader, writer, numbers)
}

/// Flushes where the telling didn't fail in the writer, and answers this status, or its fault.
fn flush_told<W: Sink>(
    writer: &mut W,
    told: Result<(), RunFault>,
    status: Status,
) -> Result<Status, RunFault>
    ensures { FlushesTold told status result (W.shown writer.old) (W.shown writer.new) }
{
    match told {
        Ok(()) => flush_behind(writer, Ok(()), status),
        Err(RunFault::Write) => Err(RunFault::Write),
        Err(fault) => {
            let _ = writer.flush();
            Err(fault)
        }
    }
}

/// Reads the log again, and puts what has changed behind the lines that are told. Answers this status.
fn tell_sites<R: Again, W: Sink>(
    alloc: Global,
    seed: RandomState,
    reader: &mut R,
    writer: &mut W,
    totals: LedgerTotals,
    stretches: u32,
    status: Status,
) -> Result<Status, RunFault>
    requires some { 0 < stretches }
    ensures answer { IfOk result (λ answered. answered ≡ status) }
    ensures told { (lines : List ReadLine) → totals.lines ≡ length lines → IsPeak (ledger_history lines) totals.peak_bytes totals.peak_line
        → SitesFollow stretches lines result (course R.shown reader.old reader.new) (course W.shown writer.old writer.new) }
{
    let Ok(numbers) = told_lines(alloc, totals, stretches) else {
        let _ = writer.flush();
        return Err(RunFault::OutOfMemory);
    };
    let told = tell_again(alloc, seed, reader, writer, numbers.as_slice());
    flush_told(writer, told, status)
}

/// Reads a log of mtrace(3) and follows it without a heap, and writes what is wrong with its lines, each as it comes. Then flushes
/// the writer, reads the log again, and writes what each location held over its lines. The lines that are told are those of
/// `run_ledger_timeline`. Behind the line of each point there is one for each location whose blocks or bytes have changed since the
/// point before, with what it holds now, in the order of sites. The writer is flushed once more.
///
/// Memory is taken in each reading for the addresses that are held and the locations that are named, and for the sites of a point
/// while they are written. What the first reading held is given back before the second one.
///
/// # Errors
///
/// `BadSettings` where the stretches aren't from 1 to 10,000: then nothing is read or written. `Read` where the reader failed, or line
/// 2^64 would come: then what is wrong with the lines before is written. `Read` comes also where the reader doesn't begin again,
/// fails then, or has fewer lines then: then the points before are written too. `OutOfMemory` where memory is refused: then what comes
/// before is written. `Write` where the writer answered an error, took no byte of some, or failed a flush: then a beginning of the
/// text is written.
pub fn run_site_timeline<R: Again, W: Sink>(
    alloc: Global,
    seed: RandomState,
    reader: &mut R,
    writer: &mut W,
    stretches: u32,
) -> Result<Status, RunFault>
    ensures { RunsSiteTimeline stretches result (course R.shown reader.old reader.new) (course W.shown writer.old writer.new) }
{
    if stretches == 0 || stretches > MOST_STRETCHES {
        return Err(RunFault::BadSettings);
    }
    let ended = match follow_log(alloc, seed, reader, writer, LedgerReport::Nothing) {
        Ok(ended) => ended,
        Err(fault) => return Err(fault),
    };
    let (totals, status) = (ended.replay.totals(), ended.status);
    drop(ended);
    tell_sites(alloc, seed, reader, writer, totals, stretches, status)
}
