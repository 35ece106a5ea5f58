//! The run that tells what is held over the lines of a log, without a heap.

ghost use Rattle.std.specs.Prelude.{◌≡◌, ◌<◌, ◌≤◌, List, flat_map, length, IfOk};
ghost use Rattle.std.specs.List.Sorted.{IsStrictlyIncreasing};
ghost use Rattle.mtrace_log.specs.Output.{Puts};
ghost use Rattle.mtrace_replay.specs.Course.{course};
ghost use Rattle.mtrace_replay.specs.Moment.{ReadLine};
ghost use Rattle.mtrace_replay.specs.Totals.{IsPeak};
ghost use Rattle.mtrace_replay.specs.Timeline.{AreTold};
ghost use Rattle.mtrace_replay.specs.Texts.{ledger_point_text, ledger_timeline_text};
ghost use Rattle.mtrace_replay.specs.LedgerReplay.{ledger_history};
ghost use Rattle.mtrace_replay.specs.LedgerTimeline.{ReadsLedgerPoints};
ghost use Rattle.mtrace_replay.specs.RunLedgerTimeline.{LedgerTimelineFollows, RunsLedgerTimeline};

use super::point::{LedgerPoint, ledger_point};
use super::replay::{LedgerReplay, LedgerTotals};
use super::report::LedgerReport;
use super::run::follow_log;
use crate::held::line_text::{LineText, push_bytes, push_column, push_number};
use crate::held::lines::{InLine, put_lines};
use crate::held::told::tell_lines;
use crate::runs::flush::flush_behind;
use crate::runs::reading::{Reading, Stop};
use crate::runs::status::{RunFault, Status};
use crate::runs::timeline::MOST_STRETCHES;
use arrayvec::ArrayVec;
use mtrace_log::{Again, Failed, Sink, put_all};
use std::alloc::{AllocError, Global};
use std::hash::RandomState;

/// The words above the points.
pub(crate) const TIMELINE_WORDS: &[u8] = b"line bytes blocks\n";

/// The line of a point.
fn point_text(point: &LedgerPoint) -> LineText
    ensures { result.items ≡ ledger_point_text point.now }
{
    let mut text = ArrayVec::new();
    push_number(&mut text, u128::from(point.line));
    push_column(&mut text, point.bytes);
    push_column(&mut text, u128::from(point.blocks));
    push_bytes(&mut text, b"\n");
    text
}

impl InLine for LedgerPoint {
    ghost line = { ledger_point_text };

    fn put_line<W: Sink>(&self, writer: &mut W) -> Result<(), Failed> {
        put_all(writer, point_text(self).as_slice())
    }
}

/// Puts the points below their words.
fn put_timeline<W: Sink>(writer: &mut W, points: &[LedgerPoint]) -> Result<(), Failed>
    ensures { Puts result (ledger_timeline_text points.now) (W.shown writer.old) (W.shown writer.new) }
{
    put_all(writer, TIMELINE_WORDS)?;
    put_lines(writer, points)
}

/// The numbers of the lines that are told, by the sums over all lines.
///
/// # Errors
///
/// `AllocError` where memory is refused for them.
pub(crate) fn told_lines(
    alloc: Global,
    totals: LedgerTotals,
    stretches: u32,
) -> Result<Vec<u64>, AllocError>
    requires some { 0 < stretches }
    ensures told { IfOk result (λ numbers. totals.peak_line ≤ totals.lines → AreTold totals.lines totals.peak_line stretches numbers.items) }
    ensures rising { IfOk result (λ numbers. IsStrictlyIncreasing numbers.items) }
{
    let mut numbers = Vec::with_capacity(alloc, stretches as usize + 2)?;
    tell_lines(totals.lines, totals.peak_line, stretches, &mut numbers);
    Ok(numbers)
}

/// Begins the log again, follows it up to the last of the lines that are told, and answers a point after each of these.
///
/// # Errors
///
/// `Read` where the reader doesn't begin again, fails, or has fewer lines then. `OutOfMemory` where memory is refused.
fn read_points<R: Again>(
    alloc: Global,
    seed: RandomState,
    reader: &mut R,
    numbers: &[u64],
) -> Result<Vec<LedgerPoint>, RunFault>
    requires rising { IsStrictlyIncreasing numbers.now }
    ensures { ReadsLedgerPoints (λ points. points.items) numbers.now result (R.shown reader.old) (R.shown reader.new) }
{
    let Ok(mut points) = Vec::with_capacity(alloc, numbers.len()) else {
        return Err(RunFault::OutOfMemory);
    };
    let Ok(()) = reader.begin() else {
        return Err(RunFault::Read);
    };
    let mut replay = LedgerReplay::new(alloc, seed);
    let mut reading = Reading::new();
    for number in numbers {
        match reading.follow_up_to(reader, &mut replay, *number) {
            Ok(()) => points.push_reserved(ledger_point(&replay)),
            Err(Stop::Memory) => return Err(RunFault::OutOfMemory),
            Err(Stop::Reader) => return Err(RunFault::Read),
        }
    }
    reading.holds_few();
    Ok(points)
}

/// Reads the log again, and puts what was held after the lines that are told. Answers this status.
fn tell_timeline<R: Again, W: Sink>(
    alloc: Global,
    seed: RandomState,
    reader: &mut R,
    writer: &mut W,
    totals: LedgerTotals,
    stretches: u32,
    status: Status,
) -> Result<Status, RunFault>
    requires some { 0 < stretches }
    ensures answer { IfOk result (λ answered. answered ≡ status) }
    ensures told { (lines : List ReadLine) → totals.lines ≡ length lines → IsPeak (ledger_history lines) totals.peak_bytes totals.peak_line
        → LedgerTimelineFollows stretches lines result (course R.shown reader.old reader.new) (course W.shown writer.old writer.new) }
{
    let Ok(numbers) = told_lines(alloc, totals, stretches) else {
        return Err(RunFault::OutOfMemory);
    };
    let points = match read_points(alloc, seed, reader, numbers.as_slice()) {
        Ok(points) => points,
        Err(fault) => return Err(fault),
    };
    let put = put_timeline(writer, points.as_slice());
    flush_behind(writer, put, status)
}

/// Reads a log of mtrace(3) and follows it without a heap, and writes what is wrong with its lines, each as it comes. Then flushes
/// the writer, reads the log again, and writes what was held over its lines. The log is cut into equal stretches, `stretches` of them.
/// There is a point before the first line, after the line of the peak, and after the last line of each stretch. A point has the bytes
/// and the blocks held. The writer is flushed once more.
///
/// Memory is taken in each reading for the addresses that are held and the locations that are named, and for the points. What the
/// first reading held is given back before the second one.
///
/// # Errors
///
/// `BadSettings` where the stretches aren't from 1 to 10,000: then nothing is read or written. `Read` where the reader failed, or line
/// 2^64 would come: then what is wrong with the lines before is written. `Read` comes also where the reader doesn't begin again,
/// fails then, or has fewer lines then. Then what is wrong with the lines is written, and no point. `OutOfMemory` where memory is
/// refused: then what is wrong with the lines before is written, and no point. `Write` where the writer answered an error, took no
/// byte of some, or failed a flush: then a beginning of the text is written.
pub fn run_ledger_timeline<R: Again, W: Sink>(
    alloc: Global,
    seed: RandomState,
    reader: &mut R,
    writer: &mut W,
    stretches: u32,
) -> Result<Status, RunFault>
    ensures { RunsLedgerTimeline stretches result (course R.shown reader.old reader.new) (course W.shown writer.old writer.new) }
{
    if stretches == 0 || stretches > MOST_STRETCHES {
        return Err(RunFault::BadSettings);
    }
    let ended = match follow_log(alloc, seed, reader, writer, LedgerReport::Nothing) {
        Ok(ended) => ended,
        Err(fault) => return Err(fault),
    };
    let (totals, status) = (ended.replay.totals(), ended.status);
    drop(ended);
    tell_timeline(alloc, seed, reader, writer, totals, stretches, status)
}
