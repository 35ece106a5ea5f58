//! The run that tells which heaps by size serve a log.

ghost use Rattle.std.specs.Prelude.{◌≡◌, ◌≤◌, ◌<◌, ℕ, reverse, length, map, List, IfOk};
ghost use Rattle.mtrace_replay.specs.Course.{course};
ghost use Rattle.mtrace_replay.specs.declared.parts.span.Span.{Span};
ghost use Rattle.mtrace_replay.specs.LedgerReplay.{LedgerStandsFor};
ghost use Rattle.mtrace_replay.specs.Spans.{AreCountedOf};
ghost use Rattle.mtrace_replay.specs.Moment.{ReadLine};
ghost use Rattle.mtrace_replay.specs.Parts.{Part, size_ranges, IsCut, parts_of};
ghost use Rattle.mtrace_replay.specs.Cuts.{ArePartsIn};
ghost use Rattle.mtrace_replay.specs.PartsText.{part_in};
ghost use Rattle.mtrace_replay.specs.RunParts.{HasLines, RunsParts, PartsFollow};

use super::cut::least_cut;
use super::follow::follow_counted;
use super::replay::CountedReplay;
use super::span::Span;
use super::text::{PartOf, put_no_parts, put_parts};
use crate::runs::flush::flush_behind;
use crate::runs::fronted::Fronted;
use crate::runs::status::{RunFault, Status};
use arrayvec::ArrayVec;
use mtrace_log::{Sink, Source};
use std::alloc::Global;
use std::hash::RandomState;

/// The part that serves the ranges from one to another.
fn part_at(spans: &[Span], first: u8, last: u8) -> PartOf
    ensures { (part : ℕ → ℕ → Part) → ArePartsIn part spans.now → first ≤ last → last < size_ranges → part_in result ≡ part first last }
{
    for span in spans {
        if span.first == first && span.last == last {
            return PartOf {
                blocks: span.most,
                size: span.size,
            };
        }
    }
    PartOf { blocks: 0, size: 0 }
}

/// The parts that a cut makes.
fn parts_of(spans: &[Span], ends: &[u8]) -> ArrayVec<PartOf, 8>
    requires { length ends.now ≤ 8 }
    ensures { (part : ℕ → ℕ → Part) → ArePartsIn part spans.now → IsCut part 0 ends.now → map part_in result.items ≡ parts_of part 0 ends.now }
{
    let mut parts = ArrayVec::new();
    let mut first = 0;
    for last in ends {
        parts.push(part_at(spans, first, *last));
        first = last.saturating_add(1);
    }
    parts
}

/// Puts the heaps by size that serve the log, at most this number, behind its diagnostics. Answers this status.
fn tell_parts<W: Sink>(
    alloc: Global,
    writer: &mut W,
    replay: &CountedReplay,
    heaps: u32,
    status: Status,
) -> Result<Status, RunFault>
    requires some { 0 < heaps }
    requires few { heaps ≤ 8 }
    requires lines { HasLines replay.now }
    ensures answer { IfOk result (λ answered. answered ≡ status) }
    ensures told { (lines : List ReadLine) → LedgerStandsFor replay.now.ledger (reverse lines) → AreCountedOf (reverse lines) replay.now.spans
        → PartsFollow heaps lines result (W.shown writer.old) (W.shown writer.new) }
{
    let totals = replay.ledger.totals();
    let Some(spans) = &replay.spans else {
        let put = put_no_parts(writer, totals.peak_bytes, totals.peak_line);
        return flush_behind(writer, put, status);
    };
    let Ok(cut) = least_cut(alloc, spans.all.as_slice(), heaps) else {
        return Err(RunFault::OutOfMemory);
    };
    let parts = parts_of(spans.all.as_slice(), cut.ends.as_slice());
    let put = put_parts(
        writer,
        totals.peak_bytes,
        totals.peak_line,
        parts.as_slice(),
    );
    flush_behind(writer, put, status)
}

/// Reads a log of mtrace(3) and follows it without a heap, so that each block that is asked for is given. Writes what is wrong with
/// its lines, each as it comes, and flushes the writer. Then writes which heaps, each for a range of sizes, serve the log: their
/// blocks are all of one size, and no more of them are held at once. There are at most `heaps` of them, and their bytes are the
/// least. Each request has `front` bytes more than the log tells, but at most 2^64 - 1, as in `run_fit`. The writer is flushed once
/// more.
///
/// Memory is taken for each address that is held, for each location that is named, and at the end for the heaps.
///
/// # Errors
///
/// `BadSettings` where there are to be no heaps or more than 8: then nothing is read or written. `Read` where the reader failed, or
/// line 2^64 would come: then what is wrong with the lines before is written. `OutOfMemory` where memory is refused: then what is
/// wrong with the lines before is written, and no heaps. `Write` where the writer answered an error, took no byte of some, or failed
/// a flush: then a beginning of the text is written.
pub fn run_fit_heaps<R: Source, W: Sink>(
    alloc: Global,
    seed: RandomState,
    reader: &mut R,
    writer: &mut W,
    front: u64,
    heaps: u32,
) -> Result<Status, RunFault>
    ensures { RunsParts front heaps result (course R.shown reader.old reader.new) (course W.shown writer.old writer.new) }
{
    if heaps == 0 || heaps > 8 {
        return Err(RunFault::BadSettings);
    }
    let Ok(replay) = CountedReplay::new(alloc, seed) else {
        return Err(RunFault::OutOfMemory);
    };
    let mut fronted = Fronted { replay, front };
    match follow_counted(reader, writer, &mut fronted) {
        Ok(status) => tell_parts(alloc, writer, &fronted.replay, heaps, status),
        Err(fault) => Err(fault),
    }
}
