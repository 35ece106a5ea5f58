//! The run that tells how large a pool a log needs.

ghost use Rattle.std.specs.Prelude.{◌≡◌, ◌+◌, ◌-◌, ◌/◌, ◌^◌, ◌<◌, ◌≤◌, ◌++◌, false, List, reverse, IfOk, OnOk};
ghost use Rattle.tlsf_class.specs.Classes.{greatest_size};
ghost use Rattle.mtrace_replay.specs.Course.{course};
ghost use Rattle.mtrace_replay.specs.Again.{FailsAgain};
ghost use Rattle.tlsf_heap.specs.Pools.{most_records};
ghost use Rattle.mtrace_replay.specs.Moment.{ReadLine};
ghost use Rattle.mtrace_replay.specs.Started.{started};
ghost use Rattle.mtrace_replay.specs.Replay.{StandsFor};
ghost use Rattle.mtrace_replay.specs.Needs.{AreNeeds};
ghost use Rattle.mtrace_replay.specs.Settings.{are_bad};
ghost use Rattle.mtrace_replay.specs.Fit.{one_pool, greatest_settings, enough_records, is_bad_step, first_number, multiples, Verdict, fitted as fitted_by};
ghost use Rattle.mtrace_replay.specs.RunFit.{IsTried, TriesLog, AreVerdicts, TriesRanges, TellsFit, ReadsAgain, FitFollows, RunsFit};

use crate::heap::replay::Replay;
use crate::heap::settings::{GREATEST_POOL, Settings};
use crate::heap::tried::is_served;
use crate::held::line_text::LineText;
use crate::runs::enough::sure_records;
use crate::runs::fit_text::{fitted_text, untried_text};
use crate::runs::fitted::Fitted;
use crate::runs::flush::flush_behind;
use crate::runs::fronted::Fronted;
use crate::runs::needs::{Needs, NeedsReplay, NeedsRun, replay_needs};
use crate::runs::status::{RunFault, Status};
use crate::runs::step::{Step, is_bad_step};
use crate::runs::watch::Watch;
use mtrace_log::{Again, Failed, Sink, put_all};
use std::alloc::Global;
use tlsf_heap::{Heap, MOST_RECORDS, sure_pool};

/// The settings of the first replay: the greatest pool, and the most records.
fn greatest() -> Settings
    ensures { result ≡ greatest_settings }
{
    Settings {
        pool: GREATEST_POOL,
        pools: 1,
        records: MOST_RECORDS,
    }
}

/// The records that are enough where at most this many addresses are held.
fn enough_records(most: u64) -> u32
    ensures value { result ≡ enough_records most }
    ensures some { 0 < result }
    ensures few { result ≤ MOST_RECORDS }
{
    let most_records = u64::from(MOST_RECORDS);
    sure_records(most.min(most_records)).min(most_records) as u32
}

/// What all sizes are tried with: how many bytes more each request has, the records, and how many lines.
#[derive(Clone, Copy)]
struct Trial {
    front: u64,
    records: u32,
    many: u64,
}

/// Begins the log again, and tries its first lines on one pool of this many bytes: whether no line is refused.
///
/// # Errors
///
/// `Failed` where the reader doesn't begin again, fails, or has fewer lines then.
fn try_size<R: Again>(
    reader: &mut R,
    tried: &mut Fronted<Replay<Heap>>,
    size: u64,
    trial: Trial,
) -> Result<bool, Failed>
    requires good { are_bad (one_pool size trial.records) ≡ false }
    requires few { trial.records ≤ tried.old.replay.content.records }
    ensures { TriesLog (λ serves. IsTried trial.front (one_pool size trial.records) trial.many serves (R.shown reader.old).whole (R.shown reader.new).left)
        (FailsAgain trial.many (R.shown reader.old) (R.shown reader.new))
        1 trial.records result (R.shown reader.old) (R.shown reader.new) tried.new.replay }
{
    tried.front = trial.front;
    tried.replay.restart(Settings {
        pool: size,
        pools: 1,
        records: trial.records,
    });
    reader.begin()?;
    is_served(reader, tried, trial.many)
}

/// Tries the multiples of the step from one number to another, in rising order, and adds what they tell.
fn try_range<R: Again>(
    reader: &mut R,
    tried: &mut Fronted<Replay<Heap>>,
    trial: Trial,
    step: Step,
    first: u64,
    last: u64,
    mut fitted: Fitted,
) -> Result<Fitted, Failed>
    requires some_number { 0 < first }
    requires last_within { last ≤ greatest_size / step }
    requires some_records { 0 < trial.records }
    requires few { trial.records ≤ MOST_RECORDS }
    requires within { trial.records ≤ tried.old.replay.content.records }
    requires tried { fitted.tried ≤ 2 ^ 61 }
    requires refused { fitted.refused ≤ fitted.tried }
    ensures tried { ReadsAgain trial.many (λ new times. (new.tried ≡ fitted.tried + times) × ((verdicts : List Verdict) × AreVerdicts trial.front trial.records trial.many (R.shown reader.old).whole (multiples step first last) verdicts
        × ((before : List Verdict) → fitted ≡ fitted_by before → new ≡ fitted_by (before ++ verdicts)))) result (R.shown reader.old) (R.shown reader.new) }
    ensures whole { (R.shown reader.new).whole ≡ (R.shown reader.old).whole }
    ensures within { OnOk result (trial.records ≤ tried.new.replay.content.records) }
    ensures few { IfOk result (λ new. new.tried ≤ fitted.tried + (last + 1 - first)) }
    ensures refused { IfOk result (λ new. new.refused ≤ new.tried) }
{
    let bytes = step.bytes();
    for number in first..last + 1 {
        let size = number * bytes;
        let serves = try_size(reader, tried, size, trial)?;
        fitted = fitted.with(size, serves);
    }
    Ok(fitted)
}

/// Tries the sizes for this step and this peak, in rising order. Where none of a range serves, the sizes behind it are tried by
/// a step twice as large, up to the greatest pool. How many a range has is told before.
fn try_sizes<R: Again, T: Watch>(
    reader: &mut R,
    tried: &mut Fronted<Replay<Heap>>,
    trial: Trial,
    mut step: Step,
    peak: u64,
    watch: &T,
) -> Result<Fitted, Failed>
    requires some_records { 0 < trial.records }
    requires few { trial.records ≤ MOST_RECORDS }
    requires within { trial.records ≤ tried.old.replay.content.records }
    ensures { ReadsAgain trial.many (λ fitted times. (times ≡ fitted.tried) × ((verdicts : List Verdict) × TriesRanges trial.front trial.records trial.many step (first_number step peak) (R.shown reader.old).whole verdicts
        × (fitted ≡ fitted_by verdicts))) result (R.shown reader.old) (R.shown reader.new) }
{
    let first = peak.div_ceil(step.bytes()).max(1);
    let last = step.last_number(first);
    watch.expect((last + 1).saturating_sub(first));
    let mut fitted = try_range(reader, tried, trial, step, first, last, Fitted::default())?;
    while fitted.least.is_none() && step.has_range_behind(first) {
        step = step.twice();
        let last = step.last_number(first);
        watch.expect(last.saturating_sub(first));
        fitted = try_range(reader, tried, trial, step, first + 1, last, fitted)?;
    }
    Ok(fitted)
}

/// The text of how large a pool the log of this first replay needs, with its needs. The log is read again for each size, unless the
/// greatest pool refuses a line.
fn fit_text<R: Again, T: Watch>(
    reader: &mut R,
    tried: &mut Fronted<Replay<Heap>>,
    needs: Needs,
    step: Option<u64>,
    watch: &T,
) -> Result<LineText, Failed>
    requires good { is_bad_step step ≡ false }
    requires records { tried.old.replay.content.records ≡ most_records }
    ensures { ReadsAgain tried.old.replay.totals.lines (λ text times. (lines : List ReadLine) → StandsFor tried.old.replay greatest_settings (reverse lines)
        → AreNeeds (started greatest_settings) (reverse lines) needs → TellsFit tried.old.front step lines (R.shown reader.old).whole times text.items) result (R.shown reader.old) (R.shown reader.new) }
{
    let totals = tried.replay.totals();
    if totals.refused > 0 {
        return Ok(untried_text(totals, needs.most));
    }
    let sure = sure_pool(needs.most, needs.most_rounded, needs.class_size);
    let peak = totals.peak_bytes;
    let trial = Trial {
        front: tried.front,
        records: enough_records(needs.most),
        many: totals.lines,
    };
    let fitted = try_sizes(reader, tried, trial, Step::of(step, peak), peak, watch)?;
    Ok(fitted_text(totals, needs.most, trial.records, fitted, sure))
}

/// Tells how large a pool the log needs that was replayed on the greatest one. Answers the status of that run.
fn tell_fit<R: Again, W: Sink, T: Watch>(
    reader: &mut R,
    writer: &mut W,
    ended: NeedsRun,
    front: u64,
    step: Option<u64>,
    watch: &T,
) -> Result<Status, RunFault>
    requires good { is_bad_step step ≡ false }
    requires records { ended.replay.replay.content.records ≡ most_records }
    ensures answer { IfOk result (λ answered. answered ≡ ended.status) }
    ensures told { (lines : List ReadLine) → StandsFor ended.replay.replay greatest_settings (reverse lines)
        → AreNeeds (started greatest_settings) (reverse lines) ended.replay.needs
        → FitFollows front step lines result (course R.shown reader.old reader.new) (course W.shown writer.old writer.new) }
{
    let NeedsRun { status, replay } = ended;
    let NeedsReplay { replay, needs } = replay;
    let mut tried = Fronted { replay, front };
    let Ok(text) = fit_text(reader, &mut tried, needs, step, watch) else {
        return Err(RunFault::Read);
    };
    let put = put_all(writer, text.as_slice());
    flush_behind(writer, put, status)
}

/// Reads a log of mtrace(3), and replays it on the greatest pool with the most records. Writes what is wrong with its
/// lines, each as it comes, and flushes the writer. Then writes how large a pool the log needs: the peak, the most
/// addresses held, and the records that are always enough, with the bytes of their table. With these come the least and the
/// safe size among the multiples of the step from the peak to twice the peak. Where none of them serves, it goes on behind, by
/// steps twice as large. For that the log is read again, once for each size, until a line is refused. Each reading reads as many
/// lines as the first. Last comes the size of the pool that is always enough within the log's most blocks, bytes and class. The
/// writer is flushed once more. What watches the run learns how many sizes are going to be tried.
///
/// Each request counts with `front` bytes more than the log tells, but at most 2^64 - 1. These are the bytes that a heap keeps in front
/// of each block. Where no step is given, it is the least multiple of the unit from a 64th of the peak on. Memory is taken at the start
/// alone, for one replay, which is made anew for each size.
///
/// # Errors
///
/// `BadSettings` exactly where the step isn't a whole number of units from one to the greatest size: then nothing is read or
/// written. `Read`, `Write` and `OutOfMemory` come as in the runs that write a report. `Read` where the reader doesn't begin
/// again, fails then, or has fewer lines then, too: what is wrong with the lines is written, and nothing of the sizes. `Write` where the writer fails at
/// that, too: a beginning of it is written.
pub fn run_fit<R: Again, W: Sink, T: Watch>(
    alloc: Global,
    reader: &mut R,
    writer: &mut W,
    front: u64,
    step: Option<u64>,
    watch: &T,
) -> Result<Status, RunFault>
    ensures { RunsFit front step result (course R.shown reader.old reader.new) (course W.shown writer.old writer.new) }
{
    if is_bad_step(step) {
        return Err(RunFault::BadSettings);
    }
    let ended = replay_needs(alloc, reader, writer, front, greatest())?;
    tell_fit(reader, writer, ended, front, step, watch)
}
