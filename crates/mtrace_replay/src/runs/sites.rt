//! The run that tells who holds the memory of a log.

ghost use Rattle.std.specs.Prelude.{◌≡◌, ◌++◌, ◌≤◌, ◌↔◌, List, [], reverse, IfOk, IsErrOf, IsTrue};
ghost use Rattle.mtrace_log.specs.Output.{Puts};
ghost use Rattle.mtrace_replay.specs.Course.{course};
ghost use Rattle.mtrace_replay.specs.declared.heap.settings.Settings.{Settings};
ghost use Rattle.mtrace_replay.specs.Settings.{are_bad};
ghost use Rattle.mtrace_replay.specs.Moment.{ReadLine};
ghost use Rattle.mtrace_replay.specs.Replay.{StandsFor, entries};
ghost use Rattle.mtrace_replay.specs.Texts.{both_sections, refused_line};
ghost use Rattle.mtrace_replay.specs.RunSites.{Groups, HasMemory, SitesFollow, RunsSites};

use crate::heap::again::replay_again;
use crate::heap::grouping::Grouping;
use crate::heap::replay::{Replay, ReplayFault};
use crate::heap::settings::Settings;
use crate::heap::totals::Totals;
use crate::held::amount::Amount;
use crate::held::line_text::refused_text;
use crate::held::sections::put_both;
use crate::held::site::Site;
use crate::runs::flush::flush_behind;
use crate::runs::report::Report;
use crate::runs::run::replay_log;
use crate::runs::status::{RunFault, Status};
use mtrace_log::{Again, Failed, Sink, put_all};
use std::alloc::Global;
use tlsf_heap::{Heap, Heaped};

/// Groups what a replay holds.
fn group_held<'a, H: Heaped>(replay: &'a Replay<H>, grouping: &mut Grouping<'a>) -> Amount
    requires room { replay.now.content.records ≤ grouping.old.room }
    ensures { Groups (entries replay.now) result grouping.new }
{
    let sum = Amount {
        blocks: replay.blocks(),
        bytes: u128::from(replay.bytes()),
    };
    grouping.group(replay.held());
    sum
}

/// Puts what is held at the peak and what is held at the end, each by its sites, and how many lines were refused.
fn put_told<W: Sink>(
    writer: &mut W,
    totals: Totals,
    peak_sum: Amount,
    peak_sites: &[Site<'_>],
    end_sum: Amount,
    end_sites: &[Site<'_>],
) -> Result<(), Failed>
    ensures { Puts result (both_sections totals.peak_line peak_sum.blocks peak_sum.bytes peak_sites.now end_sum.blocks end_sum.bytes end_sites.now
        ++ refused_line totals.refused) (W.shown writer.old) (W.shown writer.new) }
{
    put_both(
        writer,
        totals.peak_line,
        peak_sum,
        peak_sites,
        end_sum,
        end_sites,
    )?;
    put_all(writer, refused_text(totals.refused).as_slice())
}

/// Reads the log again, up to the line of the peak, and puts who holds its memory. Answers this status.
fn tell_sites<'a, R: Again, W: Sink>(
    reader: &mut R,
    writer: &mut W,
    at_end: &'a Replay<Heap>,
    at_peak: &'a mut Replay<Heap>,
    mut end: Grouping<'a>,
    mut peak: Grouping<'a>,
    status: Status,
) -> Result<Status, RunFault>
    requires start { at_peak.old.totals.lines ≡ 0 }
    requires as_few { at_peak.old.content.records ≡ at_end.now.content.records }
    requires end_room { at_end.now.content.records ≤ end.room }
    requires peak_room { at_end.now.content.records ≤ peak.room }
    ensures answer { IfOk result (λ answered. answered ≡ status) }
    ensures told { (settings : Settings) (lines : List ReadLine) → StandsFor at_end.now settings (reverse lines) → StandsFor at_peak.old settings []
        → SitesFollow settings lines result (course R.shown reader.old reader.new) (course W.shown writer.old writer.new) }
{
    let totals = at_end.totals();
    let end_sum = group_held(at_end, &mut end);
    let Ok(()) = replay_again(reader, at_peak, totals.peak_line) else {
        return Err(RunFault::Read);
    };
    let peak_sum = group_held(at_peak, &mut peak);
    let put = put_told(writer, totals, peak_sum, peak.sites(), end_sum, end.sites());
    flush_behind(writer, put, status)
}

/// What a run takes memory for beside its first replay. This is a replay to the peak, and room to group what is held
/// there and at the end.
fn take_memory<'a>(
    alloc: Global,
    settings: Settings,
) -> Result<(Replay<Heap>, Grouping<'a>, Grouping<'a>), ReplayFault>
    ensures made { IfOk result (λ taken. HasMemory settings taken.0 taken.1.room taken.2.room) }
    ensures bad_settings { IsErrOf result ReplayFault.BadSettings ↔ IsTrue (are_bad settings) }
{
    let replay = Replay::create(alloc, settings)?;
    let Ok(peak) = Grouping::new(alloc, settings.records) else {
        return Err(ReplayFault::OutOfMemory);
    };
    let Ok(end) = Grouping::new(alloc, settings.records) else {
        return Err(ReplayFault::OutOfMemory);
    };
    Ok((replay, peak, end))
}

/// Reads a log of mtrace(3), replays it on a heap by the settings, and writes what is wrong with its lines, each as
/// it comes. Then flushes the writer, reads the log again, up to the line of the peak, and writes who holds its
/// memory. That is what is held at the peak, and what is held at the end, each by the locations that asked for it. Where
/// lines were refused, their number stands in a last line. The writer is flushed once more.
///
/// Memory is taken at the start alone, for two replays, and to group what they hold. All that is held at the end is
/// grouped before the log is read again.
///
/// # Errors
///
/// `Read`, `Write`, `OutOfMemory` and `BadSettings` come as in the runs that write a report. `Read` comes also where the reader
/// doesn't begin again, fails then, or has fewer lines than the peak's number. Then what is wrong with the lines is written, and
/// nothing of what is held. `Write` comes also where the writer fails at what is held: a beginning of it is written.
pub fn run_sites<R: Again, W: Sink>(
    alloc: Global,
    reader: &mut R,
    writer: &mut W,
    settings: Settings,
) -> Result<Status, RunFault>
    ensures { RunsSites settings result (course R.shown reader.old reader.new) (course W.shown writer.old writer.new) }
{
    let (mut at_peak, peak, end) = match take_memory(alloc, settings) {
        Ok(taken) => taken,
        Err(ReplayFault::BadSettings) => return Err(RunFault::BadSettings),
        Err(ReplayFault::OutOfMemory) => return Err(RunFault::OutOfMemory),
    };
    let ended = replay_log(alloc, reader, writer, settings, Report::Nothing)?;
    tell_sites(
        reader,
        writer,
        &ended.replay,
        &mut at_peak,
        end,
        peak,
        ended.status,
    )
}
