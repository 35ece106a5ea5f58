//! The run that tells what is held over the lines of a log.

ghost use Rattle.std.specs.Prelude.{◌≡◌, ◌+◌, ◌<◌, ◌≤◌, ◌↔◌, false, List, [], reverse, flat_map, length, vec_capacity, IfOk, IsErrOf, IsTrue};
ghost use Rattle.std.specs.List.Sorted.{IsStrictlyIncreasing};
ghost use Rattle.mtrace_log.specs.Output.{Puts};
ghost use Rattle.mtrace_replay.specs.Course.{course};
ghost use Rattle.mtrace_replay.specs.Settings.{are_bad};
ghost use Rattle.mtrace_replay.specs.Moment.{ReadLine};
ghost use Rattle.mtrace_replay.specs.Replay.{StandsFor};
ghost use Rattle.mtrace_replay.specs.Texts.{point_text, timeline_text};
ghost use Rattle.mtrace_replay.specs.RunTimeline.{HasRoomForPoints, ReadsPoints, TimelineFollows, RunsTimeline};

use crate::heap::point::{Point, point_after};
use crate::heap::replay::{Replay, ReplayFault};
use crate::heap::settings::Settings;
use crate::heap::text::point_text;
use crate::held::line_text::refused_text;
use crate::held::lines::{InLine, put_lines};
use crate::held::told::tell_lines;
use crate::runs::flush::flush_behind;
use crate::runs::reading::Reading;
use crate::runs::report::Report;
use crate::runs::run::replay_log;
use crate::runs::status::{RunFault, Status};
use mtrace_log::{Again, Failed, Sink, put_all};
use std::alloc::{AllocError, Global};
use tlsf_heap::Heap;

/// The greatest number of stretches.
pub(crate) const MOST_STRETCHES: u32 = 10_000;

impl InLine for Point {
    ghost line = { point_text };

    fn put_line<W: Sink>(&self, writer: &mut W) -> Result<(), Failed> {
        put_all(writer, point_text(self).as_slice())
    }
}

/// Puts the points below their words, and how many lines were refused.
fn put_timeline<W: Sink>(writer: &mut W, points: &[Point], refused: u64) -> Result<(), Failed>
    ensures { Puts result (timeline_text points.now refused) (W.shown writer.old) (W.shown writer.new) }
{
    put_all(writer, b"line bytes blocks reach free largest\n")?;
    put_lines(writer, points)?;
    put_all(writer, refused_text(refused).as_slice())
}

/// Begins the log again, replays it up to the last of the lines that are told, and gathers a point after each of these.
///
/// # Errors
///
/// `Failed` where the reader doesn't begin again, fails, or has fewer lines then.
fn read_points<R: Again>(
    reader: &mut R,
    replay: &mut Replay<Heap>,
    numbers: &[u64],
    points: &mut Vec<Point>,
) -> Result<(), Failed>
    requires start { replay.old.totals.lines ≡ 0 }
    requires rising { IsStrictlyIncreasing numbers.now }
    requires empty { points.old.items ≡ [] }
    requires room { length numbers.now ≤ vec_capacity points.old }
    ensures { ReadsPoints numbers.now result points.new.items replay.old (R.shown reader.old) (R.shown reader.new) }
{
    reader.begin()?;
    let mut reading = Reading::new();
    for number in numbers {
        match reading.follow_up_to(reader, replay, *number) {
            Ok(()) => points.push_reserved(point_after(replay)),
            Err(_) => return Err(Failed),
        }
    }
    reading.holds_few();
    Ok(())
}

/// Room for what is told of a log.
#[derive(Drop)]
struct Room {
    numbers: Vec<u64>,
    points: Vec<Point>,
}

impl Room {
    /// Room for 0, the peak and this many stretches. It takes memory twice.
    fn new(alloc: Global, stretches: u32) -> Result<Room, AllocError>
        ensures { IfOk result (λ room. HasRoomForPoints stretches room.numbers room.points) }
    {
        let most = stretches as usize + 2;
        Ok(Room {
            numbers: Vec::with_capacity(alloc, most)?,
            points: Vec::with_capacity(alloc, most)?,
        })
    }
}

/// Reads the log again, and puts what was held after the lines that are told. Answers this status.
fn tell_timeline<R: Again, W: Sink>(
    reader: &mut R,
    writer: &mut W,
    replay: &mut Replay<Heap>,
    settings: Settings,
    stretches: u32,
    mut room: Room,
    status: Status,
) -> Result<Status, RunFault>
    requires good { are_bad settings ≡ false }
    requires records { replay.old.content.records ≡ settings.records }
    requires some { 0 < stretches }
    requires room { HasRoomForPoints stretches room.numbers room.points }
    ensures answer { IfOk result (λ answered. answered ≡ status) }
    ensures told { (lines : List ReadLine) → StandsFor replay.old settings (reverse lines)
        → TimelineFollows settings stretches lines result (course R.shown reader.old reader.new) (course W.shown writer.old writer.new) }
{
    let totals = replay.totals();
    tell_lines(totals.lines, totals.peak_line, stretches, &mut room.numbers);
    replay.restart(settings);
    let Ok(()) = read_points(reader, replay, room.numbers.as_slice(), &mut room.points) else {
        return Err(RunFault::Read);
    };
    let put = put_timeline(writer, room.points.as_slice(), totals.refused);
    flush_behind(writer, put, status)
}

/// Room for what is told, where the settings aren't bad.
fn take_room(alloc: Global, settings: Settings, stretches: u32) -> Result<Room, ReplayFault>
    ensures room { IfOk result (λ room. HasRoomForPoints stretches room.numbers room.points) }
    ensures bad_settings { IsErrOf result ReplayFault.BadSettings ↔ IsTrue (are_bad settings) }
{
    if settings.are_bad() {
        return Err(ReplayFault::BadSettings);
    }
    match Room::new(alloc, stretches) {
        Ok(room) => Ok(room),
        Err(_) => Err(ReplayFault::OutOfMemory),
    }
}

/// Reads a log of mtrace(3), replays it on a heap by the settings, and writes what is wrong with its lines, each as
/// it comes. Then flushes the writer, reads the log again, and writes what was held over its lines. The log is cut into
/// equal stretches, `stretches` of them. There is a point before the first line, after the line of the peak, and after the last line of
/// each stretch. A point has the bytes and the blocks held, the greatest end of a live block, the free bytes of all pools, and the
/// largest free block.
/// Where lines were refused, their number stands in a last line. The writer is flushed once more.
///
/// Memory is taken at the start alone, for one replay, which is made anew for the second reading, and for the points.
///
/// # Errors
///
/// `Read`, `Write`, `OutOfMemory` and `BadSettings` come as in the runs that write a report. `BadSettings` comes also where the
/// stretches aren't from 1 to 10,000: then nothing is read or written. `Read` comes also where the reader doesn't begin again, fails
/// then, or has fewer lines then. Then what is wrong with the lines is written, and no point. `Write` comes also where the writer
/// fails at the points: a beginning of them is written.
pub fn run_timeline<R: Again, W: Sink>(
    alloc: Global,
    reader: &mut R,
    writer: &mut W,
    settings: Settings,
    stretches: u32,
) -> Result<Status, RunFault>
    ensures { RunsTimeline settings stretches result (course R.shown reader.old reader.new) (course W.shown writer.old writer.new) }
{
    if stretches == 0 || stretches > MOST_STRETCHES {
        return Err(RunFault::BadSettings);
    }
    let room = match take_room(alloc, settings, stretches) {
        Ok(room) => room,
        Err(ReplayFault::BadSettings) => return Err(RunFault::BadSettings),
        Err(ReplayFault::OutOfMemory) => return Err(RunFault::OutOfMemory),
    };
    let mut ended = replay_log(alloc, reader, writer, settings, Report::Nothing)?;
    tell_timeline(
        reader,
        writer,
        &mut ended.replay,
        settings,
        stretches,
        room,
        ended.status,
    )
}
