//! The run that saves the heap of a log.

ghost use Rattle.mtrace_replay.specs.Course.{course};
ghost use Rattle.mtrace_replay.specs.Saving.{SavesLast, RunsAndSaves};

use crate::heap::replay::Replay;
use crate::heap::settings::Settings;
use crate::runs::report::Report;
use crate::runs::run::replay_log;
use crate::runs::status::{RunFault, Status};
use mtrace_log::{Failed, Sink, Source};
use std::alloc::Global;
use tlsf_heap::Heap;

/// Puts an image of the heap, and flushes.
fn save<I: Sink>(replay: &mut Replay<Heap>, image: &mut I) -> Result<(), Failed>
    ensures { SavesLast result replay.old.content (I.shown image.old) (I.shown image.new) }
{
    if replay.put_image(image).is_err() {
        return Err(Failed);
    }
    image.flush()
}

/// Reads a log of mtrace(3), replays it on a heap by the settings, and writes what is wrong with its lines, each as it
/// comes. Then flushes the writer, writes an image of the heap at the end of the log, and flushes the image's writer.
///
/// Memory is taken at the start alone, for the heap's records and for what is held.
///
/// # Errors
///
/// `Read`, `Write`, `OutOfMemory` and `BadSettings` come as in the runs that write a report; then nothing is asked of
/// the image's writer. `Image` where the image's writer answered an error, took no byte of some, or failed its flush.
/// Then what is wrong with the lines is written, and a beginning of the image.
pub fn run_save<R: Source, W: Sink, I: Sink>(
    alloc: Global,
    reader: &mut R,
    writer: &mut W,
    image: &mut I,
    settings: Settings,
) -> Result<Status, RunFault>
    ensures { RunsAndSaves settings result (course R.shown reader.old reader.new) (course W.shown writer.old writer.new)
        (course I.shown image.old image.new) }
{
    let mut ended = replay_log(alloc, reader, writer, settings, Report::Nothing)?;
    match save(&mut ended.replay, image) {
        Ok(()) => Ok(ended.status),
        Err(_) => Err(RunFault::Image),
    }
}
