//! What is held after a line.

ghost use Rattle.std.specs.Prelude.{◌≡◌, List};
ghost use Rattle.mtrace_replay.specs.declared.heap.settings.Settings.{Settings};
ghost use Rattle.mtrace_replay.specs.Started.{started};
ghost use Rattle.mtrace_replay.specs.Moment.{ReadLine};
ghost use Rattle.mtrace_replay.specs.History.{moments};
ghost use Rattle.mtrace_replay.specs.Replay.{StandsFor, touched};
ghost use Rattle.mtrace_replay.specs.Timeline.{IsPoint};

use crate::heap::replay::Replay;
use tlsf_heap::Heap;

/// What is held after a line, and what the heap is then.
#[derive(Clone, Copy, Debug, PartialEq, Eq)]
pub(crate) struct Point {
    /// After how many lines.
    pub(crate) line: u64,
    /// The sum of the sizes held, in bytes as asked for.
    pub(crate) bytes: u64,
    /// How many blocks are held.
    pub(crate) blocks: u64,
    /// The greatest end of a live block, as a place; 0 where none is live.
    pub(crate) reach: u64,
    /// How many bytes are free, in all pools.
    pub(crate) free: u64,
    /// The size of the largest free block, in bytes; 0 where none is free.
    pub(crate) largest: u64,
}

/// What is held after the lines that were replayed.
pub(crate) fn point_after(replay: &mut Replay<Heap>) -> Point
    ensures line { result.line ≡ replay.old.totals.lines }
    ensures point { (settings : Settings) (past : List ReadLine) → StandsFor replay.old settings past → IsPoint (started settings) (moments (started settings) past) result }
    ensures kept { replay.new ≡ touched replay.new.touches replay.old }
{
    replay.keeps_working();
    let totals = replay.totals();
    let survey = replay.survey();
    Point {
        line: totals.lines,
        bytes: totals.live_bytes,
        blocks: totals.live_blocks,
        reach: survey.reach,
        free: survey.free_bytes,
        largest: survey.largest_free,
    }
}
