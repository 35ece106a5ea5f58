//! A clock that goes by the lines of a log.

ghost use Rattle.std.specs.Prelude.{◌≡◌, ◌<◌, [], None};
ghost use Rattle.mtrace_replay.specs.Marks.{spans_by};
ghost use Rattle.mtrace_replay.specs.Snapshots.{SeesLine};

use crate::held::mark::marked;
use mtrace_log::{Event, LentLocation, LineFault};

/// By the lines of a log that tell the time: how many spans of it are over, and whether it is time for a snapshot.
#[derive(Drop)]
pub(crate) struct Clock {
    every: u64,
    over: u64,
    due: Option<u64>,
}

/// How many spans of this many milliseconds are over by then.
fn spans_by(every: u64, time: Option<u64>) -> u64
    requires some { 0 < every }
    ensures { result ≡ spans_by every time }
{
    match time {
        Some(time) => time / every,
        None => 0,
    }
}

impl Clock {
    /// The clock of no line yet, with spans of this many milliseconds.
    pub(crate) fn new(every: u64) -> Clock
        ensures { result ≡ record { every = every; over = 0; due = None } }
    {
        Clock {
            every,
            over: 0,
            due: None,
        }
    }

    /// Sees one line more.
    pub(crate) fn see(&mut self, event: &Result<Event<LentLocation<'_>>, LineFault>)
        requires some { 0 < self.old.every }
        ensures { SeesLine event.now self.old self.new }
    {
        let time = marked(event, b't');
        let spans = spans_by(self.every, time);
        let next = if spans > self.over { time } else { None };
        self.due = marked(event, b'n').or(next);
        self.over = self.over.max(spans);
    }

    /// The time of the snapshot that is due behind the last line.
    pub(crate) fn due(&self) -> Option<u64>
        ensures { result ≡ self.now.due }
    {
        self.due
    }
}
