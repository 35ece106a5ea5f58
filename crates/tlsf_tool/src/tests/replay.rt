//! Replays over both heaps.

ghost use Rattle.std.specs.Prelude.{◌≡◌, false};

mod all_forms;
mod hostile;
mod random_lines;
mod refused_memory;
mod rows;
mod saving;
mod sizes;
mod starts;
mod sums;

use mtrace_log::{Event, Line, LineFault, read_line};
use mtrace_replay::*;
use std::alloc::Global;
use std::process::Abort;
use tlsf_heap::{Heap, Heaped, PlainHeap, Refusal};

/// One pool of 1024 bytes and 16 records.
const SMALL: Settings = Settings {
    pool: 1024,
    pools: 1,
    records: 16,
};

/// A replay that is fed lines by their text, which are numbered from 1 on.
#[derive(Drop)]
struct Fed<H: Heaped> {
    replay: Replay<H>,
    lines: u64,
    ghost counted: { replay.out_of_memory ≡ false → lines ≡ replay.totals.lines },
}

impl<H: Heaped> Fed<H> {
    fn create(alloc: Global, settings: Settings) -> Result<Self, ReplayFault> {
        let replay = Replay::create(alloc, settings)?;
        Ok(Fed { replay, lines: 0 })
    }

    fn feed(&mut self, rt: &impl Abort, text: &str) -> Result<Note, ReplayFault> {
        self.feed_event(rt, read_line(text.as_bytes()))
    }

    fn feed_event(
        &mut self,
        rt: &impl Abort,
        event: Result<Event, LineFault>,
    ) -> Result<Note, ReplayFault> {
        let Some(number) = self.lines.checked_add(1) else {
            panic!(rt; "too many lines");
        };
        let answer = self.replay.feed(Line { number, event });
        self.lines = number;
        answer
    }
}

/// What is expected to be held: an address, the size, the number of the line and the location.
#[derive(Clone, Copy)]
struct Held(u64, u64, u64, Option<&'static str>);

impl Held {
    fn is(&self, entry: &Entry) -> bool {
        let is_there = match (&entry.at, self.3) {
            (Some(location), Some(text)) => location.bytes() == text.as_bytes(),
            (None, None) => true,
            _ => false,
        };
        entry.addr.value() == self.0 && entry.size == self.1 && entry.line == self.2 && is_there
    }
}

/// Compares what is held, in order of address.
fn expect_held<H: Heaped>(rt: &impl Abort, name: &str, replay: &Replay<H>, wanted: &[Held]) {
    let mut held = replay.held();
    for one in wanted {
        match held.next() {
            Some(entry) => assert!(rt; one.is(entry), "{name}: {entry:?}"),
            None => panic!(rt; "{name}: too few are held"),
        }
    }
    assert!(rt; held.next().is_none(), "{name}: too many are held");
}
