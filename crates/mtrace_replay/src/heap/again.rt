//! A log that is replayed again on a heap.

ghost use Rattle.std.specs.Prelude.{◌≡◌};
ghost use Rattle.mtrace_replay.specs.Again.{ReplaysFirst};

use crate::heap::replay::Replay;
use crate::runs::reading::Reading;
use mtrace_log::{Again, Failed};
use tlsf_heap::Heap;

/// Begins the log again, and replays its first lines, this many. What is wrong with them isn't told.
///
/// # Errors
///
/// `Failed` where the reader doesn't begin again, fails, or has fewer lines then.
pub(crate) fn replay_again<R: Again>(
    reader: &mut R,
    replay: &mut Replay<Heap>,
    many: u64,
) -> Result<(), Failed>
    requires start { replay.old.totals.lines ≡ 0 }
    ensures { ReplaysFirst many result replay.old replay.new (R.shown reader.old) (R.shown reader.new) }
{
    reader.begin()?;
    let mut reading = Reading::new();
    match reading.follow_up_to(reader, replay, many) {
        Ok(()) => {
            reading.holds_few();
            Ok(())
        }
        Err(_) => Err(Failed),
    }
}
