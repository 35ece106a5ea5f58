//! A log that is read until a line is refused.

ghost use Rattle.std.specs.Prelude.{◌≡◌, []};
ghost use Rattle.mtrace_replay.specs.Replay.{StandsFor};
ghost use Rattle.mtrace_replay.specs.Again.{StopsEarly};
ghost use Rattle.mtrace_replay.specs.RunFit.{IsTried, TriesLog};
ghost use Rattle.mtrace_replay.specs.declared.heap.settings.Settings.{Settings};

use crate::heap::replay::Replay;
use crate::runs::fronted::Fronted;
use crate::runs::reading::Reading;
use mtrace_log::{Failed, Source};
use tlsf_heap::Heap;

/// Reads and replays the first lines of the log, this many, until one is refused: whether none is. What is wrong with them
/// isn't told.
///
/// # Errors
///
/// `Failed` where the reader fails, or has fewer lines.
pub(crate) fn is_served<R: Source>(
    reader: &mut R,
    tried: &mut Fronted<Replay<Heap>>,
    many: u64,
) -> Result<bool, Failed>
    requires start { tried.old.replay.totals.lines ≡ 0 }
    requires none { tried.old.replay.totals.refused ≡ 0 }
    ensures { TriesLog (λ serves. (settings : Settings) → StandsFor tried.old.replay settings [] → IsTried tried.old.front settings many serves (R.shown reader.old).left (R.shown reader.new).left)
        ((settings : Settings) → StandsFor tried.old.replay settings [] → StopsEarly many (R.shown reader.old) (R.shown reader.new))
        0 tried.old.replay.content.records result (R.shown reader.old) (R.shown reader.new) tried.new.replay }
{
    let mut reading = Reading::new();
    for _ in 0..many {
        match reading.follow_next(reader, tried) {
            Ok(()) => {}
            Err(_) => return Err(Failed),
        }
        if tried.replay.totals().refused > 0 {
            reading.holds_few();
            return Ok(false);
        }
    }
    reading.holds_few();
    Ok(true)
}
