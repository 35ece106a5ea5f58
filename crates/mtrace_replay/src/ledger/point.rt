//! What is held after a line, without a heap.

ghost use Rattle.std.specs.Prelude.{◌≡◌, List};
ghost use Rattle.mtrace_replay.specs.Moment.{ReadLine};
ghost use Rattle.mtrace_replay.specs.LedgerReplay.{LedgerStandsFor, ledger_moments};
ghost use Rattle.mtrace_replay.specs.LedgerTimeline.{IsLedgerPoint};

use super::replay::LedgerReplay;

/// What is held after a line.
#[derive(Clone, Copy, Debug, PartialEq, Eq)]
pub(crate) struct LedgerPoint {
    /// After how many lines.
    pub(crate) line: u64,
    /// The sum of the sizes held, in bytes as asked for.
    pub(crate) bytes: u128,
    /// How many addresses are held.
    pub(crate) blocks: u64,
}

/// What is held after the lines that were followed.
pub(crate) fn ledger_point(replay: &LedgerReplay) -> LedgerPoint
    ensures line { result.line ≡ replay.now.lines }
    ensures point { (past : List ReadLine) → LedgerStandsFor replay.now past → IsLedgerPoint (ledger_moments past) result }
{
    let totals = replay.totals();
    LedgerPoint {
        line: totals.lines,
        bytes: totals.live_bytes,
        blocks: totals.live_blocks,
    }
}
