//! The lines of a log, followed with their blocks counted.

ghost use Rattle.std.specs.Prelude.{IfOk};
ghost use Rattle.mtrace_replay.specs.Spans.{AreFew};
ghost use Rattle.mtrace_replay.specs.Fronted.{fronted_ledger_moments};
ghost use Rattle.mtrace_replay.specs.Reporting.{TellsNothing};
ghost use Rattle.mtrace_replay.specs.RunLedger.{RunsLedgerBy};
ghost use Rattle.mtrace_replay.specs.RunParts.{IsStart, EndsCounted};

use super::replay::CountedReplay;
use crate::ledger::prepared::Prepared;
use crate::ledger::run::finish;
use crate::runs::following::read_log;
use crate::runs::fronted::Fronted;
use crate::runs::status::{RunFault, Status};
use mtrace_log::{Sink, Source};

/// Reads a log and follows it, each request with its bytes more, and writes what is wrong with its lines. Answers its status.
pub(crate) fn follow_counted<R: Source, W: Sink>(
    reader: &mut R,
    writer: &mut W,
    fronted: &mut Fronted<CountedReplay>,
) -> Result<Status, RunFault>
    requires start { IsStart fronted.old.replay }
    requires few { AreFew 0 fronted.old.replay.spans }
    ensures ran { RunsLedgerBy (fronted_ledger_moments fronted.old.front) TellsNothing result (R.shown reader.old) (R.shown reader.new) (W.shown writer.old) (W.shown writer.new) }
    ensures last { IfOk result (λ status. EndsCounted fronted.old.front status fronted.new.replay (R.shown reader.old) (R.shown reader.new) (W.shown writer.old) (W.shown writer.new)) }
{
    let has_diagnostics = match read_log(reader, writer, fronted) {
        Ok(has_diagnostics) => has_diagnostics,
        Err(fault) => return Err(fault),
    };
    match finish(
        writer,
        &fronted.replay.ledger,
        has_diagnostics,
        &Prepared::Nothing,
    ) {
        Ok(status) => Ok(status),
        Err(_) => Err(RunFault::Write),
    }
}
