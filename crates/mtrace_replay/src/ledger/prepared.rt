//! What a report of a log without a heap takes memory for.

ghost use Rattle.std.specs.Prelude.{IfOk};
ghost use Rattle.mtrace_replay.specs.Prepared.{IsOf, HasNamed};

use super::replay::LedgerReplay;
use super::report::LedgerReport;
use super::shares::When;
use crate::held::caller::Caller;
use crate::held::site::Site;
use std::alloc::{AllocError, Global};

/// A report for which all memory was taken, with what it names.
#[derive(Drop)]
pub(crate) enum Prepared<'a> {
    // The addresses that are held, in order.
    Held(Vec<u64>),
    // The sums over the lines.
    Sums,
    // The sites of what was held at the peak, and of what is held at the end.
    Sites {
        peak: Vec<Site<'a>>,
        end: Vec<Site<'a>>,
    },
    // Those sites, and who asked.
    Callers {
        peak: Vec<Site<'a>>,
        end: Vec<Site<'a>>,
        callers: Vec<Caller<'a>>,
    },
    // No report.
    Nothing,
}

/// Takes the memory of a report of what a replay holds.
///
/// # Errors
///
/// `AllocError` where memory is refused.
pub(crate) fn prepare<'a>(
    alloc: Global,
    replay: &'a LedgerReplay,
    report: LedgerReport,
) -> Result<Prepared<'a>, AllocError>
    ensures report { IfOk result (IsOf report) }
    ensures named { IfOk result (HasNamed replay.now) }
{
    match report {
        LedgerReport::Held => {
            let addresses = replay.ledger().addresses(alloc)?;
            Ok(Prepared::Held(addresses))
        }
        LedgerReport::Sums => Ok(Prepared::Sums),
        LedgerReport::Sites => {
            let peak = replay.ledger().sites(alloc, When::Peak)?;
            let end = replay.ledger().sites(alloc, When::End)?;
            Ok(Prepared::Sites { peak, end })
        }
        LedgerReport::Callers => {
            let peak = replay.ledger().sites(alloc, When::Peak)?;
            let end = replay.ledger().sites(alloc, When::End)?;
            let callers = replay.ledger().callers(alloc)?;
            Ok(Prepared::Callers { peak, end, callers })
        }
        LedgerReport::Nothing => Ok(Prepared::Nothing),
    }
}
