//! Which setting is a bad one, told on standard error behind the line of the fault, where causes are told.

use crate::asked::Rereading;
use crate::run::Run;
use mtrace_replay::{Bounds, Settings};

/// The status of bad settings.
pub(crate) const BAD_SETTINGS: u8 = 2;

/// Tells which setting of a heap is bad, where a run by these ended with the status of bad settings.
pub(crate) fn tell_bad_heap(run: &Run<'_>, status: u8, settings: Settings) {
    let Settings {
        pool,
        pools,
        records,
    } = settings;
    if status != BAD_SETTINGS || !run.tells_causes() {
        return;
    }
    let rt = run.rt;
    let _ = if pool % 16 != 0 {
        eprintln!(rt; "tlsf: --pool {pool} is no multiple of 16")
    } else if records < pools {
        eprintln!(rt; "tlsf: --records {records} is less than --pools {pools}")
    } else {
        eprintln!(rt; "tlsf: --pool {pool} times --pools {pools} is more than 4294967296")
    };
}

/// Tells which setting is bad of what reads its log more than once.
pub(crate) fn tell_bad_reading(run: &Run<'_>, status: u8, what: Rereading) {
    match what {
        Rereading::Sites(settings)
        | Rereading::Timeline {
            heap: Some(settings),
            ..
        } => tell_bad_heap(run, status, settings),
        Rereading::Fit {
            step: Some(step),
            ..
        } if status == BAD_SETTINGS && run.tells_causes() => {
            let _ = eprintln!(run.rt; "tlsf: --step {step} is no multiple of 16");
        }
        Rereading::Timeline { heap: None, .. }
        | Rereading::SiteTimeline(_)
        | Rereading::Fit { .. } => {}
    }
}

/// Tells which bound is a bad one.
pub(crate) fn tell_bad_bounds(run: &Run<'_>, status: u8, bounds: Bounds) {
    if let (BAD_SETTINGS, Some(align)) = (status, bounds.align) {
        if run.tells_causes() {
            let _ = eprintln!(run.rt;
                "tlsf: --align {align} is no power of two from 1 to 536870912"
            );
        }
    }
}
