//! The reports.

ghost use Rattle.std.specs.Prelude.{◌≡◌, ◌≢◌, false, [], flat_map};
ghost use Rattle.mtrace_log.specs.Output.{Puts};
ghost use Rattle.mtrace_replay.specs.Replay.{entries};
ghost use Rattle.mtrace_replay.specs.Run.{PutsReport};
ghost use Rattle.mtrace_replay.specs.Texts.{entry_text, leaks_report, report_text};

use crate::heap::index::Entries;
use crate::heap::replay::Replay;
use crate::heap::text::peak_text;
use crate::held::line_text::{entry_text, total_text};
use mtrace_log::{Failed, Sink, put_all};
use tlsf_heap::Heaped;

/// What is written of a log, behind what is wrong with its lines.
#[derive(Clone, Copy, Debug, PartialEq, Eq)]
pub enum Report {
    /// What is held at the end: a line for each address, and how many blocks and bytes they are.
    Leaks,
    /// The sums over the lines, the most that was held, and what is free at the end.
    Peak,
    /// The heap's pools at the end, each with its blocks.
    Walk,
    /// Nothing more.
    Nothing,
}

/// Puts a line for each entry, in their order.
fn put_entries<W: Sink>(writer: &mut W, held: Entries<'_>) -> Result<(), Failed>
    ensures { Puts result (flat_map entry_text held.entry) (W.shown writer.old) (W.shown writer.new) }
{
    for entry in held {
        put_all(writer, entry_text(entry).as_slice())?;
    }
    Ok(())
}

/// Puts the report where something is held.
fn put_held<W: Sink, H: Heaped>(writer: &mut W, replay: &Replay<H>) -> Result<(), Failed>
    requires { entries replay.now ≢ [] }
    ensures { Puts result (leaks_report (entries replay.now)) (W.shown writer.old) (W.shown writer.new) }
{
    put_all(writer, b"Memory not freed:\n")?;
    put_entries(writer, replay.held())?;
    let blocks = replay.blocks();
    let total = total_text(blocks, replay.bytes());
    put_all(writer, total.as_slice())
}

/// Puts the report of leaks: a line for each address that is held, in order of address, and how many blocks and
/// bytes they are. Where none is held, it puts that there are no leaks.
///
/// # Errors
///
/// `Failed` where the writer failed, or took no byte of some: then a beginning of the report is put.
fn put_leaks<W: Sink, H: Heaped>(writer: &mut W, replay: &Replay<H>) -> Result<(), Failed>
    ensures { Puts result (leaks_report (entries replay.now)) (W.shown writer.old) (W.shown writer.new) }
{
    if replay.blocks() == 0 {
        put_all(writer, b"No memory leaks.\n")
    } else {
        put_held(writer, replay)
    }
}

/// Puts a report.
///
/// # Errors
///
/// `Failed` where the writer failed, or took no byte of some: then a beginning of the report is put.
pub(crate) fn put_report<W: Sink, H: Heaped>(
    writer: &mut W,
    replay: &mut Replay<H>,
    report: Report,
) -> Result<(), Failed>
    requires works { replay.old.out_of_memory ≡ false }
    ensures { PutsReport result report (report_text report (entries replay.old) replay.old.totals replay.old.content)
        replay.old replay.new (W.shown writer.old) (W.shown writer.new) }
{
    match report {
        Report::Leaks => put_leaks(writer, replay),
        Report::Peak => {
            let totals = replay.totals();
            let survey = replay.survey();
            put_all(writer, peak_text(totals, survey).as_slice())
        }
        Report::Walk => replay.put_walk(writer),
        Report::Nothing => Ok(()),
    }
}
