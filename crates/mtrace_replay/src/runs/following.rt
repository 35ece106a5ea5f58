//! The lines of a log, read and replayed, with what is told of each put at once.

ghost use Rattle.std.specs.Prelude.{◌≡◌, [], IfOk, OnOk};
ghost use Rattle.mtrace_log.specs.Output.{Puts};
ghost use Rattle.mtrace_replay.specs.Texts.{diagnostics_text};
ghost use Rattle.mtrace_replay.specs.LineReplay.{has_some, TellsLine};
ghost use Rattle.mtrace_replay.specs.Following.{ReadsLog};

use crate::held::findings::Findings;
use crate::runs::line_replay::{LineReplay, TellFault};
use crate::runs::run::put_findings;
use crate::runs::status::RunFault;
use mtrace_log::{Failed, Lines, Sink, Source};

/// Puts what is wrong with a line, and then nothing is. Answers whether anything was.
#[inline(always)]
pub(crate) fn put_found<W: Sink>(writer: &mut W, findings: &mut Findings) -> Result<bool, Failed>
    ensures put { Puts result (diagnostics_text findings.old) (W.shown writer.old) (W.shown writer.new) }
    ensures found { IfOk result (λ more. more ≡ has_some findings.old) }
    ensures cleared { OnOk result (findings.new ≡ []) }
{
    if findings.is_empty() {
        return Ok(false);
    }
    put_findings(writer, findings)?;
    Ok(true)
}

/// Puts what is wrong with a line, and nothing else. Answers whether anything was.
///
/// # Errors
///
/// `Write` where the writer failed.
#[inline(always)]
pub(crate) fn tell_found<W: Sink>(
    writer: &mut W,
    findings: &mut Findings,
) -> Result<bool, TellFault>
    ensures { TellsLine (λ text. text ≡ diagnostics_text findings.old) ⊥ result findings.old findings.new (W.shown writer.old) (W.shown writer.new) }
{
    match put_found(writer, findings) {
        Ok(more) => Ok(more),
        Err(_) => Err(TellFault::Write),
    }
}

/// Reads and follows all lines of the log; what is told of a line is put at once. Answers whether anything is. The findings are
/// empty before each line, so one serves all. Where that stops before the end, but for the writer, the writer is asked to flush.
///
/// # Errors
///
/// `Read` where the reader failed, or a line past the last number would come. `Write` where the writer failed. `OutOfMemory` where
/// memory was refused.
pub(crate) fn read_log<P: LineReplay, R: Source, W: Sink>(
    reader: &mut R,
    writer: &mut W,
    replay: &mut P,
) -> Result<bool, RunFault>
    requires start { P.rules.lines replay.old ≡ 0 }
    requires ready { P.rules.IsReady replay.old }
    requires told { (start : P.rules.Start) → P.rules.noted start [] ≡ [] → P.rules.Tells start [] [] }
    ensures { ReadsLog P.rules result replay.old replay.new (R.shown reader.old) (R.shown reader.new) (W.shown writer.old) (W.shown writer.new) }
{
    let mut lines = Lines::new();
    let mut has_diagnostics = false;
    let mut findings = Findings::none();
    loop {
        let number = match lines.advance(reader) {
            Ok(Some(number)) => number,
            Ok(None) => return Ok(has_diagnostics),
            Err(_) => {
                let _ = writer.flush();
                return Err(RunFault::Read);
            }
        };
        match replay.take_line(number, lines.event(), &mut findings) {
            Ok(()) => {}
            Err(_) => {
                let _ = writer.flush();
                return Err(RunFault::OutOfMemory);
            }
        }
        match replay.tell_line(writer, &mut findings) {
            Ok(more) => has_diagnostics |= more,
            Err(TellFault::Write) => return Err(RunFault::Write),
            Err(TellFault::OutOfMemory) => {
                let _ = writer.flush();
                return Err(RunFault::OutOfMemory);
            }
        }
    }
}
