//! What every replay of a log's lines does.

ghost use Rattle.std.specs.Prelude.{◌≡◌, ◌+◌, []};
ghost use Rattle.mtrace_replay.specs.LineReplay.{LineRules, TakesLine, AddsTo, TellsLine};

use crate::held::findings::Findings;
use mtrace_log::{Event, LentLocation, LineFault, Sink};
use std::alloc::AllocError;

/// Why what is told of a line wasn't put.
#[derive(Clone, Copy, Debug, PartialEq, Eq)]
pub(crate) enum TellFault {
    /// The writer failed.
    Write,
    /// Memory was refused, and nothing was put.
    OutOfMemory,
}

/// A replay that takes the lines of a log, one after the other.
pub(crate) trait LineReplay {
    // For which lines it stands, what each adds to the diagnostics, and the text of them.
    ghost rules: { LineRules Self };

    /// How many lines it took.
    fn lines(&self) -> u64
        ensures { result ≡ rules.lines self.now };

    /// Replays the line of this number that says this, with its location where it lies. What is wrong goes to the findings.
    ///
    /// # Errors
    ///
    /// `AllocError` where memory is refused.
    fn take_line(
        &mut self,
        number: u64,
        event: Result<Event<LentLocation<'_>>, LineFault>,
        findings: &mut Findings,
    ) -> Result<(), AllocError>
        requires next { number ≡ rules.lines self.old + 1 }
        requires none { findings.old ≡ [] }
        requires ready { rules.IsReady self.old }
        ensures { TakesLine rules number event.entry findings.new result self.old self.new };

    /// Puts what is told of the line that was taken last: what is wrong with it, and then nothing is wrong any more. Answers whether
    /// anything was.
    ///
    /// # Errors
    ///
    /// `Write` where the writer failed, and `OutOfMemory` where memory is refused: then nothing is put.
    fn tell_line<W: Sink>(&self, writer: &mut W, findings: &mut Findings) -> Result<bool, TellFault>
        ensures { TellsLine (AddsTo rules self.now findings.old) rules.Lacks result findings.old findings.new (W.shown writer.old) (W.shown writer.new) };
}
