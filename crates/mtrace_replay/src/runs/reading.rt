//! The first lines of a log, read and followed one after the other.

ghost use Rattle.std.specs.Prelude.{◌≡◌, ◌+◌, ◌≤◌, length};
ghost use Rattle.mtrace_log.specs.Progress.{most_asked};
ghost use Rattle.mtrace_replay.specs.Course.{course};
ghost use Rattle.mtrace_replay.specs.Replaying.{no_line, FollowsUpTo};

use crate::held::findings::Findings;
use crate::runs::line_replay::LineReplay;
use mtrace_log::{Lines, Source};
use std::marker::Model;

/// Why no more lines are followed.
#[derive(Clone, Copy)]
pub(crate) enum Stop {
    // The reader failed, or has no line with the next number.
    Reader,
    // Memory was refused.
    Memory,
}

/// How far a log is read. What is wrong with its lines isn't told.
#[derive(Drop)]
pub(crate) struct Reading {
    lines: Lines,
    // Empty before and after each line.
    findings: Findings,
}

impl Model for Reading {
    ghost use Rattle.std.specs.Prelude.{◌≡◌, []};
    ghost use Rattle.mtrace_log.specs.Progress.{Progress};

    ghost Value = { Progress };

    ghost view = { λ r. r.lines };

    ghost invariant = { λ r. r.findings ≡ [] };
}

impl Reading {
    /// No line is read yet.
    pub(crate) fn new() -> Reading
        ensures { result ≡ no_line }
    {
        Reading {
            lines: Lines::new(),
            findings: Findings::none(),
        }
    }

    /// Says how many bytes were asked of the reader at most that belong to no line yet, and does nothing.
    pub(crate) fn holds_few(&self)
        ensures { length self.now.held ≤ most_asked }
    {
        self.lines.holds_few();
    }

    /// Reads and follows the next line.
    ///
    /// # Errors
    ///
    /// `Reader` where the reader fails, or has no more lines. `Memory` where memory is refused.
    #[inline(always)]
    pub(crate) fn follow_next<P: LineReplay, R: Source>(
        &mut self,
        reader: &mut R,
        replay: &mut P,
    ) -> Result<(), Stop>
        requires counted { P.rules.lines replay.old ≡ self.old.count }
        requires ready { P.rules.IsReady replay.old }
        ensures { FollowsUpTo P.rules (self.old.count + 1) result self.old self.new replay.old replay.new (course R.shown reader.old reader.new) }
    {
        let number = match self.lines.advance(reader) {
            Ok(Some(number)) => number,
            Ok(None) => return Err(Stop::Reader),
            Err(_) => return Err(Stop::Reader),
        };
        let Ok(()) = replay.take_line(number, self.lines.event(), &mut self.findings) else {
            self.findings.clear();
            return Err(Stop::Memory);
        };
        self.findings.clear();
        Ok(())
    }

    /// Reads and follows the lines up to the one of this number.
    ///
    /// # Errors
    ///
    /// `Reader` where the reader fails, or has fewer lines. `Memory` where memory is refused.
    pub(crate) fn follow_up_to<P: LineReplay, R: Source>(
        &mut self,
        reader: &mut R,
        replay: &mut P,
        number: u64,
    ) -> Result<(), Stop>
        requires counted { P.rules.lines replay.old ≡ self.old.count }
        requires ready { P.rules.IsReady replay.old }
        requires ahead { self.old.count ≤ number }
        ensures { FollowsUpTo P.rules number result self.old self.new replay.old replay.new (course R.shown reader.old reader.new) }
    {
        for _ in replay.lines()..number {
            self.follow_next(reader, replay)?;
        }
        Ok(())
    }
}
