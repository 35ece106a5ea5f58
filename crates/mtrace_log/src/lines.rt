ghost use Rattle.std.specs.Prelude.{◌≡◌, ◌<◌, ◌≤◌, [], length, Some};
ghost use Rattle.mtrace_log.specs.Bytes.{Lacks, newline};
ghost use Rattle.mtrace_log.specs.Progress.{Reading, greatest_number, most_asked, Says, GivesLine, PassesLine, Advances};

use crate::buffer::Buffer;
use crate::event::{Event, LineFault};
use crate::failed::Failed;
use crate::frequent::Frequent;
use crate::line::{Line, ReadFault};
use crate::line_buffer::LineBuffer;
use crate::line_reader::{kept, read_lent};
use crate::location::LentLocation;
use crate::pieces::{Stop, read_piece};
use crate::source::Source;
use std::marker::Model;

/// What has become of the stream.
#[derive(Clone, Copy)]
enum Stage {
    // Lines are read.
    Reading,
    // The reader told its end.
    Ended,
    // A fault was answered.
    Faulted(ReadFault),
}

/// The lines of a stream, numbered from 1, each with what it says.
///
/// The lines are the pieces between newlines (0x0A). A last piece without newline counts where it
/// isn't empty; an empty line between newlines counts and is `NotALine`.
#[derive(Drop)]
pub struct Lines {
    buffer: Buffer,
    // The line that was passed last, where it wasn't whole in the buffer.
    across: LineBuffer,
    is_across: bool,
    // What it says, where it was read as it was passed: then it lies in the buffer.
    frequent: Option<Frequent>,
    count: u64,
    stage: Stage,
}

impl Model for Lines {
    ghost use Rattle.std.specs.Prelude.{◌≡◌, [], false, Some, IfSome, if◌then◌else◌};
    ghost use Rattle.mtrace_log.specs.Frequent.{IsFrequent};
    ghost use Rattle.mtrace_log.specs.Progress.{Progress, Faulted};
    ghost use Rattle.mtrace_log.specs.LineBuffer.{kept_bytes};
    ghost use Rattle.mtrace_log.specs.Stage.{stage_of};
    ghost use Rattle.mtrace_log.specs.declared.line.ReadFault.TheVariants.{ReaderFailed};

    ghost Value = { Progress };

    ghost view = { λ lines. record {
      held = lines.buffer.unread;
      count = lines.count;
      stage = stage_of lines.stage;
      last = if lines.is_across then kept_bytes lines.across else Some lines.buffer.line;
    } };

    // The reader is asked only where no byte is unread, so nothing is held once it failed.
    ghost invariant = { λ lines. (stage_of lines.stage ≡ Faulted ReaderFailed → lines.buffer.unread ≡ [])
        × IfSome lines.frequent (λ frequent. (lines.is_across ≡ false) × IsFrequent lines.buffer.line frequent) };
}

impl Lines {
    /// No line is read yet.
    pub fn new() -> Self
        ensures { result ≡ record { held = []; count = 0; stage = Reading; last = Some [] } }
    {
        Lines {
            buffer: Buffer::new(),
            across: LineBuffer::new(),
            is_across: false,
            frequent: None,
            count: 0,
            stage: Stage::Reading,
        }
    }

    /// The next line of the text to come. That is what was asked of the reader and belongs to no line yet, and then
    /// what the reader has left. `None` where no line is left; from then on, and after a fault, the answer stays the
    /// same and the reader isn't asked again.
    ///
    /// # Errors
    ///
    /// `ReaderFailed` where the reader failed in this call: the unfinished piece is lost.
    /// `TooManyLines` where there are 2^64 - 1 lines and one more would come.
    pub fn next<R: Source>(&mut self, reader: &mut R) -> Result<Option<Line>, ReadFault>
        ensures { Advances GivesLine R.shown result self.old self.new reader.old reader.new }
    {
        let Some(number) = self.advance(reader)? else {
            return Ok(None);
        };
        let event = kept(&self.event());
        Ok(Some(Line { number, event }))
    }

    /// Passes over the next line, and answers its number: [`Lines::next`] but for what the line says, which is
    /// [`Lines::event`] then, until the next call.
    ///
    /// # Errors
    ///
    /// As [`Lines::next`].
    #[inline(always)]
    pub fn advance<R: Source>(&mut self, reader: &mut R) -> Result<Option<u64>, ReadFault>
        ensures { Advances PassesLine R.shown result self.old self.new reader.old reader.new }
    {
        match self.stage {
            Stage::Reading => self.read_next(reader),
            Stage::Ended => Ok(None),
            Stage::Faulted(fault) => Err(fault),
        }
    }

    /// Says how many bytes were asked of the reader at most that belong to no line yet, and does nothing.
    pub fn holds_few(&self)
        ensures { length self.now.held ≤ most_asked }
    {
        self.buffer.holds_few();
    }

    /// What the line says that was passed last, with its location where it lies; before the first, what an empty line says.
    #[inline(always)]
    pub fn event(&self) -> Result<Event<LentLocation<'_>>, LineFault>
        ensures { Says self.now.last result }
    {
        match self.frequent {
            Some(frequent) => Ok(frequent.event(self.buffer.line())),
            None => self.read_last(),
        }
    }

    /// What the line says that was passed last, where it wasn't read as it was passed.
    #[inline(never)]
    fn read_last(&self) -> Result<Event<LentLocation<'_>>, LineFault>
        ensures { Says self.now.last result }
    {
        if self.is_across {
            self.across.read()
        } else {
            read_lent(self.buffer.line())
        }
    }

    /// Passes over the next line, while lines are read.
    #[inline(always)]
    fn read_next<R: Source>(&mut self, reader: &mut R) -> Result<Option<u64>, ReadFault>
        requires { self.old.stage ≡ Reading }
        ensures { Advances PassesLine R.shown result self.old self.new reader.old reader.new }
    {
        if self.count == u64::MAX {
            return self.read_other(reader);
        }
        self.frequent = self.buffer.take_frequent();
        if self.frequent.is_none() {
            return self.read_other(reader);
        }
        self.is_across = false;
        self.count += 1;
        Ok(Some(self.count))
    }

    /// Passes over the next line, be it of any form. Where no byte is held, the buffer is filled first.
    #[inline(never)]
    fn read_other<R: Source>(&mut self, reader: &mut R) -> Result<Option<u64>, ReadFault>
        requires { self.old.stage ≡ Reading }
        ensures { Advances PassesLine R.shown result self.old self.new reader.old reader.new }
    {
        if !self.buffer.is_empty() {
            return self.read_held(reader);
        }
        self.frequent = None;
        match self.buffer.refill(reader) {
            Ok(0) => {
                self.stage = Stage::Ended;
                Ok(None)
            }
            Ok(_) => self.read_held(reader),
            Err(Failed) => {
                self.stage = Stage::Faulted(ReadFault::ReaderFailed);
                Err(ReadFault::ReaderFailed)
            }
        }
    }

    /// Passes over the next line, of which bytes are held.
    fn read_held<R: Source>(&mut self, reader: &mut R) -> Result<Option<u64>, ReadFault>
        requires reading { self.old.stage ≡ Reading }
        requires some { 0 < length self.old.held }
        ensures { Advances PassesLine R.shown result self.old self.new reader.old reader.new }
    {
        self.frequent = None;
        if self.count == u64::MAX {
            self.stage = Stage::Faulted(ReadFault::TooManyLines);
            return Err(ReadFault::TooManyLines);
        }
        if !self.buffer.take_line() {
            return self.read_across(reader);
        }
        self.is_across = false;
        self.count += 1;
        Ok(Some(self.count))
    }

    /// Passes over the next line, whose first bytes are held, and not its newline.
    #[inline(never)]
    fn read_across<R: Source>(&mut self, reader: &mut R) -> Result<Option<u64>, ReadFault>
        requires reading { self.old.stage ≡ Reading }
        requires some { 0 < length self.old.held }
        requires no_newline { Lacks newline self.old.held }
        requires room { self.old.count < greatest_number }
        ensures { Advances PassesLine R.shown result self.old self.new reader.old reader.new }
    {
        self.frequent = None;
        let (line, stop) = read_piece(&mut self.buffer, reader);
        match stop {
            Stop::Newline => {}
            Stop::Failed => {
                self.stage = Stage::Faulted(ReadFault::ReaderFailed);
                return Err(ReadFault::ReaderFailed);
            }
            Stop::End => self.stage = Stage::Ended,
        }
        self.across = line;
        self.is_across = true;
        self.count += 1;
        Ok(Some(self.count))
    }
}
