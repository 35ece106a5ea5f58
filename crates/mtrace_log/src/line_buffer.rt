ghost use Rattle.std.specs.Prelude.{ℕ, ◌++◌, [], List};
ghost use Rattle.mtrace_log.specs.LineBuffer.{Holds, kept_bytes};
ghost use Rattle.mtrace_log.specs.Progress.{Says};

use crate::event::{Event, LineFault};
use crate::line_reader::{LONGEST_LINE, read_lent};
use crate::location::LentLocation;
use arrayvec::ArrayVec;

/// The bytes of one line, as long as they are few enough to be kept.
#[derive(Drop)]
pub(crate) struct LineBuffer {
    bytes: ArrayVec<u8, LONGEST_LINE>,
    too_long: bool,
}

impl LineBuffer {
    /// No byte.
    pub(crate) fn new() -> Self
        ensures { Holds result [] }
    {
        LineBuffer {
            bytes: ArrayVec::new(),
            too_long: false,
        }
    }

    /// More bytes.
    pub(crate) fn extend(&mut self, more: &[u8])
        ensures { (piece : List ℕ) → Holds self.old piece → Holds self.new (piece ++ more.now) }
    {
        if self.bytes.try_extend_from_slice(more).is_err() {
            self.too_long = true;
        }
    }

    /// What the line says.
    #[inline(never)]
    pub(crate) fn read(&self) -> Result<Event<LentLocation<'_>>, LineFault>
        ensures { Says (kept_bytes self.now) result }
    {
        if self.too_long {
            return Err(LineFault::TooLong);
        }
        read_lent(self.bytes.as_slice())
    }
}
