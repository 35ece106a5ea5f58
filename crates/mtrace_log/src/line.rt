ghost use Rattle.std.specs.Prelude.{◌≡◌};

use crate::event::{Event, LineFault};
use crate::location::LentLocation;

/// One line of a stream.
#[derive(Clone, Debug, Drop, PartialEq, Eq)]
pub struct Line {
    /// The number of the line, from 1.
    pub number: u64,
    /// What the line says, or why it is no event.
    pub event: Result<Event, LineFault>,
}

impl Line {
    /// What the line says, with its location lent.
    pub fn lend(&self) -> Result<Event<LentLocation<'_>>, LineFault>
        ensures { result ≡ self.now.event }
    {
        match &self.event {
            Ok(event) => Ok(event.lend()),
            Err(fault) => Err(*fault),
        }
    }
}

/// Why no further line is read.
#[derive(Clone, Copy, Debug, PartialEq, Eq)]
pub enum ReadFault {
    /// The reader failed.
    ReaderFailed,
    /// There are 2^64 - 1 lines, and one more would come.
    TooManyLines,
}
