ghost use Rattle.std.specs.Prelude.{◌≡◌};

use crate::addr::Addr;
use crate::location::{LentLocation, Location, kept_location, lent_location};

/// What one line of a log says. Each event has exactly one line, every byte as written. The last form is
/// this project's own; the others are of glibc's tracer:
///
/// - `= Start`
/// - `= End`
/// - `+ PTR SIZE`
/// - `- ADDR`
/// - `< ADDR`
/// - `> ADDR SIZE`
/// - `! PTR SIZE`
/// - `* ADDR ALIGN SIZE`
///
/// The first two stand alone. The others stand alone, or behind `@ LOCATION ` with one space at each
/// side of the location.
///
/// ADDR is `0x` and 1 to 16 digits `0` to `9` and `a` to `f`, the first not `0`. PTR is `(nil)` or an
/// ADDR. SIZE is `0`, or spelled as an ADDR. ALIGN is spelled as an ADDR.
///
/// `At` is what a location is: a [`Location`] that is kept, or a [`LentLocation`] where it lies in its line.
#[derive(Clone, Debug, Drop, PartialEq, Eq)]
pub enum Event<At = Location> {
    /// The tracer was started.
    Start,
    /// The tracer was stopped.
    End,
    /// `size` bytes were asked for, and `addr` given, or none.
    Alloc {
        /// Where in the program, if the line says it.
        at: Option<At>,
        /// The address given, or none where the allocation failed.
        addr: Option<Addr>,
        /// How many bytes were asked for.
        size: u64,
    },
    /// The block at `addr` was freed.
    Free {
        /// Where in the program, if the line says it.
        at: Option<At>,
        /// The address of the block.
        addr: Addr,
    },
    /// The block at `addr` is being reallocated.
    Old {
        /// Where in the program, if the line says it.
        at: Option<At>,
        /// The address that the block had.
        addr: Addr,
    },
    /// The new block of the reallocation before it: `size` bytes at `addr`.
    New {
        /// Where in the program, if the line says it.
        at: Option<At>,
        /// The address given.
        addr: Addr,
        /// How many bytes were asked for.
        size: u64,
    },
    /// A reallocation to `size` bytes failed.
    Failed {
        /// Where in the program, if the line says it.
        at: Option<At>,
        /// The address of the block that was to be reallocated, or none.
        addr: Option<Addr>,
        /// How many bytes were asked for.
        size: u64,
    },
    /// `size` bytes at a multiple of `align` were asked for, and `addr` given.
    Aligned {
        /// Where in the program, if the line says it.
        at: Option<At>,
        /// The address given.
        addr: Addr,
        /// The alignment, any number but 0: whether it is one that can be asked for is the heap's to say.
        align: Addr,
        /// How many bytes were asked for.
        size: u64,
    },
}

/// Why a line is no event.
#[derive(Clone, Copy, Debug, PartialEq, Eq)]
pub enum LineFault {
    /// It has more bytes than the longest line.
    TooLong = 1,
    /// It is the line of no event.
    NotALine = 2,
}

impl Event<LentLocation<'_>> {
    /// The event with its location kept.
    pub fn keep(&self) -> Event
        ensures { result ≡ self.now }
    {
        match self {
            Event::Start => Event::Start,
            Event::End => Event::End,
            Event::Alloc { at, addr, size } => Event::Alloc {
                at: kept_location(at),
                addr: *addr,
                size: *size,
            },
            Event::Free { at, addr } => Event::Free {
                at: kept_location(at),
                addr: *addr,
            },
            Event::Old { at, addr } => Event::Old {
                at: kept_location(at),
                addr: *addr,
            },
            Event::New { at, addr, size } => Event::New {
                at: kept_location(at),
                addr: *addr,
                size: *size,
            },
            Event::Failed { at, addr, size } => Event::Failed {
                at: kept_location(at),
                addr: *addr,
                size: *size,
            },
            Event::Aligned {
                at,
                addr,
                align,
                size,
            } => Event::Aligned {
                at: kept_location(at),
                addr: *addr,
                align: *align,
                size: *size,
            },
        }
    }
}

impl Event {
    /// The event with its location lent.
    pub fn lend(&self) -> Event<LentLocation<'_>>
        ensures { result ≡ self.now }
    {
        match self {
            Event::Start => Event::Start,
            Event::End => Event::End,
            Event::Alloc { at, addr, size } => Event::Alloc {
                at: lent_location(at),
                addr: *addr,
                size: *size,
            },
            Event::Free { at, addr } => Event::Free {
                at: lent_location(at),
                addr: *addr,
            },
            Event::Old { at, addr } => Event::Old {
                at: lent_location(at),
                addr: *addr,
            },
            Event::New { at, addr, size } => Event::New {
                at: lent_location(at),
                addr: *addr,
                size: *size,
            },
            Event::Failed { at, addr, size } => Event::Failed {
                at: lent_location(at),
                addr: *addr,
                size: *size,
            },
            Event::Aligned {
                at,
                addr,
                align,
                size,
            } => Event::Aligned {
                at: lent_location(at),
                addr: *addr,
                align: *align,
                size: *size,
            },
        }
    }
}
