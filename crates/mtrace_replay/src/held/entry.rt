ghost use Rattle.std.specs.Prelude.{◌≡◌};

use mtrace_log::{Addr, LentLocation, Location, set_location};

/// What is kept of an address that is held. `At` is what its location is, as in `mtrace_log::Event`.
#[derive(Debug, Drop, PartialEq, Eq)]
pub struct Entry<At = Location> {
    /// The address.
    pub addr: Addr,
    /// How many bytes were asked for.
    pub size: u64,
    /// The number of the line that asked.
    pub line: u64,
    /// The location of that line.
    pub at: Option<At>,
}

impl Entry {
    /// An entry that means nothing: a row before it is first written.
    pub(crate) fn blank() -> Entry {
        let Some(addr) = Addr::new(1) else {
            unreachable!()
        };
        Entry {
            addr,
            size: 0,
            line: 0,
            at: None,
        }
    }

    /// Becomes the other entry, with its location kept.
    pub(crate) fn set(&mut self, other: &Entry<LentLocation<'_>>)
        ensures { self.new ≡ other.now }
    {
        self.addr = other.addr;
        self.size = other.size;
        self.line = other.line;
        set_location(&mut self.at, &other.at);
    }
}

/// The entry of a line that asks for a block.
pub(crate) fn entry_of<'a>(
    number: u64,
    at: Option<LentLocation<'a>>,
    addr: Addr,
    size: u64,
) -> Entry<LentLocation<'a>>
    ensures { result ≡ record { addr = addr; size = size; line = number; at = at.entry } }
{
    Entry {
        addr,
        size,
        line: number,
        at,
    }
}
