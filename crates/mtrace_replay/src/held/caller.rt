//! How often one location asked.

ghost use Rattle.std.specs.Prelude.{◌≡◌};
ghost use Rattle.mtrace_replay.specs.Callers.{caller_cmp};
ghost use Rattle.mtrace_replay.specs.Gather.{Sorts};

use crate::held::site::compare_locations;
use std::cmp::Ordering;
use std::marker::Model;

/// What one location asked for, or the lines without one.
#[derive(Debug, Drop)]
pub(crate) struct Caller<'a> {
    /// The location, where there is one.
    pub(crate) at: Option<&'a [u8]>,
    /// How many lines were given a block.
    pub(crate) calls: u64,
    /// How many bytes they asked for in sum.
    pub(crate) bytes: u128,
    /// How many of the blocks were released by the very next line.
    pub(crate) temporary: u64,
}

impl<'a> Model for Caller<'a> {
    ghost use Rattle.std.specs.Option.{option_copied};
    ghost use Rattle.mtrace_replay.specs.Calls.{Caller};

    ghost Value = { Caller };

    ghost view = { λ caller. record { calls = caller.calls; bytes = caller.bytes; temporary = caller.temporary; at = option_copied caller.at } };
}

impl<'a> Caller<'a> {
    /// How two callers stand: most calls first, then most bytes, then by their locations.
    fn compare(&self, other: &Caller<'_>) -> Ordering
        ensures { result ≡ caller_cmp self.now other.now }
    {
        match other
            .calls
            .cmp(&self.calls)
            .then(other.bytes.cmp(&self.bytes))
        {
            Ordering::Equal => compare_locations(self.at, other.at),
            Ordering::Less => Ordering::Less,
            Ordering::Greater => Ordering::Greater,
        }
    }
}

/// Sorts callers into their order.
pub(crate) fn sort_callers(callers: &mut Vec<Caller<'_>>)
    ensures { Sorts (λ caller. caller) caller_cmp callers.old callers.new }
{
    callers.sort_unstable_by(|a, b| a.compare(b));
}
