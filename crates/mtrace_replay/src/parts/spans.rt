//! The spans of all neighbouring ranges, and the range of each block that is held.

ghost use Rattle.std.specs.Prelude.{◌≡◌, ℕ, [], ◌+◌, ◌^◌, ◌<◌, ◌==◌, map, Some, None, OnOk, OnErr, IfOk, if◌then◌else◌};
ghost use Rattle.std.specs.Prelude.{nat_eq};
ghost use Rattle.std.specs.HashMap.{get};
ghost use Rattle.std.specs.List.{All};
ghost use Rattle.mtrace_replay.specs.Parts.{range_of};
ghost use Rattle.mtrace_replay.specs.Span.{with_block, released};
ghost use Rattle.mtrace_replay.specs.Spans.{AreCounted, given_all, given_range, range_released, unless_released};

use super::range::range_of;
use super::span_rows::SpanRows;
use mtrace_log::Addr;
use std::alloc::{AllocError, Global};
use std::collections::HashMap;
use std::hash::RandomState;

/// A block that is given: its address, and its class size in bytes.
#[derive(Clone, Copy, Debug, PartialEq, Eq)]
pub(crate) struct Block {
    pub(crate) address: Addr,
    pub(crate) size: u32,
}

/// The spans of all neighbouring ranges, and the range of each block that is held, by its address.
#[derive(Drop)]
pub(crate) struct Spans {
    pub(crate) all: SpanRows,
    ranges: HashMap<u64, u8, RandomState>,
}

impl Spans {
    /// Nothing is held, nor was.
    ///
    /// # Errors
    ///
    /// `AllocError` where memory is refused.
    pub(crate) fn new(alloc: Global, seed: RandomState) -> Result<Spans, AllocError>
        ensures { IfOk result (λ spans. AreCounted [] spans.all (get nat_eq spans.ranges)) }
    {
        Ok(Spans {
            all: SpanRows::new(alloc)?,
            ranges: HashMap::with_hasher(alloc, seed),
        })
    }

    /// The address is held no more, where one is told.
    fn release(&mut self, address: Option<Addr>)
        ensures spans { self.new.all ≡ map (released (range_released (get nat_eq self.old.ranges) address)) self.old.all }
        ensures ranges { (other : ℕ) → get nat_eq self.new.ranges other ≡ unless_released address other (get nat_eq self.old.ranges other) }
    {
        let Some(address) = address else {
            return;
        };
        if let Some(range) = self.ranges.remove(&address.value()) {
            self.all.remove_block(range);
        }
    }

    /// A block of this size is held under the address, which isn't held.
    ///
    /// # Errors
    ///
    /// `AllocError` where memory is refused: then nothing is changed.
    fn hold(&mut self, address: Addr, size: u32) -> Result<(), AllocError>
        requires few { All (λ span. span.live + 1 < 2 ^ 64) self.old.all }
        ensures spans { OnOk result (self.new.all ≡ map (with_block (range_of size) size) self.old.all) }
        ensures ranges { OnOk result ((other : ℕ) → get nat_eq self.new.ranges other ≡ (if address == other then Some (range_of size) else get nat_eq self.old.ranges other)) }
        ensures spans_stay { OnErr result (self.new.all ≡ self.old.all) }
        ensures ranges_stay { OnErr result ((other : ℕ) → get nat_eq self.new.ranges other ≡ get nat_eq self.old.ranges other) }
    {
        let range = range_of(size);
        self.ranges.insert(address.value(), range)?;
        self.all.add_block(range, size);
        Ok(())
    }

    /// An address is held no more, if one is told, and then a block is given, if one is told.
    ///
    /// # Errors
    ///
    /// `AllocError` where memory is refused.
    pub(crate) fn follow(
        &mut self,
        freed: Option<Addr>,
        given: Option<Block>,
    ) -> Result<(), AllocError>
        requires few { All (λ span. span.live + 1 < 2 ^ 64) self.old.all }
        ensures spans { OnOk result (self.new.all ≡ given_all given (map (released (range_released (get nat_eq self.old.ranges) freed)) self.old.all)) }
        ensures ranges { OnOk result ((other : ℕ) → get nat_eq self.new.ranges other ≡ given_range given other (unless_released freed other (get nat_eq self.old.ranges other))) }
    {
        self.release(freed);
        match given {
            Some(block) => self.hold(block.address, block.size),
            None => Ok(()),
        }
    }
}
