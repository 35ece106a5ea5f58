//! The chains of the pools.

ghost use Rattle.std.specs.Prelude.{true, ◌≡◌, ◌<◌, ◌≤◌, IsTrue, length, IfSome, ◌+◌, ◌^◌};
ghost use Rattle.tlsf_store.specs.Records.{most_records};
ghost use Rattle.tlsf_heap.specs.Images.Rules.{has_links};
ghost use Rattle.tlsf_heap.specs.Images.Findings.{chain_found, chains_found, both, front_of, is_before, tally_and, OnlyReads, Finds};

use super::HasSections;
use tlsf_store::{MOST_POOLS, Pool, Record, Slot, State};

/// What is found where chains are followed to their ends.
#[derive(Clone, Copy)]
pub(crate) struct Tally {
    /// How many blocks they have.
    pub(crate) blocks: u32,
    /// Whether the blocks of each cover its pool end to end.
    pub(crate) covers: bool,
    /// Whether no two free blocks are neighbours.
    pub(crate) is_merged: bool,
}

/// What stands in front of a block in its chain: the block before it, if any; where that ends; whether it is
/// free.
#[derive(Clone, Copy)]
struct Front {
    block: Option<Slot>,
    end: u64,
    is_free: bool,
}

impl Front {
    /// What stands in front of the block behind this one.
    fn of(slot: Slot, block: &Record) -> Front
        ensures { result ≡ front_of slot block.now }
    {
        Front {
            block: Some(slot),
            end: u64::from(block.place) + u64::from(block.size),
            is_free: block.state.is_free(),
        }
    }

    /// Whether this stands in front of a block, as the block says.
    fn is_before(&self, block: &Record) -> bool
        ensures { result ≡ is_before self.now block.now }
    {
        block.state != State::Vacant && block.prev == self.block
    }
}

impl Tally {
    /// Of no chain.
    fn new() -> Tally
        ensures { result ≡ record { blocks = 0; covers = true; is_merged = true } }
    {
        Tally {
            blocks: 0,
            covers: true,
            is_merged: true,
        }
    }

    /// Both tallies together.
    fn and(self, other: Tally) -> Tally
        requires { self.blocks + other.blocks < 2 ^ 32 }
        ensures { result ≡ both self other }
    {
        Tally {
            blocks: self.blocks + other.blocks,
            covers: self.covers && other.covers,
            is_merged: self.is_merged && other.is_merged,
        }
    }

    /// The tally with a block behind this front.
    fn with(self, front: Front, block: &Record) -> Tally
        requires { self.blocks < most_records }
        ensures { result ≡ tally_and front block.now self }
    {
        Tally {
            blocks: self.blocks + 1,
            covers: self.covers && u64::from(block.place) == front.end,
            is_merged: self.is_merged && !(front.is_free && block.state.is_free()),
        }
    }
}

/// What is found in the chain of a pool, if it ends, has blocks alone, and is linked back.
fn look_at_chain<T: HasSections>(table: &mut T, pool: Pool) -> Option<Tally>
    requires links { IsTrue (has_links (T.sections table.old)) }
    requires within { pool.first < length (T.sections table.old).records }
    ensures value { result ≡ chain_found (T.sections table.old) pool }
    ensures few { IfSome result (λ tally. tally.blocks ≤ most_records) }
    ensures read { OnlyReads T.sections T.cells T.touches table.old table.new }
{
    let count = table.count();
    let start = u64::from(pool.base);
    let mut tally = Tally::new();
    let mut front = Front {
        block: None,
        end: start,
        is_free: false,
    };
    let mut next = Some(pool.first);
    while let Some(slot) = next {
        let block = table.record(slot);
        if tally.blocks >= count || !front.is_before(&block) {
            return None;
        }
        tally = tally.with(front, &block);
        front = Front::of(slot, &block);
        next = block.next;
    }
    let covers = tally.covers && front.end == start + u64::from(pool.bytes);
    Some(Tally { covers, ..tally })
}

/// What is found in the chains of all pools, if each ends, has blocks alone, and is linked back.
pub(crate) fn look_at_chains<T: HasSections>(table: &mut T) -> Option<Tally>
    requires links { IsTrue (has_links (T.sections table.old)) }
    ensures { Finds result (chains_found (T.sections table.old)) T.sections T.cells T.touches table.old table.new }
{
    let mut tally = Tally::new();
    for number in 0..MOST_POOLS as u32 {
        if let Some(pool) = table.pool(number) {
            tally = tally.and(look_at_chain(table, pool)?);
        }
    }
    Some(tally)
}
