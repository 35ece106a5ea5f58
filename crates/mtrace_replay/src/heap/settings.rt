ghost use Rattle.std.specs.Prelude.{◌≡◌};
ghost use Rattle.mtrace_replay.specs.Settings.{are_bad};

use tlsf_class::GREATEST_SIZE;
use tlsf_heap::{END_OF_PLACES, MOST_POOLS, MOST_RECORDS};

/// The unit, and the greatest size of a pool, in bytes.
pub(crate) const UNIT: u64 = tlsf_class::UNIT as u64;

pub(crate) const GREATEST_POOL: u64 = GREATEST_SIZE as u64;

/// The heap that a log is replayed on: `pools` pools of `pool` bytes each, one behind the other from
/// place 0 on, and `records` records, one for each block.
#[derive(Clone, Copy, Debug, PartialEq, Eq)]
pub struct Settings {
    /// Bytes of each pool.
    pub pool: u64,
    /// How many pools.
    pub pools: u32,
    /// How many records.
    pub records: u32,
}

impl Settings {
    /// The settings where none are given: one pool of 16 MiB, and 8192 records.
    pub const DEFAULT: Settings = Settings {
        pool: 16_777_216,
        pools: 1,
        records: 8_192,
    };

    /// Whether no heap can be made by them: `pool` isn't a multiple of the unit from the unit to the
    /// greatest size of a block; `pools` isn't 1 to 8; `records` isn't 1 to 65,535 or is below
    /// `pools`; or the pools end above 2^32.
    pub fn are_bad(self) -> bool
        ensures { result ≡ are_bad self }
    {
        self.pool % UNIT != 0
            || self.pool < UNIT
            || self.pool > GREATEST_POOL
            || self.pools < 1
            || self.pools as usize > MOST_POOLS
            || self.records < 1
            || self.records > MOST_RECORDS
            || self.records < self.pools
            || self.pool * u64::from(self.pools) > END_OF_PLACES
    }
}
