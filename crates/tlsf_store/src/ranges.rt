//! Where a pool can be.

ghost use Rattle.std.specs.Prelude.{◌≡◌};
ghost use Rattle.tlsf_store.specs.Ranges.{can_be_pool};

use tlsf_class::GREATEST_SIZE;

/// Where the last place ends, in bytes: no pool ends above it.
pub const END_OF_PLACES: u64 = 1 << 32;

/// The unit and the greatest size of a pool, in bytes.
const UNIT: u64 = tlsf_class::UNIT as u64;

const GREATEST_POOL: u64 = GREATEST_SIZE as u64;

/// Whether base and bytes, in bytes, can be those of a pool.
pub fn can_be_pool(base: u64, bytes: u64) -> bool
    ensures { result ≡ can_be_pool base bytes }
{
    base % UNIT == 0
        && bytes % UNIT == 0
        && UNIT <= bytes
        && bytes <= GREATEST_POOL
        && base <= END_OF_PLACES - bytes
}
