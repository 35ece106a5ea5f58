//! The ranges that sizes fall into.

ghost use Rattle.std.specs.Prelude.{◌≡◌};
ghost use Rattle.mtrace_replay.specs.Parts.{range_of};

use tlsf_class::UNIT;

/// How many ranges there are.
pub(crate) const RANGES: u8 = 27;

/// The range of a size, in bytes: the first that ends there or behind it. `RANGES` where none does.
pub(crate) fn range_of(size: u32) -> u8
    ensures { result ≡ range_of size }
{
    let mut range = 0;
    let mut end = u64::from(UNIT);
    while range < RANGES && end < u64::from(size) {
        range += 1;
        end *= 2;
    }
    range
}
