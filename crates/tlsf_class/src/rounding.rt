//! Rounding up to the unit.

ghost use Rattle.std.specs.Prelude.{◌≡◌};
ghost use Rattle.tlsf_class.specs.Rounding.{round};

use super::{GREATEST_SIZE, UNIT};

/// The size, in bytes, of a block for `n` bytes: the least multiple of the unit at or above `n`.
/// `None` for 0, and for what is above the greatest size of a block.
pub fn round(n: u64) -> Option<u32>
    ensures { result ≡ round n }
{
    if n == 0 || n > u64::from(GREATEST_SIZE) {
        return None;
    }
    let size = n as u32;
    Some(size.next_multiple_of(UNIT))
}
