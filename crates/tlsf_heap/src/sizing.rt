//! How much memory is always enough, in whatever order blocks are asked for and given back.

ghost use Rattle.std.specs.Prelude.{◌≡◌};
ghost use Rattle.tlsf_heap.specs.Sizing.{class_size, sure_pool};

use crate::memalign::{is_alignment, size_asked};
use tlsf_class::{GREATEST_SIZE, UNIT, class_for, low, round};
use tlsf_store::MOST_RECORDS;

/// The lowest size, in bytes, of the class that a request for `n` bytes asks the free lists for, at a multiple of
/// `align`: from that class on each block has the bytes. `None` where there is no such class, or where `align` isn't a
/// power of two from 1 to 2^29.
pub fn class_size(align: u64, n: u64) -> Option<u32>
    ensures { result ≡ class_size align n }
{
    if !is_alignment(align) {
        return None;
    }
    let class = class_for(size_asked(align as u32, round(n)?))?;
    Some(low(class))
}

/// The bytes of one pool on which no request is refused for want of a block, whatever was asked before: a multiple of the
/// unit. At most `blocks` blocks are live, of at most `bytes` bytes, and `size` is the greatest `class_size` of the requests.
/// `None` where there is no such class, where no pool is so large, or where there can't be as many records.
pub fn sure_pool(blocks: u64, bytes: u64, size: Option<u32>) -> Option<u64>
    ensures { result ≡ sure_pool blocks bytes size }
{
    let size = size?;
    if blocks > u64::from((MOST_RECORDS - 3) / 2) || bytes > u64::from(GREATEST_SIZE) {
        return None;
    }
    let too_small = u64::from(size.saturating_sub(UNIT));
    let refusing = bytes + (blocks + 1) * too_small;
    let pool = (refusing + 1).next_multiple_of(u64::from(UNIT));
    (pool <= u64::from(GREATEST_SIZE)).then_some(pool)
}
