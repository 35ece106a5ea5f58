//! The word in front of a block's address.

ghost use Rattle.std.specs.Prelude.{◌≡◌, ◌+◌, ◌*◌, ◌%◌, ◌^◌, ◌<◌, ◌≤◌};
ghost use Rattle.tlsf_c.specs.Fronts.{told_slot, told_size};

/// Addresses, places and sizes are multiples of it, in bytes.
pub(crate) const UNIT: u64 = tlsf_class::UNIT as u64;

/// The bytes in front of a block's address.
pub(crate) const FRONT: u64 = 8;

/// The most bytes that a block has behind its front.
pub(crate) const MOST: u64 = 1_073_741_808 - FRONT;

/// What a front tells of a block.
#[derive(Clone, Copy)]
pub(crate) struct Mark {
    /// Its size, in bytes.
    pub(crate) size: u64,
    /// Its slot.
    pub(crate) slot: u16,
}

/// An odd number, by which a mark is scrambled.
const SCRAMBLE: u64 = 0x9e37_79b9_7f4a_7c15;

/// The number that undoes it.
const UNSCRAMBLE: u64 = 0xf1de_83e1_9937_733d;

/// The word in front of an address that tells this mark.
#[inline(always)]
pub(crate) fn word_of(mark: Mark, address: u64) -> u64
    requires units { mark.size % 16 ≡ 0 }
    requires most { mark.size < 2 ^ 30 }
    ensures size { told_size result address ≡ mark.size }
    ensures slot { told_slot result address ≡ mark.slot }
{
    let kept = mark.size * 4_096 + u64::from(mark.slot);
    kept.wrapping_mul(SCRAMBLE).wrapping_add(address)
}

/// What a word in front of an address tells.
#[inline(always)]
pub(crate) fn mark_of(word: u64, address: u64) -> Mark
    ensures size { result.size ≡ told_size word address }
    ensures slot { result.slot ≡ told_slot word address }
{
    let kept = word.wrapping_sub(address).wrapping_mul(UNSCRAMBLE);
    Mark {
        size: kept / 65_536 * UNIT,
        slot: (kept % 65_536) as u16,
    }
}
