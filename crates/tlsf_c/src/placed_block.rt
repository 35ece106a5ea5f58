//! A block of a heap with addresses, as its caller gets it.

ghost use Rattle.std.specs.Prelude.{◌≡◌};
ghost use Rattle.tlsf_c.specs.Status.{number};

use crate::status::number;
use tlsf_heap::Refusal;

/// The address of a block, and the word that the caller puts into the eight bytes in front of it. Where a call is refused the
/// address is 0, and the word is the number of the refusal.
#[repr(C)]
#[derive(Clone, Copy)]
pub struct PlacedBlock {
    /// The address, or 0.
    pub address: u64,
    /// The word of its front, or the number of a refusal.
    pub word: u64,
}

impl PlacedBlock {
    /// What is answered where a call is refused.
    #[inline(always)]
    pub(crate) fn refused(refusal: Refusal) -> PlacedBlock
        ensures address { result.address ≡ 0 }
        ensures word { result.word ≡ number refusal }
    {
        PlacedBlock {
            address: 0,
            word: u64::from(number(refusal)),
        }
    }
}
