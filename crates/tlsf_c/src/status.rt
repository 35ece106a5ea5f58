//! The numbers that C programs get for what a call answers.

ghost use Rattle.std.specs.Prelude.{◌≡◌, ◌<◌};
ghost use Rattle.tlsf_c.specs.Status.{number};
ghost use Rattle.tlsf_c.specs.Saving.{fault_number};

use tlsf_heap::{ImageFault, Refusal};

/// What is answered where the call is served.
pub(crate) const SERVED: u32 = 0;

/// What is answered where memory is refused.
pub(crate) const OUT_OF_MEMORY: u32 = 9;

/// What is answered where the number of records isn't from 1 to 65,535.
pub(crate) const BAD_COUNT: u32 = 11;

/// What is answered where there is no room for the end of an image.
pub(crate) const NO_ROOM: u32 = 14;

/// The number of a refusal.
pub(crate) fn number(refusal: Refusal) -> u32
    ensures value { result ≡ number refusal }
    ensures positive { 0 < result }
{
    refusal as u32
}

/// The number of what keeps an image from being loaded or saved.
pub(crate) fn fault_number(fault: ImageFault) -> u32
    ensures value { result ≡ fault_number fault }
    ensures positive { 0 < result }
{
    match fault {
        ImageFault::Broken(rule) => 100 + rule as u32,
        ImageFault::OutOfMemory => OUT_OF_MEMORY,
        ImageFault::Write => NO_ROOM,
    }
}
