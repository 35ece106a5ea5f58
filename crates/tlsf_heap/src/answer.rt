//! What a heap answers.

use crate::{Ptr, Refusal};

/// What a heap answers a request.
#[derive(Clone, Copy, Debug, PartialEq, Eq)]
pub enum Answer {
    /// It was done.
    Done,
    /// The block given.
    Given(Ptr),
    /// Where the block is now, or none where it was freed.
    Moved(Option<Ptr>),
    /// The block's size, in bytes.
    Size(u32),
    /// It was refused, and the heap's content is as it was.
    Refused(Refusal),
}
