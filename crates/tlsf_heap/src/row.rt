//! A block as a reading of the heap gives it.

/// A block of a pool: where it begins and its size, in bytes, and whether it is live.
#[derive(Clone, Copy, Debug, PartialEq, Eq)]
pub struct Row {
    /// Where the block begins, in bytes.
    pub place: u32,
    /// Its size, in bytes.
    pub size: u32,
    /// Whether it is live.
    pub used: bool,
}
