//! An amount of memory.

/// How many blocks there are, and how many bytes were asked for them.
#[derive(Clone, Copy, Debug, PartialEq, Eq)]
pub struct Amount {
    /// How many blocks.
    pub blocks: u64,
    /// How many bytes in sum.
    pub bytes: u128,
}
