//! A row of a pool as a C program has it.

/// A block of a pool: where it begins and its size, in bytes, and whether it is live.
#[repr(C)]
#[derive(Clone, Copy)]
pub struct Row {
    /// Where the block begins, in bytes.
    pub place: u32,
    /// Its size, in bytes.
    pub size: u32,
    /// Whether it is live.
    pub used: bool,
}
