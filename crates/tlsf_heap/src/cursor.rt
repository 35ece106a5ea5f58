//! Where a reading of a pool's rows stands.

/// Where a reading of a pool's rows stands: at a row, or behind the last. Each heap has its own mark of
/// a row.
#[derive(Clone, Copy, Debug, PartialEq, Eq)]
pub struct Cursor {
    pub(crate) next: Option<u32>,
}
