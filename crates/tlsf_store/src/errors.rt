//! Why there is no store.

/// Why a store isn't made.
#[derive(Clone, Copy, Debug, PartialEq, Eq)]
pub enum StoreError {
    /// The number of records isn't from 1 to `MOST_RECORDS`.
    BadCount = 1,
    /// Memory for the table was refused.
    OutOfMemory = 2,
}

const _: () = prove!(StoreError::BadCount as u32 == 1 && StoreError::OutOfMemory as u32 == 2);
