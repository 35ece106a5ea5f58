//! Why there is no region.

/// Why a region isn't made.
#[derive(Clone, Copy, Debug, PartialEq, Eq)]
pub enum RegionError {
    /// The number of records isn't from 1 to 65,535.
    BadCount = 1,
    /// There would be more than 2^32 bytes.
    BadLength = 2,
    /// Memory for the table or the bytes was refused.
    OutOfMemory = 3,
}

const _: () = prove!(
    RegionError::BadCount as u32 == 1
        && RegionError::BadLength as u32 == 2
        && RegionError::OutOfMemory as u32 == 3
);
