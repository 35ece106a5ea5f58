//! Bytes with a heap over them: the bytes of a live block are lent, and a block that moves takes its
//! bytes along.
#![tactic(auto)]

mod region;
mod region_error;
#[cfg(test)]
mod tests;

pub use crate::region::Region;
pub use crate::region_error::RegionError;
