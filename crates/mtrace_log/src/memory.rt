//! A reader and a writer over memory, which tell their bytes, give and take them in pieces, and fail
//! where they are told to. They serve tests.

mod memory_sink;
mod memory_source;

pub use crate::memory::memory_sink::{Full, MemorySink};
pub use crate::memory::memory_source::MemorySource;
