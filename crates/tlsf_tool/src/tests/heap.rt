//! Images and tables of a heap.

pub(crate) mod image_bytes;
mod reading_images;
mod runs;
mod tables;
mod words;
