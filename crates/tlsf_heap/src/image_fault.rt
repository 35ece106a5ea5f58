//! Why an image isn't loaded or saved.

use crate::image::Rule;

/// Why an image isn't loaded or saved.
#[derive(Clone, Copy, Debug, PartialEq, Eq)]
pub enum ImageFault {
    /// The bytes break this rule, and none that stands before it.
    Broken(Rule),
    /// Memory was refused.
    OutOfMemory,
    /// The writer of the image failed.
    Write,
}
