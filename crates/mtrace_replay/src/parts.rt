//! Heaps by size for a log: how many blocks of which size are enough in each.

pub(crate) mod change;
pub(crate) mod cut;
pub(crate) mod follow;
pub(crate) mod range;
pub(crate) mod replay;
pub(crate) mod run;
pub(crate) mod span;
pub(crate) mod span_rows;
pub(crate) mod spans;
pub(crate) mod text;
