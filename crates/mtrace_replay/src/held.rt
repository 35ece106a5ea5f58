//! What is held and told of a log, with a heap or without one: entries, diagnostics, sites, and which lines a timeline tells.

pub mod amount;
pub mod asked;
pub mod caller;
pub mod count;
pub mod diagnostic;
pub mod entry;
pub mod findings;
pub mod half;
pub mod line_text;
pub mod lines;
pub mod location_text;
pub mod mark;
pub mod sections;
pub mod site;
pub mod told;
