//! The replay of a log on a heap: what is held there, the index of its addresses, and what the heap answers.

pub mod again;
pub mod arrange;
pub mod grouping;
pub mod holder;
pub mod index;
pub mod key;
pub mod keys;
pub mod point;
pub mod replay;
pub mod search;
pub mod settings;
pub mod start;
pub mod step;
pub mod survey;
pub mod text;
pub mod totals;
pub mod tried;
pub mod walk;
