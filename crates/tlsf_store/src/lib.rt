//! The counted store of a heap: a table of records, the heads of the class lists, the bitmap words and
//! the pool entries. Each read and write of one counts as a touch, which contracts alone see.
#![tactic(auto)]

mod errors;
mod ghost_count;
mod kept_words;
mod packed;
mod pools;
mod ranges;
mod records;
mod slots;
mod store;
mod table;
mod vacant_chain;
mod words;

pub use errors::StoreError;
pub use ghost_count::GhostCount;
pub use kept_words::KeptWords;
pub use packed::PackedRecord;
pub use pools::Pool;
pub use ranges::{END_OF_PLACES, can_be_pool};
pub use records::{Record, State};
pub use slots::{MISSING, Slot, link_of};
pub use store::{MOST_POOLS, MOST_RECORDS, Store};
pub use words::TableWords;
