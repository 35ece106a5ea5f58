//! A heap by Two-Level Segregated Fit (ECRTS 2004): segregated free lists in two levels of classes,
//! found by bitmaps.
#![tactic(auto)]

mod add_pool;
mod answer;
mod bitmaps;
mod chains;
mod cursor;
mod entries;
mod free;
mod free_lists;
mod heap;
mod heap_as_heaped;
mod heaped;
mod image;
mod image_fault;
pub mod laws;
mod load;
mod malloc;
mod memalign;
mod plain_heap;
mod pointer;
mod readings;
mod realloc;
mod refusal;
mod remove_pool;
mod request;
mod row;
mod runs;
mod search;
mod sizing;
mod span;
mod walk;

pub use crate::answer::Answer;
pub use crate::cursor::Cursor;
pub use crate::heap::Heap;
pub use crate::heaped::Heaped;
pub use crate::image::{HasSections, Image, Rule, first_broken, is_whole, put_image};
pub use crate::image_fault::ImageFault;
pub use crate::memalign::is_alignment;
pub use crate::plain_heap::PlainHeap;
pub use crate::pointer::Ptr;
pub use crate::refusal::Refusal;
pub use crate::request::Request;
pub use crate::row::Row;
pub use crate::runs::run;
pub use crate::sizing::{class_size, sure_pool};
pub use tlsf_store::{END_OF_PLACES, MOST_POOLS, MOST_RECORDS, StoreError};
