//! Readers and writers, the events of a log that glibc's tracer mtrace(3) writes, the reading of one
//! line, and the lines of a stream.
//!
//! A line is an event exactly where it is that event's one spelling; see [`Event`] for the forms.
#![tactic(auto)]

mod addr;
mod again;
mod buffer;
mod call;
mod event;
mod failed;
mod frequent;
mod from_read;
mod hex;
pub mod laws;
mod line;
mod line_buffer;
mod line_reader;
mod lines;
mod location;
pub mod memory;
mod output;
mod pieces;
mod sink;
mod sixteen;
mod source;
mod to_write;
mod trace;

pub use crate::addr::Addr;
pub use crate::again::Again;
pub use crate::call::Call;
pub use crate::event::{Event, LineFault};
pub use crate::failed::Failed;
pub use crate::from_read::FromRead;
pub use crate::hex::LONGEST_ADDRESS;
pub use crate::line::{Line, ReadFault};
pub use crate::line_reader::{LONGEST_LINE, read_lent, read_line};
pub use crate::lines::Lines;
pub use crate::location::{LONGEST_LOCATION, LentLocation, Location, kept_location, set_location};
pub use crate::output::put_all;
pub use crate::sink::Sink;
pub use crate::source::Source;
pub use crate::to_write::ToWrite;
