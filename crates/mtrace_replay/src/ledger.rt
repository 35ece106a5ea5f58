//! A log replayed without a heap: what is held, of any number of blocks.

mod clock;
mod gathered;
pub(crate) mod ledger;
mod line;
mod location_key;
mod locations;
mod marked;
pub(crate) mod point;
pub(crate) mod prepared;
pub(crate) mod replay;
pub(crate) mod report;
pub(crate) mod run;
pub(crate) mod shares;
pub(crate) mod site_timeline;
pub(crate) mod snapshots;
pub(crate) mod timeline;
