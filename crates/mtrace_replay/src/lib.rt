//! The replay of a log of mtrace(3) on a heap: what is held at each address, and what is wrong with a line. The
//! reports are of what was not freed, of the peak, and of the heap's blocks.
#![tactic(auto)]

mod heap;
mod held;
pub mod laws;
mod ledger;
mod parts;
mod runs;

pub use crate::heap::index::Entries;
pub use crate::heap::replay::{Replay, ReplayFault};
pub use crate::heap::settings::Settings;
pub use crate::heap::totals::Totals;
pub use crate::heap::walk::put_walk;
pub use crate::held::diagnostic::{Diagnostic, Kind, Note};
pub use crate::held::entry::Entry;
pub use crate::ledger::report::LedgerReport;
pub use crate::ledger::run::run_ledger;
pub use crate::ledger::site_timeline::run_site_timeline;
pub use crate::ledger::snapshots::run_ledger_snapshots;
pub use crate::ledger::timeline::run_ledger_timeline;
pub use crate::parts::run::run_fit_heaps;
pub use crate::runs::fit::run_fit;
pub use crate::runs::report::Report;
pub use crate::runs::run::{run_counting, run_leaks, run_peak, run_report, run_walk};
pub use crate::runs::save::run_save;
pub use crate::runs::sites::run_sites;
pub use crate::runs::size::{Bounds, run_size};
pub use crate::runs::size_parts::{PartBounds, run_size_parts};
pub use crate::runs::status::{RunFault, Status};
pub use crate::runs::timeline::run_timeline;
pub use crate::runs::watch::Watch;
