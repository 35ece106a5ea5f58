//! Rows of whole runs: logs, faults of reader and writer, and words. The tests of a crate below stand in the module of its
//! name without `tlsf_` or `mtrace_`.

mod again;
mod buffer;
mod class;
mod each_record;
mod failing;
mod fit;
mod glibc_log;
mod heap;
mod hostile;
mod images;
mod ledger;
mod ledger_timeline;
mod log;
mod plan;
mod program;
mod progress;
mod replay;
mod reports;
mod rows;
mod site_timeline;
mod sites;
mod size;
mod size_parts;
mod snapshots;
mod store;
mod timeline;
mod words;

use std::fmt::Debug;
use std::hash::RandomState;
use std::io;
use std::process::Abort;
use std::random::RandomSource;

/// Gives bytes that are the same in each run.
struct SameBytes;

impl RandomSource for SameBytes {
    fn fill_bytes(&self, buf: &mut [u8]) -> io::Result<()> {
        buf.fill(7);
        Ok(())
    }
}

/// The seed of a run that is tested.
pub(crate) fn seed(rt: &impl Abort) -> RandomState {
    RandomState::new(&SameBytes).expect(rt, "a seed")
}

/// Compares two values, by one call: a proof goes over `assert_eq!` once here, and not at each place again.
pub(crate) fn expect_eq<T: PartialEq + Debug + Drop>(rt: &impl Abort, found: T, wanted: T) {
    assert_eq!(rt; found, wanted);
}

/// The same, of a row or a round that is told where they differ.
pub(crate) fn expect_eq_at<At: Debug + Drop, T: PartialEq + Debug + Drop>(
    rt: &impl Abort,
    at: At,
    found: T,
    wanted: T,
) {
    assert_eq!(rt; found, wanted, "{at:?}");
}
