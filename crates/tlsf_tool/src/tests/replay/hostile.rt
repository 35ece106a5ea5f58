//! Memory refused to each of the reports. The test passes whichever allocation is refused, and where none is.

use super::*;
use crate::tests::expect_eq_at;
use mtrace_log::Source;
use mtrace_log::memory::{MemorySink, MemorySource};

const SETTINGS: Settings = Settings {
    pool: 4096,
    pools: 2,
    records: 64,
};

const LOG: &[u8] = b"- 0x10\n+ 0x10 0x1\n- 0x20\n+ 0x20 0x1\n= Stop\n+ 0x30 0x1\n";

/// What each report of it says.
const TEXTS: [(Report, &[u8]); 4] = [
    (
        Report::Leaks,
        b"line 1: 0x10 is not held\nline 3: 0x20 is not held\nline 5: not a line\nMemory not freed:\n0x10 1 line 2\n0x20 1 line 4\n0x30 1 line 6\nTotal: 3 blocks, 3 bytes.\n",
    ),
    (
        Report::Peak,
        b"line 1: 0x10 is not held\nline 3: 0x20 is not held\nline 5: not a line\nlines: 6\nserved: 3\nrefused: 0\nlive: 3 bytes in 3 blocks\npeak: 3 bytes at line 6\nhigh place: 48\nfree: 8144 bytes in 2 blocks\nlargest free: 4096\nspread: 16000\n",
    ),
    (
        Report::Walk,
        b"line 1: 0x10 is not held\nline 3: 0x20 is not held\nline 5: not a line\npool 0: 4096 bytes\n0 16 used\n16 16 used\n32 16 used\n48 4048 free\npool 4096: 4096 bytes\n4096 4096 free\n",
    ),
    (
        Report::Nothing,
        b"line 1: 0x10 is not held\nline 3: 0x20 is not held\nline 5: not a line\n",
    ),
];

/// Makes one report of what the reader has, or saves.
fn run_one(
    alloc: Global,
    report: Report,
    reader: &mut MemorySource<'_>,
    writer: &mut MemorySink,
) -> Result<Status, RunFault> {
    match report {
        Report::Leaks => run_leaks(alloc, reader, writer, SETTINGS),
        Report::Peak => run_peak(alloc, reader, writer, SETTINGS),
        Report::Walk => run_walk(alloc, reader, writer, SETTINGS),
        Report::Nothing => {
            let mut image = MemorySink::in_pieces(alloc, 4096);
            run_save(alloc, reader, writer, &mut image, SETTINGS)
        }
    }
}

/// Where a run is refused memory, nothing is read or written.
fn expect_one(rt: &impl Abort, alloc: Global, report: Report, text: &[u8]) {
    let mut reader = MemorySource::in_pieces(LOG, 4096);
    let mut writer = MemorySink::in_pieces(alloc, 4096);
    match run_one(alloc, report, &mut reader, &mut writer) {
        Ok(status) => {
            expect_eq_at(rt, report, status, Status::Found);
            expect_eq_at(rt, report, writer.bytes(), text);
        }
        // A writer was refused memory.
        Err(RunFault::Image) => expect_eq_at(rt, report, writer.bytes(), text),
        Err(RunFault::Write) => assert!(rt; text.starts_with(writer.bytes()), "{report:?}"),
        Err(fault) => {
            expect_eq_at(rt, report, fault, RunFault::OutOfMemory);
            assert!(rt; reader.pull(&mut [0; 4096]) == Ok(LOG.len()), "{report:?}");
            assert!(rt; writer.bytes().is_empty(), "{report:?}");
        }
    }
}

#[test]
fn each_report_with_refused_memory(rt: HostRuntime) {
    for (report, text) in TEXTS {
        expect_one(&rt, rt.alloc(), report, text);
    }
}
