//! Logs that end at the end of the buffer of `Lines`, or a line of which goes across it.

use super::rows::{PIECES, SMALL, expect_report};
use crate::asked::HeapReport;
use crate::service::serve;
use crate::tests::expect_eq;
use mtrace_log::memory::{MemorySink, MemorySource};
use std::alloc::{AllocError, Global};
use std::process::Abort;
use std::test::Fail;

/// A number of lines of eight bytes, and what stands behind them.
fn starts(alloc: Global, lines: usize, behind: &[u8]) -> Result<Vec<u8>, AllocError> {
    let mut log = Vec::new(alloc);
    for _line in 0..lines {
        log.extend_from_slice(b"= Start\n")?;
    }
    log.extend_from_slice(behind)?;
    Ok(log)
}

/// 511 lines are 4,088 bytes, and the last line goes across the buffer's end.
#[test]
fn line_across_buffers(rt: HostRuntime) -> Result<(), Fail> {
    let log = starts(rt.alloc(), 511, b"+ 0x10 0x8")?;
    for piece in PIECES {
        expect_report(
            &rt,
            rt.alloc(),
            "line-across-buffers",
            SMALL,
            log.as_slice(),
            piece,
            b"Memory not freed:\n0x10 8 line 512\nTotal: 1 blocks, 8 bytes.\n",
            1,
        );
    }
    Ok(())
}

/// The peak of a log of 512 lines that hold nothing.
fn expect_peak(rt: &impl Abort, alloc: Global, log: &[u8], piece: usize) {
    let mut reader = MemorySource::in_pieces(log, piece.max(1));
    let mut writer = MemorySink::in_pieces(alloc, 4096);
    let mut errors = MemorySink::in_pieces(alloc, 4096);
    let mut refused = 1;
    let status = serve(
        alloc,
        HeapReport::Peak,
        SMALL,
        &mut reader,
        &mut writer,
        &mut errors,
        &mut refused,
    );
    expect_eq(rt, refused, 0);
    expect_eq(rt, status, 0);
    expect_eq(
        rt,
        writer.bytes(),
        b"lines: 512\nserved: 0\nrefused: 0\nlive: 0 bytes in 0 blocks\npeak: 0 bytes at line 0\nhigh place: 0\nfree: 1024 bytes in 1 blocks\nlargest free: 1024\nspread: -\n".as_slice(),
    );
}

/// 512 lines are 4,096 bytes, a whole buffer.
#[test]
fn log_of_one_buffer(rt: HostRuntime) -> Result<(), Fail> {
    let log = starts(rt.alloc(), 512, b"")?;
    for piece in PIECES {
        expect_report(
            &rt,
            rt.alloc(),
            "log-of-one-buffer",
            SMALL,
            log.as_slice(),
            piece,
            b"No memory leaks.\n",
            0,
        );
        expect_peak(&rt, rt.alloc(), log.as_slice(), piece);
    }
    Ok(())
}
