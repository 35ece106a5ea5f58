//! Logs that take each record of a heap.

use crate::tests::rows::{PIECES, WHOLE, expect_report};
use mtrace_replay::Settings;
use std::alloc::Global;
use std::test::Fail;

/// Appends `+ ADDR SIZE`, a line for each number from `first` to `last`, its address 16 times the number.
fn push_lines(
    log: &mut Vec<u8>,
    alloc: Global,
    first: u64,
    last: u64,
    size: u64,
) -> Result<(), Fail> {
    for number in first..=last {
        let line = format!(in alloc; "+ 0x{number:x}0 0x{size:x}\n")?;
        log.extend_from_slice(line.as_str().as_bytes())?;
    }
    Ok(())
}

/// Appends what the report says of these lines, where each is served.
fn push_entries(
    text: &mut Vec<u8>,
    alloc: Global,
    first: u64,
    last: u64,
    size: u64,
) -> Result<(), Fail> {
    for number in first..=last {
        let line = format!(in alloc; "0x{number:x}0 {size} line {number}\n")?;
        text.extend_from_slice(line.as_str().as_bytes())?;
    }
    Ok(())
}

#[test]
fn each_record_in_use(rt: HostRuntime) -> Result<(), Fail> {
    let alloc = rt.alloc();
    // 8,191 live blocks and the free one behind them use 8,192 records.
    let mut log = Vec::new(alloc);
    push_lines(&mut log, alloc, 1, 8_192, 8)?;
    let mut text = Vec::from_slice(
        alloc,
        b"line 8192: 0x20000 refused: table full\nMemory not freed:\n",
    )?;
    push_entries(&mut text, alloc, 1, 8_191, 8)?;
    text.extend_from_slice(b"Total: 8191 blocks, 65528 bytes.\n")?;
    for piece in PIECES {
        expect_report(
            &rt,
            alloc,
            "a rest that finds no record",
            Settings::DEFAULT,
            log.as_slice(),
            piece,
            text.as_slice(),
            1,
        );
    }
    Ok(())
}

#[test]
fn each_record_held(rt: HostRuntime) -> Result<(), Fail> {
    let alloc = rt.alloc();
    // 8,190 blocks of 1 KiB, one of 2 KiB and one of 8 MiB fill the pool of 16 MiB.
    let mut log = Vec::new(alloc);
    push_lines(&mut log, alloc, 1, 8_190, 1 << 10)?;
    push_lines(&mut log, alloc, 8_191, 8_191, 1 << 11)?;
    push_lines(&mut log, alloc, 8_192, 8_192, 1 << 23)?;
    push_lines(&mut log, alloc, 8_193, 8_193, 8)?;
    let mut text = Vec::from_slice(
        alloc,
        b"line 8193: 0x20010 refused: no fit\nMemory not freed:\n",
    )?;
    push_entries(&mut text, alloc, 1, 8_190, 1 << 10)?;
    push_entries(&mut text, alloc, 8_191, 8_191, 1 << 11)?;
    push_entries(&mut text, alloc, 8_192, 8_192, 1 << 23)?;
    text.extend_from_slice(b"Total: 8192 blocks, 16777216 bytes.\n")?;
    expect_report(
        &rt,
        alloc,
        "a block for each record",
        Settings::DEFAULT,
        log.as_slice(),
        WHOLE,
        text.as_slice(),
        1,
    );
    Ok(())
}
