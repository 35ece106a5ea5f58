//! Statuses and texts, through `command` and `serve`.

use super::rows::SMALL;
use crate::asked::{Command, HeapReport, ToolFault};
use crate::service::serve;
use crate::tests::expect_eq;
use crate::words::command;
use mtrace_log::memory::{Full, MemorySink, MemorySource};
use mtrace_replay::{RunFault, Settings};
use std::alloc::{AllocError, Global};
use std::test::Fail;

/// The words as strings.
pub fn strings(alloc: Global, words: &[&str]) -> Result<Vec<String>, AllocError> {
    let mut all = Vec::new(alloc);
    for word in words {
        all.push(String::from_str(alloc, word)?)?;
    }
    Ok(all)
}

#[test]
fn first_leak_through_command_and_serve(rt: HostRuntime) -> Result<(), Fail> {
    let alloc = rt.alloc();
    let words = strings(alloc, &["tlsf", "leaks", "-"])?;
    let Command::Report { name, settings, .. } = command(alloc, words.as_slice())? else {
        panic!(rt; "no report");
    };
    let mut reader = MemorySource::in_pieces(b"= Start\n@ a + 0x10 0x64\n= End\n", 4096);
    let mut writer = MemorySink::in_pieces(alloc, 4096);
    let mut errors = MemorySink::in_pieces(alloc, 4096);
    let mut refused = 0;
    let status = serve(
        alloc,
        name,
        settings,
        &mut reader,
        &mut writer,
        &mut errors,
        &mut refused,
    );
    expect_eq(&rt, status, 1);
    expect_eq(
        &rt,
        writer.bytes(),
        b"Memory not freed:\n0x10 100 line 2 at a\nTotal: 1 blocks, 100 bytes.\n".as_slice(),
    );
    expect_eq(&rt, errors.bytes(), b"".as_slice());
    Ok(())
}

#[test]
fn full_standard_error_changes_nothing_else(rt: HostRuntime) {
    let alloc = rt.alloc();
    let bad = Settings { pool: 24, ..SMALL };
    let mut reader = MemorySource::in_pieces(b"= Start\n", 4096);
    let mut writer = MemorySink::in_pieces(alloc, 4096);
    let mut errors = MemorySink::with_room(alloc, 4096, 5, Full::Fails);
    let mut refused = 0;
    let status = serve(
        alloc,
        HeapReport::Leaks,
        bad,
        &mut reader,
        &mut writer,
        &mut errors,
        &mut refused,
    );
    expect_eq(&rt, status, 2);
    expect_eq(&rt, errors.bytes(), b"tlsf:".as_slice());
    expect_eq(&rt, writer.bytes(), b"".as_slice());
}

#[test]
fn texts_and_statuses_of_faults(rt: HostRuntime) -> Result<(), Fail> {
    let alloc = rt.alloc();
    let memory = ToolFault::Run(RunFault::OutOfMemory);
    expect_eq(&rt, memory.status(), 4);
    expect_eq(
        &rt,
        memory.to_string(alloc)?.as_str(),
        "tlsf: out of memory",
    );
    let missing = ToolFault::CannotOpen(String::from_str(alloc, "no.log")?);
    expect_eq(&rt, missing.status(), 3);
    expect_eq(
        &rt,
        missing.to_string(alloc)?.as_str(),
        "tlsf: cannot open no.log",
    );
    Ok(())
}
