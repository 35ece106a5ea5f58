//! What is tried of each run that reads its log again: rows, and a reader, a writer or memory that fails.

use super::rows::PIECES;
use crate::asked::Rereading;
use crate::service::{end_run, run_again};
use crate::tests::{expect_eq, expect_eq_at, seed};
use mtrace_log::memory::{Full, MemorySink, MemorySource};
use mtrace_replay::{RunFault, Status};
use std::alloc::Global;
use std::process::Abort;

/// A log, and what a run writes of it.
#[derive(Drop)]
pub(super) struct Row {
    pub(super) name: &'static str,
    pub(super) what: Rereading,
    pub(super) log: &'static [u8],
    pub(super) text: &'static [u8],
    pub(super) status: u8,
}

/// Runs a row, its log given in pieces.
fn expect_row(rt: &impl Abort, alloc: Global, row: &Row, piece: usize) {
    let mut reader = MemorySource::in_pieces(row.log, piece.max(1));
    let mut writer = MemorySink::in_pieces(alloc, 4096);
    let mut errors = MemorySink::in_pieces(alloc, 4096);
    let ended = run_again(alloc, seed(rt), row.what, &mut reader, &mut writer, &());
    let status = end_run(&mut errors, ended);
    expect_eq_at(rt, row.name, status, row.status);
    expect_eq_at(rt, row.name, writer.bytes(), row.text);
    expect_eq_at(rt, row.name, errors.bytes(), b"".as_slice());
}

/// Runs each row, its log given in pieces of each length.
pub(super) fn expect_rows(rt: &impl Abort, alloc: Global, rows: &[Row]) {
    for row in rows {
        for piece in PIECES {
            expect_row(rt, alloc, row, piece);
        }
    }
}

/// A run whose log is given in one piece, with what it writes before it reads the log again, and its whole text.
#[derive(Drop)]
pub(super) struct Case {
    pub(super) what: Rereading,
    pub(super) log: &'static [u8],
    pub(super) notes: &'static [u8],
    pub(super) text: &'static [u8],
    /// How often it calls its reader.
    pub(super) calls: u64,
}

/// Runs it with a reader that fails at its call behind this many.
pub(super) fn expect_read_fault(
    rt: &impl Abort,
    alloc: Global,
    case: &Case,
    calls: u64,
    wanted: &[u8],
) {
    let mut reader = MemorySource::failing_after(case.log, 4096, calls);
    let mut writer = MemorySink::in_pieces(alloc, 4096);
    let answer = run_again(alloc, seed(rt), case.what, &mut reader, &mut writer, &());
    expect_eq_at(rt, calls, answer, Err(RunFault::Read));
    expect_eq_at(rt, calls, writer.bytes(), wanted);
}

/// Each call of the reader fails in turn, and then none.
pub(super) fn expect_reader_failures(rt: &impl Abort, alloc: Global, case: &Case) {
    expect_read_fault(rt, alloc, case, 0, b"");
    for calls in 1..case.calls {
        expect_read_fault(rt, alloc, case, calls, case.notes);
    }
    let mut reader = MemorySource::failing_after(case.log, 4096, case.calls);
    let mut writer = MemorySink::in_pieces(alloc, 4096);
    let answer = run_again(alloc, seed(rt), case.what, &mut reader, &mut writer, &());
    expect_eq(rt, answer, Ok(Status::Found));
    expect_eq(rt, writer.bytes(), case.text);
}

/// Runs it with a writer that has room for this many bytes, too few.
fn expect_write_fault(rt: &impl Abort, alloc: Global, case: &Case, room: usize) {
    let mut reader = MemorySource::in_pieces(case.log, 4096);
    let mut writer = MemorySink::with_room(alloc, 4096, room, Full::Fails);
    let answer = run_again(alloc, seed(rt), case.what, &mut reader, &mut writer, &());
    expect_eq_at(rt, room, answer, Err(RunFault::Write));
    if let Some(wanted) = case.text.get(..room) {
        expect_eq_at(rt, room, writer.bytes(), wanted);
    }
}

/// The writer fails behind each number of bytes that is less than the text's.
pub(super) fn expect_writer_failures(rt: &impl Abort, alloc: Global, case: &Case) {
    for room in 0..case.text.len() {
        expect_write_fault(rt, alloc, case, room);
    }
}

/// Where the settings are bad, or what the run is given beside them, nothing is written.
pub(super) fn expect_bad_settings(
    rt: &impl Abort,
    alloc: Global,
    what: Rereading,
    log: &'static [u8],
) {
    let mut reader = MemorySource::in_pieces(log, 4096);
    let mut writer = MemorySink::in_pieces(alloc, 4096);
    let mut errors = MemorySink::in_pieces(alloc, 4096);
    let ended = run_again(alloc, seed(rt), what, &mut reader, &mut writer, &());
    let status = end_run(&mut errors, ended);
    expect_eq(rt, status, 2);
    expect_eq(rt, writer.bytes(), b"".as_slice());
    expect_eq(rt, errors.bytes(), b"tlsf: bad settings\n".as_slice());
}

/// Where memory is refused to the run, nothing is written.
pub(super) fn expect_text_or_refusal(rt: &impl Abort, alloc: Global, case: &Case) {
    let mut reader = MemorySource::in_pieces(case.log, 1);
    let mut writer = MemorySink::in_pieces(alloc, 4096);
    match run_again(alloc, seed(rt), case.what, &mut reader, &mut writer, &()) {
        Ok(status) => {
            expect_eq(rt, status, Status::Found);
            expect_eq(rt, writer.bytes(), case.text);
        }
        // The writer was refused memory.
        Err(RunFault::Write) => assert!(rt; case.text.starts_with(writer.bytes())),
        Err(fault) => {
            expect_eq(rt, fault, RunFault::OutOfMemory);
            assert!(rt; writer.bytes().is_empty());
        }
    }
}
