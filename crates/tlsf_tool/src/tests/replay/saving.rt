//! Heaps that are saved at the end of a log.

use crate::tests::expect_eq;
use mtrace_log::memory::{Full, MemorySink, MemorySource};
use mtrace_replay::*;
use std::alloc::Global;
use std::process::Abort;
use tlsf_heap::{Heap, Ptr, Refusal, Row};

/// One pool of 64 bytes and one record.
const LEAST: Settings = Settings {
    pool: 64,
    pools: 1,
    records: 1,
};

/// How many bytes the image of one record has.
const LEN: usize = 1_536;

/// The image of a heap of one record, with a pool of 64 bytes, all free.
fn vector() -> [u8; LEN] {
    let mut image = [0; LEN];
    for index in 112..1_520 {
        image[index] = 0xff;
    }
    for (index, byte) in [
        (0, b'T'),
        (1, b'L'),
        (2, b'S'),
        (3, b'F'),
        (4, b'I'),
        (5, b'M'),
        (6, b'G'),
        (7, b'1'),
        (8, 1),
        (10, 1),
        (20, 64),
        (120, 0),
        (121, 0),
        (1_524, 0x41),
    ] {
        if index < LEN {
            image[index] = byte;
        }
    }
    for index in 1_528..LEN {
        image[index] = 0xff;
    }
    image
}

fn row(place: u32, size: u32, used: bool) -> Row {
    Row { place, size, used }
}

/// A run's answer, and the bytes that its two writers took.
#[derive(Drop)]
struct Saved {
    answer: Result<Status, RunFault>,
    diagnostics: MemorySink,
    image: MemorySink,
}

/// Saves a log, with these writers.
fn save_log(
    alloc: Global,
    log: &[u8],
    settings: Settings,
    mut diagnostics: MemorySink,
    mut image: MemorySink,
) -> Saved {
    let mut reader = MemorySource::in_pieces(log, 7);
    let answer = run_save(alloc, &mut reader, &mut diagnostics, &mut image, settings);
    Saved {
        answer,
        diagnostics,
        image,
    }
}

fn free_writer(alloc: Global) -> MemorySink {
    MemorySink::in_pieces(alloc, 1_000)
}

#[test]
fn saved_vector(rt: HostRuntime) {
    let (diagnostics, image) = (free_writer(rt.alloc()), free_writer(rt.alloc()));
    let saved = save_log(rt.alloc(), b"", LEAST, diagnostics, image);
    expect_eq(&rt, saved.answer, Ok(Status::Clean));
    expect_eq(&rt, saved.diagnostics.bytes(), b"".as_slice());
    expect_eq(&rt, saved.image.bytes(), vector().as_slice());
}

/// The diagnostics go to one writer, and the heap that is loaded from the other holds what the log holds.
#[test]
fn loaded_pointers(rt: HostRuntime) {
    let settings = Settings {
        records: 2,
        ..LEAST
    };
    let (diagnostics, image) = (free_writer(rt.alloc()), free_writer(rt.alloc()));
    let saved = save_log(
        rt.alloc(),
        b"+ 0x10 0x8\n- 0x20\n< 0x10\n",
        settings,
        diagnostics,
        image,
    );
    expect_eq(&rt, saved.answer, Ok(Status::Found));
    expect_eq(
        &rt,
        saved.diagnostics.bytes(),
        b"line 2: 0x20 is not held\nline 3: half of a reallocation\n".as_slice(),
    );
    expect_eq(&rt, saved.image.bytes().len(), 1_552);
    let mut heap = Heap::load_image(rt.alloc(), saved.image.bytes()).expect(&rt, "a heap");
    expect_eq(&rt, heap.malloc(49).err(), Some(Refusal::NoFit));
    expect_eq(&rt, heap.malloc(48).map(|ptr| ptr.place()), Ok(16));
}

/// The slot of the live block of an image of two records: in the word of its size the state is 2.
fn live_slot(image: &[u8]) -> u16 {
    match image.get(1_524) {
        Some(word) if word % 16 == 2 => 0,
        _ => 1,
    }
}

/// Whether the pool at 0 has these rows.
fn has_rows(alloc: Global, heap: &mut Heap, wanted: &[Row]) -> bool {
    let mut rows = Vec::new(alloc);
    let walked = heap.walk(0, |row| {
        let _ = rows.push(row);
    });
    walked == Ok(()) && rows.as_slice() == wanted
}

/// A block that a log holds is live in the heap that is loaded, under the slot that the image tells.
#[test]
fn loaded_block_is_freed(rt: HostRuntime) {
    let settings = Settings {
        records: 2,
        ..LEAST
    };
    let (diagnostics, image) = (free_writer(rt.alloc()), free_writer(rt.alloc()));
    let saved = save_log(rt.alloc(), b"+ 0x10 0x8", settings, diagnostics, image);
    expect_eq(&rt, saved.answer, Ok(Status::Found));
    expect_eq(&rt, saved.image.bytes().len(), 1_552);
    let mut heap = Heap::load_image(rt.alloc(), saved.image.bytes()).expect(&rt, "a heap");
    assert!(rt;
        has_rows(
            rt.alloc(),
            &mut heap,
            &[row(0, 16, true), row(16, 48, false)]
        )
    );
    let block = Ptr::new(0, live_slot(saved.image.bytes()));
    expect_eq(&rt, heap.free(block), Ok(()));
    assert!(rt; has_rows(rt.alloc(), &mut heap, &[row(0, 64, false)]));
    expect_eq(&rt, heap.free(block), Err(Refusal::BadPointer));
}

/// The image's writer fails behind each number of bytes, or at its flush.
#[test]
fn image_writer_fails(rt: HostRuntime) {
    for room in 0..LEN {
        let image = MemorySink::with_room(rt.alloc(), 1_000, room, Full::TakesNone);
        let saved = save_log(rt.alloc(), b"", LEAST, free_writer(rt.alloc()), image);
        expect_eq(&rt, saved.answer, Err(RunFault::Image));
        expect_eq(&rt, saved.image.bytes().len(), room);
        assert!(rt; vector().starts_with(saved.image.bytes()));
    }
    let image = free_writer(rt.alloc()).failing_flush();
    let saved = save_log(rt.alloc(), b"", LEAST, free_writer(rt.alloc()), image);
    expect_eq(&rt, saved.answer, Err(RunFault::Image));
    expect_eq(&rt, saved.image.bytes(), vector().as_slice());
}

/// After a fault of the run nothing is put to the image's writer.
#[test]
fn faults_before_the_image(rt: HostRuntime) {
    let log = b"- 0x20\n";
    let full = MemorySink::with_room(rt.alloc(), 1_000, 3, Full::Fails);
    let one = save_log(rt.alloc(), log, LEAST, full, free_writer(rt.alloc()));
    expect_eq(&rt, one.answer, Err(RunFault::Write));
    expect_eq(&rt, one.image.bytes(), b"".as_slice());
    let unflushed = free_writer(rt.alloc()).failing_flush();
    let two = save_log(rt.alloc(), log, LEAST, unflushed, free_writer(rt.alloc()));
    expect_eq(&rt, two.answer, Err(RunFault::Write));
    expect_eq(&rt, two.image.bytes(), b"".as_slice());
    let bad = Settings { pool: 24, ..LEAST };
    let (diagnostics, image) = (free_writer(rt.alloc()), free_writer(rt.alloc()));
    let three = save_log(rt.alloc(), log, bad, diagnostics, image);
    expect_eq(&rt, three.answer, Err(RunFault::BadSettings));
    expect_eq(&rt, three.image.bytes(), b"".as_slice());
}
