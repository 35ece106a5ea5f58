//! Images that are saved and checked, through `serve_save` and `check_image`.

use crate::asked::ImageReport;
use crate::check::check_image;
use crate::service::serve_save;
use crate::tests::expect_eq;
use crate::tests::heap::image_bytes::{Bytes, HEADS_AT, RECORDS_AT, vector};
use mtrace_log::memory::{Full, MemorySink, MemorySource};
use mtrace_replay::Settings;
use std::alloc::{AllocError, Global};
use std::process::Abort;

/// One pool of 64 bytes and one record.
const LEAST: Settings = Settings {
    pool: 64,
    pools: 1,
    records: 1,
};

/// Two free blocks of 32 bytes side by side, both in one list.
fn free_neighbours() -> Bytes {
    let mut image = Bytes::new(2, 64);
    image.put(HEADS_AT + 2 * 2, &[0, 0]);
    image.put(
        RECORDS_AT,
        b"\x00\x00\x00\x00\x21\x00\x00\x00\xff\xff\x01\x00\xff\xff\x01\x00\x20\x00\x00\x00\x21\x00\x00\x00\x00\x00\xff\xff\x00\x00\xff\xff",
    );
    image
}

/// Four blocks of 32 bytes, two of them free, which name one another and stand in no list.
fn detached_ring() -> Bytes {
    let mut image = Bytes::new(4, 128);
    image.put(
        RECORDS_AT,
        b"\x00\x00\x00\x00\x21\x00\x00\x00\xff\xff\x01\x00\x02\x00\x02\x00\x20\x00\x00\x00\x22\x00\x00\x00\x00\x00\x02\x00\xff\xff\xff\xff",
    );
    image.put(
        RECORDS_AT + 32,
        b"\x40\x00\x00\x00\x21\x00\x00\x00\x01\x00\x03\x00\x00\x00\x00\x00\x60\x00\x00\x00\x22\x00\x00\x00\x02\x00\xff\xff\xff\xff\xff\xff",
    );
    image
}

/// One free block of 64 bytes, and a live one of 16 bytes that is on no chain.
fn stray() -> Bytes {
    let mut image = vector().with(8, 2).of_len(RECORDS_AT + 32);
    image.put(
        RECORDS_AT + 16,
        b"\x00\x00\x00\x00\x12\x00\x00\x00\xff\xff\xff\xff\xff\xff\xff\xff",
    );
    image
}

/// The vector, whose block names itself by the link at an offset in its record.
fn own_neighbour(offset: usize) -> Bytes {
    let at = RECORDS_AT.saturating_add(offset);
    vector().with(at, 0).with(at.saturating_add(1), 0)
}

/// Whether this text is told of an image, with this status.
fn is_told(alloc: Global, report: ImageReport, image: &[u8], status: u8, text: &[u8]) -> bool {
    let mut reader = MemorySource::in_pieces(image, 5_000);
    let mut writer = MemorySink::in_pieces(alloc, 3);
    let mut errors = MemorySink::in_pieces(alloc, 4_096);
    let told = check_image(alloc, report, &mut reader, &mut writer, &mut errors);
    told == status && writer.bytes() == text && errors.bytes().is_empty()
}

/// Whether an image is checked with this status and line.
fn is_checked(alloc: Global, image: &[u8], status: u8, line: &[u8]) -> bool {
    is_told(alloc, ImageReport::Check, image, status, line)
}

#[test]
fn saved_vector(rt: HostRuntime) {
    let alloc = rt.alloc();
    let mut reader = MemorySource::in_pieces(b"", 4_096);
    let mut writer = MemorySink::in_pieces(alloc, 4_096);
    let mut image = MemorySink::in_pieces(alloc, 1_000);
    let mut errors = MemorySink::in_pieces(alloc, 4_096);
    let status = serve_save(
        alloc,
        LEAST,
        &mut reader,
        &mut writer,
        &mut image,
        &mut errors,
    );
    expect_eq(&rt, status, 0);
    expect_eq(&rt, image.bytes(), vector().as_slice());
    assert!(rt; writer.bytes().is_empty() && errors.bytes().is_empty());
    assert!(rt; is_checked(alloc, image.bytes(), 0, b"ok\n"));
}

#[test]
fn faults_of_saving(rt: HostRuntime) {
    let alloc = rt.alloc();
    let bad = Settings { pool: 24, ..LEAST };
    for (settings, room, status, line) in [
        (LEAST, 700, 3, b"tlsf: write failed\n".as_slice()),
        (bad, 2_000, 2, b"tlsf: bad settings\n".as_slice()),
    ] {
        let mut reader = MemorySource::in_pieces(b"", 4_096);
        let mut writer = MemorySink::in_pieces(alloc, 4_096);
        let mut image = MemorySink::with_room(alloc, 1_000, room, Full::Fails);
        let mut errors = MemorySink::in_pieces(alloc, 4_096);
        let answer = serve_save(
            alloc,
            settings,
            &mut reader,
            &mut writer,
            &mut image,
            &mut errors,
        );
        expect_eq(&rt, answer, status);
        expect_eq(&rt, errors.bytes(), line);
        expect_eq(&rt, image.bytes().len(), if status == 3 { room } else { 0 });
    }
}

/// Checks an image of which this line is told.
fn expect_broken(rt: &impl Abort, alloc: Global, image: &Bytes, line: &[u8]) {
    assert!(rt; is_checked(alloc, image.as_slice(), 1, line), "{line:?}");
}

/// Images that break a rule of the bytes.
#[test]
fn checked_bytes(rt: HostRuntime) {
    let alloc = rt.alloc();
    assert!(rt; is_checked(alloc, vector().as_slice(), 0, b"ok\n"));
    assert!(rt; is_checked(alloc, b"", 1, b"broken: V1\n"));
    expect_broken(&rt, alloc, &vector().with(0, 0x55), b"broken: V1\n");
    expect_broken(
        &rt,
        alloc,
        &vector().of_len(RECORDS_AT - 1),
        b"broken: V1\n",
    );
    expect_broken(
        &rt,
        alloc,
        &vector().of_len(RECORDS_AT + 17),
        b"broken: V2\n",
    );
    expect_broken(&rt, alloc, &vector().with(12, 1), b"broken: V2\n");
    expect_broken(&rt, alloc, &vector().with(24, 1), b"broken: V3\n");
    expect_broken(&rt, alloc, &vector().with(28, 1), b"broken: V4\n");
    expect_broken(
        &rt,
        alloc,
        &vector().with(RECORDS_AT + 4, 0x43),
        b"broken: V5\n",
    );
}

/// Images that break a rule of the heap.
#[test]
fn checked_images(rt: HostRuntime) {
    let alloc = rt.alloc();
    let unlisted = vector().with(HEADS_AT + 8, 0xff).with(HEADS_AT + 9, 0xff);
    expect_broken(&rt, alloc, &vector().with(HEADS_AT, 0), b"broken: V6\n");
    expect_broken(&rt, alloc, &own_neighbour(8), b"broken: V7\n");
    expect_broken(&rt, alloc, &own_neighbour(10), b"broken: V7\n");
    expect_broken(&rt, alloc, &vector().with(RECORDS_AT, 16), b"broken: V8\n");
    expect_broken(&rt, alloc, &stray(), b"broken: V9\n");
    expect_broken(&rt, alloc, &free_neighbours(), b"broken: V10\n");
    expect_broken(&rt, alloc, &own_neighbour(12), b"broken: V11\n");
    expect_broken(&rt, alloc, &own_neighbour(14), b"broken: V11\n");
    expect_broken(&rt, alloc, &detached_ring(), b"broken: V12\n");
    expect_broken(&rt, alloc, &unlisted, b"broken: V12\n");
}

/// Of the rules that an image breaks, the first is named: each line breaks one more, in front of those before.
#[test]
fn first_rule_named(rt: HostRuntime) {
    let mut image = vector();
    for (offset, bytes, line) in [
        (
            HEADS_AT + 8,
            b"\xff\xff".as_slice(),
            b"broken: V12\n".as_slice(),
        ),
        (RECORDS_AT + 12, b"\0\0", b"broken: V12\n"),
        (HEADS_AT + 6, b"\0\0", b"broken: V11\n"),
        (RECORDS_AT, b"\x10", b"broken: V8\n"),
        (RECORDS_AT + 8, b"\0\0", b"broken: V7\n"),
        (RECORDS_AT + 14, b"\x09\0", b"broken: V6\n"),
        (RECORDS_AT + 4, b"\x43", b"broken: V5\n"),
        (40, b"\x01", b"broken: V4\n"),
        (16, b"\x01", b"broken: V3\n"),
        (13, b"\x01", b"broken: V2\n"),
        (3, b"\x01", b"broken: V1\n"),
    ] {
        image.put(offset, bytes);
        expect_broken(&rt, rt.alloc(), &image, line);
    }
}

/// What `tlsf_save` of c/tlsf.h writes: this much in front of an image, and the image.
fn behind(alloc: Global, front: usize, image: &[u8]) -> Result<Vec<u8>, AllocError> {
    let mut bytes = Vec::new(alloc);
    bytes.extend_from_slice(b"TSFSIMG1")?;
    for index in 8..front {
        bytes.push((index % 251) as u8)?;
    }
    bytes.extend_from_slice(image)?;
    Ok(bytes)
}

/// What stands in front of an image isn't looked at, where it begins as `tlsf_save` has it and is of its length.
#[test]
fn images_behind_a_front(rt: HostRuntime) {
    let alloc = rt.alloc();
    let of = |front: usize, image: &Bytes| behind(alloc, front, image.as_slice()).expect(
        &rt, "memory",
    );
    assert!(rt; is_checked(alloc, of(280, &vector()).as_slice(), 0, b"ok\n"));
    assert!(rt;
        is_checked(
            alloc,
            of(280, &vector().with(28, 1)).as_slice(),
            1,
            b"broken: V4\n"
        )
    );
    assert!(rt; is_checked(alloc, of(279, &vector()).as_slice(), 1, b"broken: V1\n"));
    assert!(rt; is_checked(alloc, of(281, &vector()).as_slice(), 1, b"broken: V1\n"));
    for front in [279, 280] {
        let alone = behind(alloc, front, b"").expect(&rt, "memory");
        assert!(rt; is_checked(alloc, alone.as_slice(), 1, b"broken: V1\n"));
    }
}

/// The blocks of images, or the first rule broken.
#[test]
fn walked_images(rt: HostRuntime) {
    let alloc = rt.alloc();
    let one: &[u8] = b"pool 0: 64 bytes\n0 64 free\n";
    let behind_a_front = behind(alloc, 280, vector().as_slice()).expect(&rt, "memory");
    for (image, status, text) in [
        (vector().as_slice(), 0, one),
        (behind_a_front.as_slice(), 0, one),
        (free_neighbours().as_slice(), 1, b"broken: V10\n"),
        (b"", 1, b"broken: V1\n"),
    ] {
        assert!(rt; is_told(alloc, ImageReport::Walk, image, status, text));
    }
}

/// A file that is longer than any image, and begins as one.
fn longer_than_any(alloc: Global) -> Result<Vec<u8>, AllocError> {
    let mut bytes = Vec::new(alloc);
    bytes.extend_from_slice(b"TLSFIMG1")?;
    for _index in 8..1_050_361 {
        bytes.push(0)?;
    }
    Ok(bytes)
}

#[test]
fn longest_file(rt: HostRuntime) {
    let bytes = longer_than_any(rt.alloc()).expect(&rt, "memory");
    assert!(rt; is_checked(rt.alloc(), bytes.as_slice(), 1, b"broken: V2\n"));
}

/// The writer takes four bytes of the line, and no more.
#[test]
fn writer_of_a_check_fails(rt: HostRuntime) {
    let mut reader = MemorySource::in_pieces(b"TLSFIMG1", 4_096);
    let mut full = MemorySink::with_room(rt.alloc(), 4_096, 4, Full::TakesNone);
    let mut errors = MemorySink::in_pieces(rt.alloc(), 4_096);
    let status = check_image(
        rt.alloc(),
        ImageReport::Check,
        &mut reader,
        &mut full,
        &mut errors,
    );
    expect_eq(&rt, status, 3);
    expect_eq(&rt, errors.bytes(), b"tlsf: write failed\n".as_slice());
}
