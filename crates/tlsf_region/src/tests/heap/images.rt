//! Images that are loaded.

use super::made;
use super::rows::has_rows;
use crate::tests::expect_eq;
use std::alloc::Global;
use std::process::Abort;
use tlsf_heap::*;

/// Where the heads and the records begin.
const HEADS_AT: usize = 112;

pub const RECORDS_AT: usize = 1_520;

/// How many bytes an image of two records has.
pub const LEN: usize = RECORDS_AT + 32;

/// Writes bytes from an offset on.
fn put(image: &mut [u8; LEN], offset: usize, bytes: &[u8]) {
    let mut at = offset;
    for byte in bytes {
        if at < LEN {
            image[at] = *byte;
            at += 1;
        }
    }
}

/// The image of a heap of one record, with a pool of 64 bytes, all free, and bytes behind it.
pub fn vector() -> [u8; LEN] {
    let mut image = [0; LEN];
    put(&mut image, 0, b"TLSFIMG1\x01\x00\x01\x00");
    put(&mut image, 20, &[64]);
    for class in 0..704 {
        put(&mut image, HEADS_AT + 2 * class, &[0xff, 0xff]);
    }
    put(&mut image, HEADS_AT + 2 * 4, &[0, 0]);
    put(&mut image, RECORDS_AT + 4, &[0x41]);
    put(&mut image, RECORDS_AT + 8, &[0xff; 8]);
    image
}

/// The image of a heap of two records, with a pool of 64 bytes: a live block of 16 and a free one of 48.
fn two_blocks() -> [u8; LEN] {
    let mut image = [0; LEN];
    put(&mut image, 0, b"TLSFIMG1\x02\x00\x01\x00");
    put(&mut image, 20, &[64]);
    for class in 0..704 {
        put(&mut image, HEADS_AT + 2 * class, &[0xff, 0xff]);
    }
    put(&mut image, HEADS_AT + 2 * 3, &[1, 0]);
    put(
        &mut image,
        RECORDS_AT,
        &[
            0, 0, 0, 0, 0x12, 0, 0, 0, 0xff, 0xff, 1, 0, 0xff, 0xff, 0xff, 0xff,
        ],
    );
    put(
        &mut image,
        RECORDS_AT + 16,
        &[
            16, 0, 0, 0, 0x31, 0, 0, 0, 0, 0, 0xff, 0xff, 0xff, 0xff, 0xff, 0xff,
        ],
    );
    image
}

/// A pointer of the heap that was saved is live in the one that is loaded.
#[test]
fn loaded_pointers(rt: HostRuntime) {
    let mut heap = Heap::load_image(rt.alloc(), &two_blocks()).expect(&rt, "a heap");
    assert!(rt; heap.check());
    assert!(rt; has_rows(&mut heap, 0, &[(0, 16, true), (16, 48, false)]));
    expect_eq(&rt, heap.free(Ptr::new(0, 1)), Err(Refusal::BadPointer));
    expect_eq(&rt, heap.malloc(8), Err(Refusal::TableFull));
    expect_eq(&rt, heap.malloc(48).map(|ptr| ptr.place()), Ok(16));
    expect_eq(&rt, heap.free(Ptr::new(16, 1)), Ok(()));
    expect_eq(&rt, heap.free(Ptr::new(0, 0)), Ok(()));
    assert!(rt; has_rows(&mut heap, 0, &[(0, 64, false)]));
    expect_eq(&rt, heap.malloc(8).map(|ptr| ptr.place()), Ok(0));
    assert!(rt; heap.check());
}

/// Why bytes aren't loaded.
fn fault(alloc: Global, image: &[u8]) -> Option<ImageFault> {
    Heap::load_image(alloc, image).err()
}

#[test]
fn broken_images(rt: HostRuntime) {
    let mut image = two_blocks();
    expect_eq(
        &rt,
        fault(rt.alloc(), &[]),
        Some(ImageFault::Broken(Rule::Magic)),
    );
    put(&mut image, HEADS_AT + 2 * 3, &[0xff, 0xff]);
    expect_eq(
        &rt,
        fault(rt.alloc(), &image),
        Some(ImageFault::Broken(Rule::OnLists)),
    );
    put(&mut image, HEADS_AT + 2 * 4, &[1, 0]);
    expect_eq(
        &rt,
        fault(rt.alloc(), &image),
        Some(ImageFault::Broken(Rule::Lists)),
    );
    put(&mut image, RECORDS_AT + 4, &[0x11]);
    expect_eq(
        &rt,
        fault(rt.alloc(), &image),
        Some(ImageFault::Broken(Rule::Merged)),
    );
    put(&mut image, RECORDS_AT + 16, &[32]);
    expect_eq(
        &rt,
        fault(rt.alloc(), &image),
        Some(ImageFault::Broken(Rule::Cover)),
    );
}

/// Its memory refused, an image isn't loaded; loaded again it is. Where the first load is served, a heap is made
/// behind it. The second allocation is that heap's, and the test fails with it alone.
#[test]
fn refused_memory_of_loading(rt: HostRuntime) {
    let image = two_blocks();
    match fault(rt.alloc(), &image) {
        Some(fault) => {
            expect_eq(&rt, fault, ImageFault::OutOfMemory);
            assert!(rt; Heap::load_image(rt.alloc(), &image).is_ok());
        }
        None => {
            let mut other: Heap = made(&rt, rt.alloc(), 1);
            assert!(rt; other.check());
        }
    }
}
