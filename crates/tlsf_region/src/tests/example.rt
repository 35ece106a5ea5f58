//! An example: a region used as a C program uses its heap.

use super::made;
use crate::Region;
use crate::tests::expect_eq;
use arrayvec::ArrayString;
use std::fmt::{Error, Write};
use std::process::Abort;
use std::str;
use tlsf_heap::Ptr;

const TEXT: &str = "Hello, region";

/// What the example writes, worked out by hand from the definitions.
const WRITTEN: &str = "\
text at 0, buffer at 64
  0: 16 bytes, used
  16: 48 bytes, free
  64: 112 bytes, used
  176: 848 bytes, free
text moved to 176
Hello, region
  0: 64 bytes, free
  64: 112 bytes, used
  176: 112 bytes, used
  288: 736 bytes, free
free of the old pointer: Err(BadPointer)
buffer freed
  0: 176 bytes, free
  176: 112 bytes, used
  288: 736 bytes, free
text freed
  0: 1024 bytes, free
check: true
";

/// Writes the text into the block.
fn put_text(rt: &impl Abort, region: &mut Region, ptr: Ptr) {
    let block = region.bytes_mut(ptr).expect(rt, "a block");
    for (byte, letter) in block.iter_mut().zip(TEXT.as_bytes()) {
        *byte = *letter;
    }
}

/// Writes the text that the block begins with.
fn write_text<W: Write>(
    rt: &impl Abort,
    out: &mut W,
    region: &mut Region,
    ptr: Ptr,
) -> Result<(), Error> {
    let block = region.bytes(ptr).expect(rt, "a block");
    let text = block.get(..TEXT.len()).expect(rt, "a text");
    let text = str::from_utf8(text).expect(rt, "a text");
    writeln!(out, "{text}")
}

/// Writes each block of the pool: its place, its size, and whether it is used.
fn write_rows<W: Write>(rt: &impl Abort, out: &mut W, region: &mut Region) -> Result<(), Error> {
    let mut written = Ok(());
    let walked = region.walk(0, |row| {
        let word = if row.used { "used" } else { "free" };
        if written.is_ok() {
            written = writeln!(out, "  {}: {} bytes, {word}", row.place, row.size);
        }
    });
    expect_eq(rt, walked, Ok(()));
    written
}

/// Takes a block for the text, and one of 100 bytes at a multiple of 64.
fn take_blocks<W: Write>(
    rt: &impl Abort,
    out: &mut W,
    region: &mut Region,
) -> Result<(Ptr, Ptr), Error> {
    expect_eq(rt, region.add_pool(0, 1024), Ok(()));
    let text = region.malloc(TEXT.len() as u64).expect(rt, "a block");
    put_text(rt, region, text);
    let buffer = region.memalign(64, 100).expect(rt, "a block");
    writeln!(
        out,
        "text at {}, buffer at {}",
        text.place(),
        buffer.place()
    )?;
    write_rows(rt, out, region)?;
    Ok((text, buffer))
}

/// Makes the text's block one of 100 bytes, for which it has to move.
fn move_text<W: Write>(
    rt: &impl Abort,
    out: &mut W,
    region: &mut Region,
    text: Ptr,
) -> Result<Ptr, Error> {
    let moved = region.realloc(Some(text), 100).expect(rt, "a block");
    let moved = moved.expect(rt, "a pointer");
    writeln!(out, "text moved to {}", moved.place())?;
    write_text(rt, out, region, moved)?;
    write_rows(rt, out, region)?;
    Ok(moved)
}

/// Frees a block.
fn give_back<W: Write>(
    rt: &impl Abort,
    out: &mut W,
    region: &mut Region,
    name: &str,
    ptr: Ptr,
) -> Result<(), Error> {
    expect_eq(rt, region.free(ptr), Ok(()));
    writeln!(out, "{name} freed")?;
    write_rows(rt, out, region)
}

/// Uses a region of 1,024 bytes, and writes what it is after each step.
fn use_region<W: Write>(rt: &impl Abort, out: &mut W, region: &mut Region) -> Result<(), Error> {
    let (text, buffer) = take_blocks(rt, out, region)?;
    let moved = move_text(rt, out, region, text)?;
    writeln!(out, "free of the old pointer: {:?}", region.free(text))?;
    give_back(rt, out, region, "buffer", buffer)?;
    give_back(rt, out, region, "text", moved)?;
    writeln!(out, "check: {}", region.check())
}

#[test]
fn example(rt: HostRuntime) {
    let mut region = made(&rt, rt.alloc(), 1024, 8);
    let mut text: ArrayString<512> = ArrayString::new();
    expect_eq(&rt, use_region(&rt, &mut text, &mut region), Ok(()));
    expect_eq(&rt, text.as_str(), WRITTEN);
}
