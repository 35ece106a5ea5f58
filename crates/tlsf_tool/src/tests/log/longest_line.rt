//! The longest lines that are read.

use crate::tests::expect_eq;
use crate::tests::log::line_rows::{expect_aligned, expect_alloc};
use mtrace_log::{LONGEST_LINE, LONGEST_LOCATION, LineFault, read_line};
use std::process::Abort;

/// `@ `, this many times `a`, and then what stands behind the place.
fn long_line(line: &mut Vec<u8>, count: usize, behind: &[u8], rt: &impl Abort) {
    line.extend_from_slice(b"@ ").expect(rt, "memory");
    for _ in 0..count {
        line.push(b'a').expect(rt, "memory");
    }
    line.extend_from_slice(behind).expect(rt, "memory");
}

#[test]
fn reads_the_longest_line(rt: HostRuntime) {
    let behind = b" * 0xffffffffffffffff 0xffffffffffffffff 0xffffffffffffffff".as_slice();
    let mut longest = Vec::new(rt.alloc());
    long_line(&mut longest, LONGEST_LOCATION, behind, &rt);
    let mut place = Vec::new(rt.alloc());
    for _ in 0..LONGEST_LOCATION {
        place.push(b'a').expect(&rt, "memory");
    }
    expect_eq(&rt, longest.len(), 316);
    expect_eq(&rt, LONGEST_LINE, 316);
    expect_aligned(
        &rt,
        longest.as_slice(),
        Some(place.as_slice()),
        u64::MAX,
        u64::MAX,
        u64::MAX,
    );

    let mut longer = Vec::new(rt.alloc());
    long_line(&mut longer, LONGEST_LOCATION + 1, behind, &rt);
    assert!(rt; read_line(longer.as_slice()) == Err(LineFault::TooLong));
}

#[test]
fn reads_the_longest_line_of_the_tracer(rt: HostRuntime) {
    let behind = b" + 0xffffffffffffffff 0xffffffffffffffff".as_slice();
    let mut longest = Vec::new(rt.alloc());
    long_line(&mut longest, LONGEST_LOCATION, behind, &rt);
    let mut place = Vec::new(rt.alloc());
    for _ in 0..LONGEST_LOCATION {
        place.push(b'a').expect(&rt, "memory");
    }
    expect_eq(&rt, longest.len(), 297);
    expect_alloc(
        &rt,
        longest.as_slice(),
        Some(place.as_slice()),
        Some(u64::MAX),
        u64::MAX,
    );

    // It isn't too long to be kept, but its location is.
    let mut longer = Vec::new(rt.alloc());
    long_line(&mut longer, LONGEST_LOCATION + 1, behind, &rt);
    assert!(rt; read_line(longer.as_slice()) == Err(LineFault::NotALine));
}
