use crate::tests::expect_eq_at;
use mtrace_log::{Event, LineFault, Location, read_line};
use std::process::Abort;

/// That an event's place is the one wanted, or none where none is.
fn expect_place(rt: &impl Abort, line: &[u8], at: &Option<Location>, place: Option<&[u8]>) {
    match (at, place) {
        (Some(at), Some(place)) => assert!(rt; at.bytes() == place, "{line:?}"),
        (None, None) => {}
        _ => panic!(rt; "the place of {line:?}"),
    }
}

/// What a line says of an allocation: its place, its address and its size.
pub(super) fn expect_alloc(
    rt: &impl Abort,
    line: &[u8],
    place: Option<&[u8]>,
    address: Option<u64>,
    bytes: u64,
) {
    let answer = read_line(line);
    let Ok(Event::Alloc { at, addr, size }) = &answer else {
        panic!(rt; "no allocation: {line:?}");
    };
    expect_place(rt, line, at, place);
    let value = addr.as_ref().map(|a| a.value());
    expect_eq_at(rt, line, value, address);
    expect_eq_at(rt, line, *size, bytes);
}

/// What a line says of a free: its place and its address.
fn expect_free(rt: &impl Abort, line: &[u8], place: Option<&[u8]>, address: u64) {
    let answer = read_line(line);
    let Ok(Event::Free { at, addr }) = &answer else {
        panic!(rt; "no free: {line:?}");
    };
    expect_place(rt, line, at, place);
    expect_eq_at(rt, line, addr.value(), address);
}

/// What a line says of a block being reallocated: its place and its address.
fn expect_old(rt: &impl Abort, line: &[u8], place: Option<&[u8]>, address: u64) {
    let answer = read_line(line);
    let Ok(Event::Old { at, addr }) = &answer else {
        panic!(rt; "no old block: {line:?}");
    };
    expect_place(rt, line, at, place);
    expect_eq_at(rt, line, addr.value(), address);
}

/// What a line says of a reallocation's new block: its place, its address and its size.
fn expect_new(rt: &impl Abort, line: &[u8], place: Option<&[u8]>, address: u64, bytes: u64) {
    let answer = read_line(line);
    let Ok(Event::New { at, addr, size }) = &answer else {
        panic!(rt; "no new block: {line:?}");
    };
    expect_place(rt, line, at, place);
    expect_eq_at(rt, line, addr.value(), address);
    expect_eq_at(rt, line, *size, bytes);
}

/// What a line says of a reallocation that failed: its place, its address and its size.
fn expect_failed(
    rt: &impl Abort,
    line: &[u8],
    place: Option<&[u8]>,
    address: Option<u64>,
    bytes: u64,
) {
    let answer = read_line(line);
    let Ok(Event::Failed { at, addr, size }) = &answer else {
        panic!(rt; "no failure: {line:?}");
    };
    expect_place(rt, line, at, place);
    let value = addr.as_ref().map(|a| a.value());
    expect_eq_at(rt, line, value, address);
    expect_eq_at(rt, line, *size, bytes);
}

/// What a line says of an aligned allocation: its place, its address, its alignment and its size.
pub(super) fn expect_aligned(
    rt: &impl Abort,
    line: &[u8],
    place: Option<&[u8]>,
    address: u64,
    alignment: u64,
    bytes: u64,
) {
    let answer = read_line(line);
    let Ok(
        Event::Aligned {
            at,
            addr,
            align,
            size,
        },
    ) = &answer
    else {
        panic!(rt; "no aligned allocation: {line:?}");
    };
    expect_place(rt, line, at, place);
    expect_eq_at(rt, line, addr.value(), address);
    expect_eq_at(rt, line, align.value(), alignment);
    expect_eq_at(rt, line, *size, bytes);
}

#[test]
fn reads_each_form(rt: HostRuntime) {
    assert!(rt; read_line(b"= Start") == Ok(Event::Start));
    assert!(rt; read_line(b"= End") == Ok(Event::End));
    expect_alloc(&rt, b"+ 0x10 0x64", None, Some(16), 100);
    expect_alloc(&rt, b"+ 0x1000 0", None, Some(4096), 0);
    expect_alloc(&rt, b"+ (nil) 0xc8", None, None, 200);
    expect_free(&rt, b"- 0x10", None, 16);
    expect_free(&rt, b"- 0xffffffffffffffff", None, u64::MAX);
    expect_old(&rt, b"< 0x9f", None, 159);
    expect_new(&rt, b"> 0x20 0x12c", None, 32, 300);
    expect_new(&rt, b"> 0x20 0", None, 32, 0);
    expect_failed(
        &rt,
        b"! 0x30 0x7fffffffffffffff",
        None,
        Some(48),
        9223372036854775807,
    );
    expect_failed(&rt, b"! (nil) 0x10", None, None, 16);
    expect_failed(&rt, b"! (nil) 0", None, None, 0);
    expect_aligned(&rt, b"* 0x20 0x40 0x20", None, 32, 64, 32);
    expect_aligned(&rt, b"* 0x10 0x3 0x8", None, 16, 3, 8);
    expect_aligned(&rt, b"* 0x10 0x1 0", None, 16, 1, 0);
    expect_aligned(
        &rt,
        b"* 0x1 0x20000000 0x40000000",
        None,
        1,
        536870912,
        1073741824,
    );
}

#[test]
fn reads_each_form_behind_a_place(rt: HostRuntime) {
    expect_alloc(&rt, b"@ a + 0x10 0x64", Some(b"a"), Some(16), 100);
    expect_alloc(
        &rt,
        b"@ ./prog:(main+9b)[0x1244] + 0xabcdef 0x1",
        Some(b"./prog:(main+9b)[0x1244]"),
        Some(11259375),
        1,
    );
    expect_alloc(&rt, b"@ + + (nil) 0", Some(b"+"), None, 0);
    expect_free(
        &rt,
        b"@ ./prog:[0x11a9] - 0x5581a0",
        Some(b"./prog:[0x11a9]"),
        5603744,
    );
    expect_free(&rt, b"@ - - 0x1", Some(b"-"), 1);
    expect_old(
        &rt,
        b"@ ./prog:[0x11c0] < 0x10",
        Some(b"./prog:[0x11c0]"),
        16,
    );
    expect_old(&rt, b"@ @ < 0x10", Some(b"@"), 16);
    expect_new(
        &rt,
        b"@ ./prog:[0x11c0] > 0x20 0x12c",
        Some(b"./prog:[0x11c0]"),
        32,
        300,
    );
    expect_failed(
        &rt,
        b"@ ./prog:[0x11d2] ! 0x20 0xffff",
        Some(b"./prog:[0x11d2]"),
        Some(32),
        65535,
    );
    expect_failed(&rt, b"@ = ! (nil) 0x1", Some(b"="), None, 1);
    expect_free(
        &rt,
        b"@ caf\xC3\xA9:[0x1] - 0x10",
        Some(b"caf\xC3\xA9:[0x1]"),
        16,
    );
    expect_new(&rt, b"@ \xFF\x80! > 0x10 0x8", Some(b"\xFF\x80!"), 16, 8);
    expect_aligned(&rt, b"@ a * 0x20 0x40 0x20", Some(b"a"), 32, 64, 32);
    expect_aligned(&rt, b"@ * * 0x20 0x40 0", Some(b"*"), 32, 64, 0);
}

fn expect_no_event(rt: &impl Abort, lines: &[&[u8]]) {
    for line in lines {
        assert!(rt; read_line(line) == Err(LineFault::NotALine), "{line:?}");
    }
}

#[test]
fn refuses_other_lines(rt: HostRuntime) {
    let lines: [&[u8]; 31] = [
        b"",
        b" ",
        b"=",
        b"= start",
        b"=  Start",
        b"= Start ",
        b"= Ends",
        b"+ 0x01000 0x10",
        b"+ 0x1000 0x010",
        b"+ 0x1000 00",
        b"+ 0x1000 0x0",
        b"+ 0x0 0x10",
        b"+ 0 0x10",
        b"+ 0xA 0x10",
        b"+ 0xa 0x1F",
        b"+ 0Xa 0x10",
        b"+ 0x 0x10",
        b"+ 0xg 0x10",
        b"+ 0x10000000000000000 0x1",
        b"+ 0x1 0x10000000000000000",
        b"+ (nil) (nil)",
        b"+ (nil)",
        b"+ 0x10 10",
        b"+  0x10 0x10",
        b"+ 0x10  0x10",
        b"+ 0x10 0x10 ",
        b"+0x10 0x10",
        b"@ + 0x10 0x10",
        b"@  + 0x10 0x10",
        b"@ a b + 0x10 0x10",
        b"@ a\x7F + 0x10 0x10",
    ];
    expect_no_event(&rt, &lines);
}

#[test]
fn refuses_other_lines_of_the_blocks(rt: HostRuntime) {
    let lines: [&[u8]; 18] = [
        b"-",
        b"- ",
        b"- (nil)",
        b"- 0x0",
        b"- 0",
        b"- 0x010",
        b"- 0xA",
        b"- 0x10000000000000000",
        b"- 0x10 0x8",
        b"- 0x10 0",
        b"- 0x10 ",
        b"-  0x10",
        b"-0x10",
        b" - 0x10",
        b"< (nil)",
        b"< 0x10 0x8",
        b"< 0x010",
        b"<0x10",
    ];
    expect_no_event(&rt, &lines);
}

#[test]
fn refuses_other_lines_of_the_sizes(rt: HostRuntime) {
    let lines: [&[u8]; 22] = [
        b"> 0x10",
        b"> 0x10 ",
        b"> (nil) 0x8",
        b"> 0x0 0x8",
        b"> 0x010 0x8",
        b"> 0x10 0x08",
        b"> 0x10 00",
        b"> 0x10 0x0",
        b"> 0x10 0xF",
        b"> 0x10  0x8",
        b"> 0x10 0x8 0x8",
        b"> 0x10 (nil)",
        b">0x10 0x8",
        b"! 0x10",
        b"! (nil)",
        b"! (nil) ",
        b"! (null) 0x8",
        b"! (nil) 00",
        b"! (nil) 0x0",
        b"! 0 0x8",
        b"! 0x10 8",
        b"!  (nil) 0x8",
    ];
    expect_no_event(&rt, &lines);
}

#[test]
fn refuses_other_lines_of_the_alignments(rt: HostRuntime) {
    let lines: [&[u8]; 29] = [
        b"*",
        b"* ",
        b"* 0x10",
        b"* 0x10 ",
        b"* 0x10 0x8",
        b"* 0x10 0x8 ",
        b"* 0x10 0 0x8",
        b"* 0x10 0x0 0x8",
        b"* 0x10 (nil) 0x8",
        b"* (nil) 0x8 0x8",
        b"* 0x0 0x8 0x8",
        b"* 0 0x8 0x8",
        b"* 0x10 0x08 0x8",
        b"* 0x10 0x8 0x08",
        b"* 0x10 0x8 00",
        b"* 0x10 0x8 (nil)",
        b"* 0x10 0xA 0x8",
        b"* 0x10 16 0x8",
        b"* 0x10 0x8 0x8 ",
        b"* 0x10 0x8 0x8 0x8",
        b"*  0x10 0x8 0x8",
        b"* 0x10  0x8 0x8",
        b"* 0x10 0x8  0x8",
        b"* 0x10 0x10000000000000000 0x8",
        b"+ 0x10 0x8 0x8",
        b"+ (nil) 0x8 0x8",
        b"! 0x10 0x8 0x8",
        b"- 0x10 0x8 0x8",
        b"< 0x10 0x8 0x8",
    ];
    expect_no_event(&rt, &lines);
}

#[test]
fn refuses_other_lines_behind_a_place(rt: HostRuntime) {
    let lines: [&[u8]; 18] = [
        b"@",
        b"@ ",
        b"@ a",
        b"@ a ",
        b"@ a = Start",
        b"@ a = End",
        b"@ a - ",
        b"@ a  - 0x10",
        b"@  a - 0x10",
        b"@a - 0x10",
        b"@ a - (nil)",
        b"@ a < 0x10 0x8",
        b"@ a > (nil) 0x8",
        b"@ a ! 0x10",
        b"@ a * 0x10 0x8",
        b"@ a * 0x10 0 0x8",
        b"@ a @ b - 0x10",
        b"@ a\tb - 0x10",
    ];
    expect_no_event(&rt, &lines);
}
