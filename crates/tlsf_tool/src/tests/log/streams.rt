use crate::tests::expect_eq;
use mtrace_log::memory::MemorySource;
use mtrace_log::{Event, LineFault, Lines, ReadFault, Source};
use std::process::Abort;

/// What a reader gives at most in one call: less than a buffer, a buffer, more, or all at once.
const PIECES: [usize; 9] = [1, 2, 3, 7, 64, 4095, 4096, 4097, usize::MAX];

/// What a line says, as far as the rows tell it.
#[derive(Clone, Copy, Drop)]
enum Said {
    Start,
    End,
    Size(u64),
    Aligned(u64),
    TooLong,
    NotALine,
}

/// Appends a part this many times.
fn append(rt: &impl Abort, text: &mut Vec<u8>, part: &[u8], times: usize) {
    for _ in 0..times {
        text.extend_from_slice(part).expect(rt, "memory");
    }
}

/// The next line says this.
fn expect_line<R: Source>(
    rt: &impl Abort,
    lines: &mut Lines,
    reader: &mut R,
    number: u64,
    said: &Said,
) {
    let Ok(Some(line)) = lines.next(reader) else {
        panic!(rt; "no line {number}");
    };
    expect_eq(rt, line.number, number);
    match (&line.event, said) {
        (Ok(Event::Start), Said::Start) => {}
        (Ok(Event::End), Said::End) => {}
        (
            Ok(
                Event::Alloc {
                    at: _,
                    addr: _,
                    size,
                },
            ),
            Said::Size(bytes),
        ) => expect_eq(rt, *size, *bytes),
        (
            Ok(
                Event::Aligned {
                    at: _,
                    addr: _,
                    align: _,
                    size,
                },
            ),
            Said::Aligned(bytes),
        ) => expect_eq(rt, *size, *bytes),
        (Err(LineFault::TooLong), Said::TooLong) => {}
        (Err(LineFault::NotALine), Said::NotALine) => {}
        _ => panic!(rt; "line {number}"),
    }
}

/// The next lines are this many starts, from the first on.
fn expect_starts<R: Source>(rt: &impl Abort, lines: &mut Lines, reader: &mut R, starts: u64) {
    for before in 0..starts {
        expect_line(rt, lines, reader, before.wrapping_add(1), &Said::Start);
    }
}

/// The lines of a text are this many starts, and then these.
fn expect_lines(rt: &impl Abort, text: &[u8], piece: usize, starts: u64, rows: &[Said]) {
    let mut reader = MemorySource::in_pieces(text, piece.max(1));
    let mut lines = Lines::new();
    expect_starts(rt, &mut lines, &mut reader, starts);
    let mut number = starts;
    for said in rows {
        number = number.wrapping_add(1);
        expect_line(rt, &mut lines, &mut reader, number, said);
    }
    assert!(rt; lines.next(&mut reader) == Ok(None), "{number}");
    assert!(rt; lines.next(&mut reader) == Ok(None), "{number}");
}

#[test]
fn cuts_a_text_into_lines(rt: HostRuntime) {
    for piece in PIECES {
        expect_lines(&rt, b"", piece, 0, &[]);
        expect_lines(&rt, b"\n", piece, 0, &[Said::NotALine]);
        expect_lines(&rt, b"+ 0x10 0x8", piece, 0, &[Said::Size(8)]);
        expect_lines(&rt, b"+ 0x10 0x8\n", piece, 0, &[Said::Size(8)]);
        expect_lines(&rt, b"@ \xFF + 0x10 0x8", piece, 0, &[Said::Size(8)]);
        expect_lines(
            &rt,
            b"+ 0x10 0x8\n\n+ (nil) 0\n+",
            piece,
            0,
            &[Said::Size(8), Said::NotALine, Said::Size(0), Said::NotALine],
        );
        expect_lines(
            &rt,
            b"+ 0x01000 0x10\n+ 0x1000 0\n- 0x02000\n< (nil)",
            piece,
            0,
            &[
                Said::NotALine,
                Said::Size(0),
                Said::NotALine,
                Said::NotALine,
            ],
        );
    }
}

#[test]
fn cuts_a_text_at_the_buffers_end(rt: HostRuntime) {
    // The rows begin this many bytes before the buffer's end.
    for inside in 0..26usize {
        let mut text = Vec::new(rt.alloc());
        append(&rt, &mut text, b"a", 4095 - inside);
        append(&rt, &mut text, b"\n+ 0x10 0x8\n\n+ (nil) 0\n+", 1);
        let rows = [
            Said::TooLong,
            Said::Size(8),
            Said::NotALine,
            Said::Size(0),
            Said::NotALine,
        ];
        for piece in PIECES {
            expect_lines(&rt, text.as_slice(), piece, 0, &rows);
        }
    }
}

#[test]
fn fills_a_buffer(rt: HostRuntime) {
    let mut text = Vec::new(rt.alloc());
    // 511 lines of 8 bytes are 4,088 bytes, and 512 are 4,096.
    append(&rt, &mut text, b"= Start\n", 511);
    for piece in PIECES {
        expect_lines(&rt, text.as_slice(), piece, 511, &[]);
    }
    append(&rt, &mut text, b"= Start\n", 1);
    for piece in PIECES {
        expect_lines(&rt, text.as_slice(), piece, 512, &[]);
    }
    append(&rt, &mut text, b"\n+ 0x10 0x8", 1);
    for piece in PIECES {
        let rows = [Said::NotALine, Said::Size(8)];
        expect_lines(&rt, text.as_slice(), piece, 512, &rows);
    }
}

#[test]
fn reads_a_last_line_across_the_buffers_end(rt: HostRuntime) {
    let mut text = Vec::new(rt.alloc());
    append(&rt, &mut text, b"= Start\n", 511);
    append(&rt, &mut text, b"+ 0x10 0x8", 1);
    for piece in PIECES {
        expect_lines(&rt, text.as_slice(), piece, 511, &[Said::Size(8)]);
    }
}

#[test]
fn reads_the_longest_line_across_the_buffers_end(rt: HostRuntime) {
    // 4,000 bytes of starts, and then 316 bytes of a line, or 317.
    let rows = [(255usize, Said::Aligned(u64::MAX)), (256, Said::TooLong)];
    for (letters, said) in rows {
        let mut text = Vec::new(rt.alloc());
        append(&rt, &mut text, b"= Start\n", 500);
        append(&rt, &mut text, b"@ ", 1);
        append(&rt, &mut text, b"a", letters);
        append(
            &rt,
            &mut text,
            b" * 0xffffffffffffffff 0xffffffffffffffff 0xffffffffffffffff\n= End",
            1,
        );
        for piece in PIECES {
            expect_lines(&rt, text.as_slice(), piece, 500, &[said, Said::End]);
        }
    }
    for (letters, said) in [(316usize, Said::NotALine), (317, Said::TooLong)] {
        let mut text = Vec::new(rt.alloc());
        append(&rt, &mut text, b"= Start\n", 500);
        append(&rt, &mut text, b"a", letters);
        append(&rt, &mut text, b"\n= End\n", 1);
        for piece in PIECES {
            expect_lines(&rt, text.as_slice(), piece, 500, &[said, Said::End]);
        }
    }
}

#[test]
fn passes_over_a_long_line(rt: HostRuntime) {
    // A line in one buffer, and one that fills two and more.
    for letters in [1000usize, 9000] {
        let mut text = Vec::new(rt.alloc());
        append(&rt, &mut text, b"a", letters);
        append(&rt, &mut text, b"\n= End\n", 1);
        for piece in PIECES {
            expect_lines(&rt, text.as_slice(), piece, 0, &[Said::TooLong, Said::End]);
        }
    }
}

#[test]
fn asks_where_the_buffer_is_used_up(rt: HostRuntime) {
    let mut text = Vec::new(rt.alloc());
    append(&rt, &mut text, b"= Start\n", 600);
    let mut reader = MemorySource::in_pieces(text.as_slice(), usize::MAX);
    let mut lines = Lines::new();
    expect_starts(&rt, &mut lines, &mut reader, 512);
    // Of 4,800 bytes it was asked for 4,096.
    let mut rest = [0u8; 1000];
    assert!(rt; reader.pull(&mut rest) == Ok(704));
}

#[test]
fn stops_where_the_reader_fails(rt: HostRuntime) {
    // The reader gives `- 0x0`, a newline and `- 0x2`, one byte a call, and fails before the rest.
    let mut reader = MemorySource::failing_after(b"- 0x0\n- 0x2\n= End\n", 1, 11);
    let mut lines = Lines::new();
    expect_line(&rt, &mut lines, &mut reader, 1, &Said::NotALine);
    assert!(rt; lines.next(&mut reader) == Err(ReadFault::ReaderFailed));
    // The reader would go on, and isn't asked.
    assert!(rt; lines.next(&mut reader) == Err(ReadFault::ReaderFailed));
    let mut byte = [0u8];
    assert!(rt; reader.pull(&mut byte) == Ok(1));
    assert!(rt; byte == *b"\n");
}

#[test]
fn stops_where_the_reader_fails_behind_a_full_buffer(rt: HostRuntime) {
    let mut text = Vec::new(rt.alloc());
    append(&rt, &mut text, b"= Start\n", 511);
    append(&rt, &mut text, b"+ 0x10 0x8\n= End\n", 1);
    // The 4,096 bytes that it gives end within the 512th line.
    for (piece, calls) in [(4096usize, 1u64), (1024, 4), (1, 4096)] {
        let mut reader = MemorySource::failing_after(text.as_slice(), piece.max(1), calls);
        let mut lines = Lines::new();
        expect_starts(&rt, &mut lines, &mut reader, 511);
        assert!(rt; lines.next(&mut reader) == Err(ReadFault::ReaderFailed));
        // The reader would go on, and isn't asked.
        assert!(rt; lines.next(&mut reader) == Err(ReadFault::ReaderFailed));
        let mut byte = [0u8];
        assert!(rt; reader.pull(&mut byte) == Ok(1));
        assert!(rt; byte == *b"x");
    }
}
