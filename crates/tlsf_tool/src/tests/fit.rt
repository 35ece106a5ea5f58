//! How large a pool a log needs.

use super::again::{
    Case, Row, expect_bad_settings, expect_reader_failures, expect_rows, expect_text_or_refusal,
    expect_writer_failures,
};
use crate::asked::Rereading;
use crate::tests::expect_eq_at;
use arrayvec::ArrayString;
use mtrace_log::ToWrite;
use mtrace_log::memory::{MemorySink, MemorySource};
use mtrace_replay::{Status, Watch, run_fit};
use std::cell::Cell;
use std::fmt::Write;
use std::io;

const ROWS: [Row; 8] = [
    Row {
        name: "empty-log",
        what: Rereading::Fit {
            front: 0,
            step: None,
        },
        log: b"",
        text: b"peak: 0 bytes at line 0\nheld at most: 0 blocks\nrecords: 3\ntable: 1744 bytes\nleast pool: 16 bytes\nsafe pool: 16 bytes\nsizes tried: 2, 0 refused\nsure pool: 16 bytes\n",
        status: 0,
    },
    Row {
        name: "refused-on-the-greatest",
        what: Rereading::Fit {
            front: 0,
            step: None,
        },
        log: b"+ 0x10 0x40000000\n",
        text: b"line 1: 0x10 refused: no fit\npeak: 0 bytes at line 0\nheld at most: 0 blocks\nrecords: -\ntable: -\nleast pool: -\nsafe pool: -\nsizes tried: 0\nsure pool: -\nrefused: 1 lines\n",
        status: 1,
    },
    Row {
        name: "served-and-then-refused",
        what: Rereading::Fit {
            front: 0,
            step: Some(16),
        },
        log: LOG,
        text: b"peak: 1500 bytes at line 11\nheld at most: 3 blocks\nrecords: 9\ntable: 1840 bytes\nleast pool: 1536 bytes\nsafe pool: 2032 bytes\nsizes tried: 95, 14 refused\nsure pool: 4288 bytes\n",
        status: 1,
    },
    // A step above the greatest size's half, and a peak above the step: the second multiple is no size.
    Row {
        name: "no-size-within",
        what: Rereading::Fit {
            front: 0,
            step: Some(536_870_912),
        },
        log: b"+ 0x10 0x20000010\n- 0x10\n",
        text: b"peak: 536870928 bytes at line 1\nheld at most: 1 blocks\nrecords: 5\ntable: 1776 bytes\nleast pool: -\nsafe pool: -\nsizes tried: 0, 0 refused\nsure pool: -\n",
        status: 0,
    },
    // The alignment asks for 4,096 bytes, and twice the peak is 32: seven ranges follow, each of one size.
    Row {
        name: "served-far-behind-twice-the-peak",
        what: Rereading::Fit {
            front: 0,
            step: None,
        },
        log: b"* 0x10 0x1000 0x10\n",
        text: b"peak: 16 bytes at line 1\nheld at most: 1 blocks\nrecords: 5\ntable: 1776 bytes\nleast pool: 4096 bytes\nsafe pool: 4096 bytes\nsizes tried: 9, 8 refused\nsure pool: 8192 bytes\n",
        status: 1,
    },
    // One step reaches the peak.
    Row {
        name: "a-step-as-large-as-the-peak",
        what: Rereading::Fit {
            front: 0,
            step: Some(1008),
        },
        log: b"+ 0x10 0x3f0\n- 0x10\n",
        text: b"peak: 1008 bytes at line 1\nheld at most: 1 blocks\nrecords: 5\ntable: 1776 bytes\nleast pool: 1008 bytes\nsafe pool: 1008 bytes\nsizes tried: 2, 0 refused\nsure pool: 3008 bytes\n",
        status: 0,
    },
    // The same log, but for eight bytes more that each request has.
    Row {
        name: "a-front-of-eight-bytes",
        what: Rereading::Fit {
            front: 8,
            step: Some(1008),
        },
        log: b"+ 0x10 0x3e8\n- 0x10\n",
        text: b"peak: 1008 bytes at line 1\nheld at most: 1 blocks\nrecords: 5\ntable: 1776 bytes\nleast pool: 1008 bytes\nsafe pool: 1008 bytes\nsizes tried: 2, 0 refused\nsure pool: 3008 bytes\n",
        status: 0,
    },
    // The block grows in its place to a size for which there is no class.
    Row {
        name: "no-class-for-a-size",
        what: Rereading::Fit {
            front: 0,
            step: Some(1_073_741_808),
        },
        log: b"+ 0x10 0x10\n< 0x10\n> 0x10 0x3f000010\n",
        text: b"peak: 1056964624 bytes at line 3\nheld at most: 1 blocks\nrecords: 5\ntable: 1776 bytes\nleast pool: 1073741808 bytes\nsafe pool: 1073741808 bytes\nsizes tried: 1, 0 refused\nsure pool: -\n",
        status: 1,
    },
];

/// A log that is served on 1,536 bytes, and refused on some sizes above.
const LOG: &[u8] =
    b"+ 0x10 0x12c\n- 0x10\n+ 0x30 0x1f4\n+ 0x40 0xc8\n- 0x30\n+ 0x60 0x30\n+ 0x70 0x258\n- 0x60\n+ 0x90 0xc8\n- 0x40\n+ 0xb0 0x2bc\n";

#[test]
fn rows_of_fit(rt: HostRuntime) {
    expect_rows(&rt, rt.alloc(), &ROWS);
}

/// A log with a diagnostic, whose two sizes are tried. The reader gives it and tells its end, and then twice begins again
/// and gives it.
const CASE: Case = Case {
    what: Rereading::Fit {
        front: 0,
        step: None,
    },
    log: b"x\n+ 0x10 0x10\n- 0x10\n",
    notes: b"line 1: not a line\n",
    text: b"line 1: not a line\npeak: 16 bytes at line 2\nheld at most: 1 blocks\nrecords: 5\ntable: 1776 bytes\nleast pool: 16 bytes\nsafe pool: 16 bytes\nsizes tried: 2, 0 refused\nsure pool: 32 bytes\n",
    calls: 6,
};

#[test]
fn reader_of_fit_fails(rt: HostRuntime) {
    expect_reader_failures(&rt, rt.alloc(), &CASE);
}

#[test]
fn writer_of_fit_fails(rt: HostRuntime) {
    expect_writer_failures(&rt, rt.alloc(), &CASE);
}

/// Steps that are no whole number of units, or none, or more than the greatest size.
#[test]
fn bad_steps(rt: HostRuntime) {
    for step in [0, 8, 24, 1_073_741_809, 1_073_741_824] {
        let what = Rereading::Fit {
            front: 8,
            step: Some(step),
        };
        expect_bad_settings(&rt, rt.alloc(), what, CASE.log);
    }
}

/// A run takes memory twice, for the table and for what is held, however many sizes are tried. With a writer that takes none it
/// fails where one of these is refused, and with no later one.
#[test]
fn memory_of_fit(rt: HostRuntime) {
    let mut reader = MemorySource::in_pieces(LOG, 7);
    let mut writer = ToWrite::new(io::sink());
    let answer = run_fit(rt.alloc(), &mut reader, &mut writer, 0, Some(16), &());
    assert!(rt; answer == Ok(Status::Found));
}

#[test]
fn fit_with_refused_memory(rt: HostRuntime) {
    expect_text_or_refusal(&rt, rt.alloc(), &CASE);
}

/// How many sizes are going to be tried, as they are told.
#[derive(Drop)]
struct Expected {
    sizes: Cell<u64>,
}

impl Watch for Expected {
    fn expect(&self, sizes: u64) {
        self.sizes.set(self.sizes.get().saturating_add(sizes));
    }
}

/// As many sizes are told as are tried, also where the greatest of the first range is refused.
#[test]
fn sizes_are_told_before(rt: HostRuntime) {
    for (log, text) in [
        (
            b"+ 0x10 0xc80\n".as_slice(),
            "sizes tried: 201, 0 refused\n",
        ),
        (b"* 0x10 0x1000 0x10\n", "sizes tried: "),
    ] {
        let expected = Expected {
            sizes: Cell::new(0),
        };
        let mut reader = MemorySource::in_pieces(log, 4096);
        let mut writer = MemorySink::in_pieces(rt.alloc(), 4096);
        let answer = run_fit(rt.alloc(), &mut reader, &mut writer, 0, Some(16), &expected);
        expect_eq_at(&rt, text, answer, Ok(Status::Found));
        let mut tried: ArrayString<64> = ArrayString::new();
        assert!(rt; write!(tried, "sizes tried: {},", expected.sizes.get()).is_ok());
        assert!(rt;
            contains(writer.bytes(), tried.as_str().as_bytes()),
            "{text}"
        );
        assert!(rt; contains(writer.bytes(), text.as_bytes()), "{text}");
    }
}

/// Whether the text has these bytes.
fn contains(text: &[u8], bytes: &[u8]) -> bool {
    (0..text.len()).any(|at| text[at..].starts_with(bytes))
}
