//! How large a pool is always enough, without a log.

use super::plan::{TYPED, expect_usage};
use super::program::strings;
use crate::asked::Command;
use crate::plan::{Plan, planned};
use crate::service::end_run;
use crate::tests::expect_eq_at;
use mtrace_log::memory::{Full, MemorySink};
use mtrace_replay::{Bounds, run_size};
use std::test::Fail;

/// A block of one byte, the only one.
const LEAST: Bounds = Bounds {
    blocks: 1,
    largest: 1,
    bytes: None,
    align: None,
    front: 0,
};

/// Sixty blocks of at most 1,040 bytes.
const SIXTY: Bounds = Bounds {
    blocks: 60,
    largest: 1_040,
    ..LEAST
};

/// Bounds, with the text that tells what is enough within them.
struct Row {
    bounds: Bounds,
    text: &'static [u8],
}

const ROWS: [Row; 17] = [
    Row {
        bounds: LEAST,
        text: b"records: 5\ntable: 1776 bytes\nsure pool: 32 bytes\nrounded pool: 16 bytes\n",
    },
    Row {
        bounds: SIXTY,
        text: b"records: 123\ntable: 3664 bytes\nsure pool: 125856 bytes\nrounded pool: 63360 bytes\n",
    },
    // Each alignment up to 16 asks for no more.
    Row {
        bounds: Bounds {
            align: Some(1),
            ..SIXTY
        },
        text: b"records: 123\ntable: 3664 bytes\nsure pool: 125856 bytes\nrounded pool: 63360 bytes\n",
    },
    Row {
        bounds: Bounds {
            align: Some(16),
            ..SIXTY
        },
        text: b"records: 123\ntable: 3664 bytes\nsure pool: 125856 bytes\nrounded pool: 63360 bytes\n",
    },
    // A front of eight bytes takes each block to the next unit, as tlsf_sure_bytes has it.
    Row {
        bounds: Bounds { front: 8, ..SIXTY },
        text: b"records: 123\ntable: 3664 bytes\nsure pool: 126816 bytes\nrounded pool: 63360 bytes\n",
    },
    Row {
        bounds: Bounds {
            bytes: Some(62_400),
            front: 8,
            ..SIXTY
        },
        text: b"records: 123\ntable: 3664 bytes\nsure pool: 126816 bytes\nrounded pool: 63360 bytes\n",
    },
    // 1,088 bytes are asked for, which are a class. Gaps in front of blocks may leave too little for one of one size.
    Row {
        bounds: Bounds {
            align: Some(64),
            ..SIXTY
        },
        text: b"records: 123\ntable: 3664 bytes\nsure pool: 127808 bytes\nrounded pool: -\n",
    },
    // 67 units, and the class above begins at 68.
    Row {
        bounds: Bounds {
            largest: 1_060,
            ..LEAST
        },
        text: b"records: 5\ntable: 1776 bytes\nsure pool: 3232 bytes\nrounded pool: 1088 bytes\n",
    },
    // 401 bytes are 26 units.
    Row {
        bounds: Bounds {
            blocks: 3,
            largest: 160,
            bytes: Some(401),
            ..LEAST
        },
        text: b"records: 9\ntable: 1840 bytes\nsure pool: 1008 bytes\nrounded pool: 480 bytes\n",
    },
    Row {
        bounds: Bounds {
            align: Some(268_435_456),
            ..LEAST
        },
        text: b"records: 5\ntable: 1776 bytes\nsure pool: 536870912 bytes\nrounded pool: -\n",
    },
    // Twice as great an alignment asks for a unit more than the greatest pool.
    Row {
        bounds: Bounds {
            align: Some(536_870_912),
            ..LEAST
        },
        text: b"records: 5\ntable: 1776 bytes\nsure pool: -\nrounded pool: -\n",
    },
    // The greatest pool, and a unit more.
    Row {
        bounds: Bounds {
            bytes: Some(1_073_741_792),
            ..LEAST
        },
        text: b"records: 5\ntable: 1776 bytes\nsure pool: 1073741808 bytes\nrounded pool: 16 bytes\n",
    },
    Row {
        bounds: Bounds {
            bytes: Some(1_073_741_793),
            ..LEAST
        },
        text: b"records: 5\ntable: 1776 bytes\nsure pool: -\nrounded pool: 16 bytes\n",
    },
    // More than any pool has.
    Row {
        bounds: Bounds {
            bytes: Some(1_073_741_809),
            ..LEAST
        },
        text: b"records: 5\ntable: 1776 bytes\nsure pool: -\nrounded pool: 16 bytes\n",
    },
    Row {
        bounds: Bounds {
            bytes: Some(u64::MAX),
            ..LEAST
        },
        text: b"records: 5\ntable: 1776 bytes\nsure pool: -\nrounded pool: 16 bytes\n",
    },
    // The greatest bounds, and an alignment for which there is no class.
    Row {
        bounds: Bounds {
            blocks: 32_766,
            largest: 1_056_964_608,
            ..LEAST
        },
        text: b"records: 65535\ntable: 1050256 bytes\nsure pool: -\nrounded pool: -\n",
    },
    Row {
        bounds: Bounds {
            largest: 1_056_964_608,
            align: Some(32),
            ..LEAST
        },
        text: b"records: 5\ntable: 1776 bytes\nsure pool: -\nrounded pool: -\n",
    },
];

#[test]
fn rows_of_size(rt: HostRuntime) {
    for row in &ROWS {
        let mut writer = MemorySink::in_pieces(rt.alloc(), 4096);
        let mut errors = MemorySink::in_pieces(rt.alloc(), 4096);
        let ended = run_size(&mut writer, row.bounds);
        let status = end_run(&mut errors, ended);
        expect_eq_at(&rt, row.bounds, status, 0);
        expect_eq_at(&rt, row.bounds, writer.bytes(), row.text);
        expect_eq_at(&rt, row.bounds, errors.bytes(), b"".as_slice());
    }
}

/// Alignments that `memalign` doesn't take.
#[test]
fn bad_alignments(rt: HostRuntime) {
    for align in [0, 3, 24, 65, 1_073_741_824] {
        let bounds = Bounds {
            align: Some(align),
            ..SIXTY
        };
        let mut writer = MemorySink::in_pieces(rt.alloc(), 4096);
        let mut errors = MemorySink::in_pieces(rt.alloc(), 4096);
        let ended = run_size(&mut writer, bounds);
        let status = end_run(&mut errors, ended);
        expect_eq_at(&rt, align, status, 2);
        expect_eq_at(&rt, align, writer.bytes(), b"".as_slice());
        expect_eq_at(
            &rt,
            align,
            errors.bytes(),
            b"tlsf: bad settings\n".as_slice(),
        );
    }
}

/// A writer without room for the whole text, or whose flush fails.
#[test]
fn writer_of_size_fails(rt: HostRuntime) {
    let text =
        b"records: 123\ntable: 3664 bytes\nsure pool: 125856 bytes\nrounded pool: 63360 bytes\n".as_slice();
    for room in 0..text.len() + 1 {
        let mut writer = MemorySink::with_room(rt.alloc(), 4096, room, Full::Fails).failing_flush();
        let mut errors = MemorySink::in_pieces(rt.alloc(), 4096);
        let ended = run_size(&mut writer, SIXTY);
        let status = end_run(&mut errors, ended);
        expect_eq_at(&rt, room, status, 3);
        if let Some(wanted) = text.get(..room) {
            expect_eq_at(&rt, room, writer.bytes(), wanted);
        }
        expect_eq_at(
            &rt,
            room,
            errors.bytes(),
            b"tlsf: write failed\n".as_slice(),
        );
    }
}

/// Words, with the bounds that they tell.
const WORDS: [(&[&str], Bounds); 4] = [
    (
        &["tlsf", "size", "--blocks", "60", "--largest", "1040"],
        SIXTY,
    ),
    (&["tlsf", "size", "--largest=1040", "--blocks=60"], SIXTY),
    (
        &[
            "tlsf",
            "size",
            "--align",
            "65",
            "--bytes",
            "1",
            "--largest",
            "1",
            "--blocks",
            "1",
        ],
        Bounds {
            bytes: Some(1),
            align: Some(65),
            ..LEAST
        },
    ),
    (
        &[
            "tlsf",
            "size",
            "--blocks",
            "32766",
            "--largest",
            "1056964608",
            "--bytes",
            "1073741808",
            "--align",
            "536870912",
        ],
        Bounds {
            blocks: 32_766,
            largest: 1_056_964_608,
            bytes: Some(1_073_741_808),
            align: Some(536_870_912),
            front: 0,
        },
    ),
];

/// The words ask for these bounds, and nothing is opened.
#[test]
fn words_of_size(rt: HostRuntime) -> Result<(), Fail> {
    let alloc = rt.alloc();
    for (words, bounds) in WORDS {
        let wanted = Plan {
            command: Command::Size { bounds },
            notice: false,
        };
        expect_eq_at(
            &rt,
            words,
            planned(alloc, strings(alloc, words)?.as_slice(), TYPED)?,
            wanted,
        );
    }
    Ok(())
}

/// Words that tell no bounds.
const WRONG: [&[&str]; 8] = [
    &["tlsf", "size"],
    &["tlsf", "size", "--blocks", "60"],
    &["tlsf", "size", "--largest", "1040"],
    &["tlsf", "size", "--blocks", "0", "--largest", "1040"],
    &["tlsf", "size", "--blocks", "32767", "--largest", "1040"],
    &["tlsf", "size", "--blocks", "60", "--largest", "1056964609"],
    &["tlsf", "size", "--blocks", "60", "--largest", "-1040"],
    &[
        "tlsf",
        "size",
        "--blocks",
        "60",
        "--largest",
        "1040",
        "a.log",
    ],
];

#[test]
fn words_that_tell_no_bounds(rt: HostRuntime) -> Result<(), Fail> {
    expect_usage(&rt, rt.alloc(), &WRONG)
}
