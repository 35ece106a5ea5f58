//! How large a pool is always enough for heaps by size, without a log.

use super::plan::{TYPED, expect_usage};
use super::program::strings;
use crate::asked::Command;
use crate::plan::planned;
use crate::service::end_run;
use crate::tests::expect_eq_at;
use mtrace_log::memory::{Full, MemorySink};
use mtrace_replay::{PartBounds, run_size_parts};
use std::test::Fail;

/// How many bytes more each request has, heaps by size, and the text that tells what is enough for them.
const ROWS: [(u64, &[PartBounds], &[u8]); 5] = [
    (
        0,
        &[PartBounds {
            blocks: 1,
            largest: 1,
        }],
        b"up to 16: 1 blocks, 16 bytes\nsum: 16 bytes\ntables: 1712 bytes\n",
    ),
    (
        0,
        &[
            PartBounds {
                blocks: 2_130,
                largest: 64,
            },
            PartBounds {
                blocks: 20,
                largest: 4_096,
            },
        ],
        b"up to 64: 2130 blocks, 136320 bytes\nup to 4096: 20 blocks, 81920 bytes\nsum: 218240 bytes\ntables: 37792 bytes\n",
    ),
    // 1,060 bytes are 67 units, and the class above begins at 68.
    (
        0,
        &[PartBounds {
            blocks: 3,
            largest: 1_060,
        }],
        b"up to 1088: 3 blocks, 3264 bytes\nsum: 3264 bytes\ntables: 1744 bytes\n",
    ),
    // 1,056 bytes are a class, and eight more aren't.
    (
        8,
        &[PartBounds {
            blocks: 3,
            largest: 1_056,
        }],
        b"up to 1088: 3 blocks, 3264 bytes\nsum: 3264 bytes\ntables: 1744 bytes\n",
    ),
    // The first has more bytes than any pool.
    (
        0,
        &[
            PartBounds {
                blocks: 2,
                largest: 1_056_964_608,
            },
            PartBounds {
                blocks: 5,
                largest: 32,
            },
        ],
        b"up to 1056964608: 2 blocks, -\nup to 32: 5 blocks, 160 bytes\nsum: -\ntables: -\n",
    ),
];

#[test]
fn rows_of_size_parts(rt: HostRuntime) {
    for (front, parts, text) in ROWS {
        let mut writer = MemorySink::in_pieces(rt.alloc(), 4096);
        let mut errors = MemorySink::in_pieces(rt.alloc(), 4096);
        let ended = run_size_parts(&mut writer, front, parts);
        let status = end_run(&mut errors, ended);
        expect_eq_at(&rt, parts, status, 0);
        expect_eq_at(&rt, parts, writer.bytes(), text);
        expect_eq_at(&rt, parts, errors.bytes(), b"".as_slice());
    }
}

/// No heaps, nine of them, and a size that has no class.
#[test]
fn bad_parts(rt: HostRuntime) {
    let bad: [&[PartBounds]; 3] = [
        &[],
        &[PartBounds {
            blocks: 1,
            largest: 16,
        }; 9],
        &[PartBounds {
            blocks: 1,
            largest: 1_056_964_609,
        }],
    ];
    for parts in bad {
        let mut writer = MemorySink::in_pieces(rt.alloc(), 4096);
        let mut errors = MemorySink::in_pieces(rt.alloc(), 4096);
        let ended = run_size_parts(&mut writer, 0, parts);
        let status = end_run(&mut errors, ended);
        expect_eq_at(&rt, parts, status, 2);
        expect_eq_at(&rt, parts, writer.bytes(), b"".as_slice());
        expect_eq_at(
            &rt,
            parts,
            errors.bytes(),
            b"tlsf: bad settings\n".as_slice(),
        );
    }
}

/// A writer without room for the whole text.
#[test]
fn writer_of_size_parts_fails(rt: HostRuntime) {
    let text = b"up to 16: 1 blocks, 16 bytes\nsum: 16 bytes\ntables: 1712 bytes\n".as_slice();
    for room in 0..text.len() {
        let mut writer = MemorySink::with_room(rt.alloc(), 4096, room, Full::Fails);
        let mut errors = MemorySink::in_pieces(rt.alloc(), 4096);
        let ended = run_size_parts(
            &mut writer,
            0,
            &[PartBounds {
                blocks: 1,
                largest: 1,
            }],
        );
        let status = end_run(&mut errors, ended);
        expect_eq_at(&rt, room, status, 3);
        if let Some(wanted) = text.get(..room) {
            expect_eq_at(&rt, room, writer.bytes(), wanted);
        }
    }
}

/// Words, with how many bytes more each request has, and the heaps by size that they tell.
const WORDS: [(&[&str], u64, &[PartBounds]); 3] = [
    (
        &[
            "tlsf", "size", "--part", "2130x64", "--front", "8", "--part", "20x4096",
        ],
        8,
        &[
            PartBounds {
                blocks: 2_130,
                largest: 64,
            },
            PartBounds {
                blocks: 20,
                largest: 4_096,
            },
        ],
    ),
    (
        &["tlsf", "size", "--part=65535x1"],
        0,
        &[PartBounds {
            blocks: 65_535,
            largest: 1,
        }],
    ),
    (
        &["tlsf", "size", "--part", "1x1056964608"],
        0,
        &[PartBounds {
            blocks: 1,
            largest: 1_056_964_608,
        }],
    ),
];

#[test]
fn words_of_size_parts(rt: HostRuntime) -> Result<(), Fail> {
    let alloc = rt.alloc();
    for (words, more, wanted) in WORDS {
        let plan = planned(alloc, strings(alloc, words)?.as_slice(), TYPED)?;
        let is_wanted = match &plan.command {
            Command::SizeParts { front, parts } => *front == more && parts.as_slice() == wanted,
            _ => false,
        };
        expect_eq_at(&rt, words, is_wanted, true);
    }
    Ok(())
}

/// Words that tell no heaps by size: what isn't read, what is out of range, and what stands beside them.
const WRONG: [&[&str]; 13] = [
    &["tlsf", "size", "--part"],
    &["tlsf", "size", "--part", "64"],
    &["tlsf", "size", "--part", "x64"],
    &["tlsf", "size", "--part", "20x"],
    &["tlsf", "size", "--part", "20x64x"],
    &["tlsf", "size", "--part", "20X64"],
    &["tlsf", "size", "--part", "0x64"],
    &["tlsf", "size", "--part", "65536x64"],
    &["tlsf", "size", "--part", "20x0"],
    &["tlsf", "size", "--part", "20x1056964609"],
    &["tlsf", "size", "--part", "4294967297x64"],
    &["tlsf", "size", "--part", "20x64", "--align", "16"],
    &[
        "tlsf", "size", "--part", "1x1", "--part", "1x1", "--part", "1x1", "--part", "1x1",
        "--part", "1x1", "--part", "1x1", "--part", "1x1", "--part", "1x1", "--part", "1x1",
    ],
];

#[test]
fn words_that_tell_no_parts(rt: HostRuntime) -> Result<(), Fail> {
    expect_usage(&rt, rt.alloc(), &WRONG)
}
