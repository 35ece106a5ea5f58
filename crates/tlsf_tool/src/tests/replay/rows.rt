//! Lines, with what is wrong with each of them and what is held at the end.

use super::*;
use crate::tests::expect_eq_at;

/// What is wrong with a line, the addresses as numbers.
#[derive(Clone, Copy, Debug, PartialEq, Eq)]
enum Wrong {
    TooLong,
    NotALine,
    NotHeld(u64),
    AlreadyHeld(u64),
    Refused(u64, Refusal),
    Half,
    Stray,
}

impl Wrong {
    fn of(kind: Kind) -> Wrong {
        match kind {
            Kind::TooLong => Wrong::TooLong,
            Kind::NotALine => Wrong::NotALine,
            Kind::NotHeld(addr) => Wrong::NotHeld(addr.value()),
            Kind::AlreadyHeld(addr) => Wrong::AlreadyHeld(addr.value()),
            Kind::Refused(addr, refusal) => Wrong::Refused(addr.value(), refusal),
            Kind::Half => Wrong::Half,
            Kind::Stray => Wrong::Stray,
        }
    }
}

/// A diagnostic that is expected: the number of the line that is answered with it, or `END`. Then the
/// number of the line that it is of, and what is wrong with that.
type Told = (u64, u64, Wrong);

/// Told by `finish`.
const END: u64 = 0;

/// Lines, with the diagnostics of a replay of them, and what it holds then.
#[derive(Clone, Copy)]
struct Row {
    name: &'static str,
    settings: Settings,
    lines: &'static [&'static str],
    told: &'static [Told],
    held: &'static [Held],
}

/// One pool of 64 bytes and one record.
const ONE_RECORD: Settings = Settings {
    pool: 64,
    pools: 1,
    records: 1,
};

/// One pool of 64 bytes and four records.
const FOUR_RECORDS: Settings = Settings {
    pool: 64,
    pools: 1,
    records: 4,
};

/// One pool of as many bytes as the greatest alignment.
const GREATEST_ALIGNMENT: Settings = Settings {
    pool: 536_870_912,
    pools: 1,
    records: 16,
};

/// Compares the diagnostics of one answer.
fn expect_diagnostics(rt: &impl Abort, name: &str, diagnostics: &Note, at: u64, wanted: &[Told]) {
    let mut found = diagnostics.as_slice().iter();
    for (told_at, line, wrong) in wanted {
        if *told_at == at {
            match found.next() {
                Some(diagnostic) => {
                    expect_eq_at(rt, name, diagnostic.line, *line);
                    expect_eq_at(rt, name, Wrong::of(diagnostic.kind), *wrong);
                }
                None => panic!(rt; "{name}: too few diagnostics at {at}"),
            }
        }
    }
    assert!(rt;
        found.next().is_none(),
        "{name}: too many diagnostics at {at}"
    );
}

fn expect_row<H: Heaped>(rt: &impl Abort, alloc: Global, row: &Row) {
    let Ok(mut fed) = Fed::<H>::create(alloc, row.settings) else {
        panic!(rt; "{}: no replay", row.name);
    };
    for text in row.lines {
        match fed.feed(rt, text) {
            Ok(diagnostics) => expect_diagnostics(rt, row.name, &diagnostics, fed.lines, row.told),
            Err(_) => panic!(rt; "{}: {text} is refused memory", row.name),
        }
    }
    match fed.replay.finish() {
        Ok(diagnostics) => expect_diagnostics(rt, row.name, &diagnostics, END, row.told),
        Err(_) => panic!(rt; "{}: no end", row.name),
    }
    expect_held(rt, row.name, &fed.replay, row.held);
}

const ROWS: [Row; 16] = [
    Row {
        name: "half of a reallocation at the end",
        settings: SMALL,
        lines: &["+ 0x01000 0x10", "+ 0x1000 0", "- 0x2000", "< 0x1000"],
        told: &[
            (1, 1, Wrong::NotALine),
            (3, 3, Wrong::NotHeld(0x2000)),
            (END, 4, Wrong::Half),
        ],
        held: &[Held(0x1000, 0, 2, None)],
    },
    Row {
        name: "a pair",
        settings: SMALL,
        lines: &["@ a + 0x10 0x64", "@ b < 0x10", "@ b > 0x30 0xc8"],
        told: &[],
        held: &[Held(0x30, 200, 3, Some("b"))],
    },
    Row {
        name: "one record",
        settings: ONE_RECORD,
        lines: &[
            "+ 0x10 0x8",
            "- 0x10",
            "+ 0x10 0x40",
            "+ 0x10 0x8",
            "- 0x10",
        ],
        told: &[
            (1, 1, Wrong::Refused(0x10, Refusal::TableFull)),
            (2, 2, Wrong::NotHeld(0x10)),
            (4, 4, Wrong::AlreadyHeld(0x10)),
        ],
        held: &[],
    },
    Row {
        name: "a pair that is refused",
        settings: FOUR_RECORDS,
        lines: &["+ 0x10 0x8", "< 0x10", "> 0x20 0x80"],
        told: &[(3, 3, Wrong::Refused(0x20, Refusal::NoFit))],
        held: &[],
    },
    Row {
        name: "two halves before a pair's end",
        settings: FOUR_RECORDS,
        lines: &["+ 0x10 0x8", "< 0x10", "< 0x10", "> 0x10 0x10"],
        told: &[(3, 2, Wrong::Half)],
        held: &[Held(0x10, 16, 4, None)],
    },
    Row {
        name: "a pair's end alone",
        settings: SMALL,
        lines: &["> 0x20 0x8", "< 0x10", "> 0x20 0x8"],
        told: &[(1, 1, Wrong::Stray), (3, 3, Wrong::NotHeld(0x10))],
        held: &[Held(0x20, 8, 3, None)],
    },
    Row {
        name: "a line between the halves",
        settings: SMALL,
        lines: &["< 0x10", "= End", "> 0x10 0x8"],
        told: &[(2, 1, Wrong::Half), (3, 3, Wrong::Stray)],
        held: &[],
    },
    Row {
        name: "the old address not held, and the new one held",
        settings: SMALL,
        lines: &["+ 0x20 0x8", "< 0x10", "> 0x20 0x8"],
        told: &[
            (3, 3, Wrong::NotHeld(0x10)),
            (3, 3, Wrong::AlreadyHeld(0x20)),
        ],
        held: &[Held(0x20, 8, 1, None)],
    },
    Row {
        name: "both addresses held",
        settings: SMALL,
        lines: &["+ 0x10 0x8", "+ 0x20 0x8", "< 0x10", "> 0x20 0x10"],
        told: &[(4, 4, Wrong::AlreadyHeld(0x20))],
        held: &[Held(0x10, 8, 1, None), Held(0x20, 8, 2, None)],
    },
    Row {
        name: "lines without effect",
        settings: SMALL,
        lines: &["! 0x10 0x8", "! (nil) 0", "+ (nil) 0x8", "= End"],
        told: &[],
        held: &[],
    },
    Row {
        name: "aligned blocks",
        settings: SMALL,
        lines: &["+ 0x10 0x8", "@ a * 0x20 0x40 0x20", "* 0x30 0x1 0"],
        told: &[],
        held: &[
            Held(0x10, 8, 1, None),
            Held(0x20, 32, 2, Some("a")),
            Held(0x30, 0, 3, None),
        ],
    },
    Row {
        name: "alignments that are none",
        settings: SMALL,
        lines: &[
            "* 0x10 0x3 0x8",
            "* 0x10 0 0x8",
            "* 0x10 0xffffffffffffffff 0xffffffffffffffff",
            "* 0x10 0x1 0xffffffffffffffff",
            "* 0x10 0x1 0",
        ],
        told: &[
            (1, 1, Wrong::Refused(0x10, Refusal::BadAlign)),
            (2, 2, Wrong::NotALine),
            (3, 3, Wrong::Refused(0x10, Refusal::BadAlign)),
            (4, 4, Wrong::Refused(0x10, Refusal::NoFit)),
        ],
        held: &[Held(0x10, 0, 5, None)],
    },
    Row {
        name: "the greatest alignment, and the next one",
        settings: GREATEST_ALIGNMENT,
        lines: &[
            "* 0x10 0x20000000 0x8",
            "* 0x20 0x20000000 0x8",
            "* 0x30 0x40000000 0x8",
        ],
        told: &[
            (2, 2, Wrong::Refused(0x20, Refusal::NoFit)),
            (3, 3, Wrong::Refused(0x30, Refusal::BadAlign)),
        ],
        held: &[Held(0x10, 8, 1, None)],
    },
    Row {
        name: "aligned blocks behind halves, and for an address that is held",
        settings: SMALL,
        lines: &[
            "+ 0x10 0x8",
            "< 0x10",
            "* 0x20 0x40 0x8",
            "< 0x10",
            "* 0x10 0x3 0x8",
            "> 0x10 0x8",
        ],
        told: &[
            (3, 2, Wrong::Half),
            (5, 4, Wrong::Half),
            (5, 5, Wrong::AlreadyHeld(0x10)),
            (6, 6, Wrong::Stray),
        ],
        held: &[Held(0x10, 8, 1, None), Held(0x20, 8, 3, None)],
    },
    Row {
        name: "an aligned block that moves, and one that is freed",
        settings: SMALL,
        lines: &[
            "* 0x10 0x40 0x20",
            "* 0x20 0x40 0x20",
            "< 0x10",
            "> 0x30 0x40",
            "- 0x20",
        ],
        told: &[],
        held: &[Held(0x30, 64, 4, None)],
    },
    Row {
        name: "in order of address",
        settings: SMALL,
        lines: &["+ 0x30 0x1", "@ b + 0x10 0x2", "+ 0x20 0x3"],
        told: &[],
        held: &[
            Held(0x10, 2, 2, Some("b")),
            Held(0x20, 3, 3, None),
            Held(0x30, 1, 1, None),
        ],
    },
];

#[test]
fn rows_of_both_heaps(rt: HostRuntime) {
    for row in &ROWS {
        expect_row::<Heap>(&rt, rt.alloc(), row);
        expect_row::<PlainHeap>(&rt, rt.alloc(), row);
    }
}
