//! Words that are spoiled are told from those of a heap. They stand in plain memory, where no store keeps them.

use std::process::Abort;
use tlsf_heap::is_whole;
use tlsf_store::{GhostCount, MISSING, PackedRecord, Pool, Slot, TableWords};

/// The words of a record: its place, its size with the code of its state, and the links `prev`, `next`, `prev_free` and
/// `next_free`.
#[derive(Clone, Copy)]
struct Row {
    place: u32,
    size_word: u32,
    links: [u16; 4],
}

impl Row {
    /// The record of a block that is alone in its list, if it is in one.
    fn block(place: u32, size_word: u32, prev: u16, next: u16) -> Row {
        let links = [prev, next, MISSING, MISSING];
        Row {
            place,
            size_word,
            links,
        }
    }

    /// A vacant record, with the next one of the chain.
    fn vacant(next: u16) -> Row {
        Row::block(0, 0, MISSING, next)
    }

    /// Its record.
    fn record(self) -> PackedRecord {
        let [prev, next, prev_free, next_free] = self.links;
        PackedRecord::of_words(self.place, self.size_word, prev, next, prev_free, next_free)
    }
}

/// The words of a table of eight records.
#[derive(Clone, Copy)]
struct Plain {
    rows: [Row; 8],
    first_vacant: u16,
    vacant: u32,
    heads: [u16; 704],
    level_word: u32,
    step_words: [u32; 22],
    pools: [Option<Pool>; 8],
}

/// A pool of 1,024 bytes from 4,096 on.
const POOL: Pool = Pool {
    base: 4_096,
    bytes: 1_024,
    first: Slot(2),
};

/// The words of a heap with a pool. Its blocks are a free one of 112 bytes, live ones of 16 and 112 bytes, and a free one of
/// 784 bytes. The chain of vacant records is 4, 1, 7, 6.
fn whole() -> Plain {
    let rows = [
        Row::block(4_208, 16 + 2, 2, 5),
        Row::vacant(7),
        Row::block(4_096, 112 + 1, MISSING, 0),
        Row::block(4_336, 784 + 1, 5, MISSING),
        Row::vacant(1),
        Row::block(4_224, 112 + 2, 0, 3),
        Row::vacant(MISSING),
        Row::vacant(6),
    ];
    let mut heads = [MISSING; 704];
    heads[7] = 2;
    heads[49] = 3;
    let mut step_words = [0; 22];
    step_words[0] = 1 << 7;
    step_words[1] = 1 << 17;
    let mut pools = [None; 8];
    pools[0] = Some(POOL);
    Plain {
        rows,
        first_vacant: 4,
        vacant: 4,
        heads,
        level_word: 0b11,
        step_words,
        pools,
    }
}

/// A word of a table, with what is written into it. A record's words and a head have their slot or class in front, a link its
/// number as well, and a pool's entry and a step word their numbers.
#[derive(Clone, Copy)]
enum Word {
    Place(usize, u32),
    Size(usize, u32),
    Link(usize, usize, u16),
    FirstVacant(u16),
    Vacant(u32),
    Head(usize, u16),
    Levels(u32),
    Steps(usize, u32),
    Entry(usize, Option<Pool>),
}

/// Writes a record's word.
fn write_row(rows: &mut [Row; 8], slot: usize, word: Word) {
    if slot < 8 {
        match word {
            Word::Place(_, place) => rows[slot].place = place,
            Word::Size(_, size_word) => rows[slot].size_word = size_word,
            Word::Link(_, number, link) => {
                if number < 4 {
                    rows[slot].links[number] = link;
                }
            }
            _ => {}
        }
    }
}

/// The table with a word written.
fn with(table: Plain, word: Word) -> Plain {
    let mut table = table;
    match word {
        Word::Place(slot, _) | Word::Size(slot, _) | Word::Link(slot, _, _) => {
            write_row(&mut table.rows, slot, word);
        }
        Word::FirstVacant(first) => table.first_vacant = first,
        Word::Vacant(count) => table.vacant = count,
        Word::Head(class, first) => {
            if class < 704 {
                table.heads[class] = first;
            }
        }
        Word::Levels(levels) => table.level_word = levels,
        Word::Steps(level, steps) => {
            if level < 22 {
                table.step_words[level] = steps;
            }
        }
        Word::Entry(number, entry) => {
            if number < 8 {
                table.pools[number] = entry;
            }
        }
    }
    table
}

/// Whether the words are those of a heap.
fn is_heap(table: &Plain) -> bool {
    let records = table.rows.map(Row::record);
    let words = TableWords::new(
        &records,
        table.first_vacant,
        table.vacant,
        &table.heads,
        table.level_word,
        &table.step_words,
        &table.pools,
    );
    is_whole(words, &mut GhostCount::new())
}

#[test]
fn words_of_a_heap(rt: HostRuntime) {
    assert!(rt; is_heap(&whole()));
}

/// A vacant record holds no place and no links but that of the chain: what else stands there is of no meaning, as long as a
/// table keeps it.
#[test]
fn words_of_no_meaning(rt: HostRuntime) {
    assert!(rt; is_heap(&with(whole(), Word::Place(6, 16))));
    assert!(rt; is_heap(&with(whole(), Word::Size(6, 32))));
    assert!(rt; is_heap(&with(whole(), Word::Link(6, 0, 7))));
    assert!(rt; is_heap(&with(whole(), Word::Link(0, 2, 3))));
}

/// Words of records that no store keeps, or whose block is another.
const SPOILED_RECORDS: [Word; 24] = [
    // The code of a state is none of three.
    Word::Size(0, 16 + 3),
    Word::Size(2, 112 + 15),
    Word::Size(5, 112 + 4),
    Word::Size(6, 3),
    Word::Size(4, 15),
    // The state of another block.
    Word::Size(0, 16 + 1),
    Word::Size(0, 0),
    Word::Size(2, 112 + 2),
    Word::Size(3, 784),
    Word::Size(7, 16 + 2),
    // Sizes and places that don't cover the pool, and places of no unit.
    Word::Size(0, 32 + 2),
    Word::Place(5, 4_240),
    Word::Place(2, 4_104),
    Word::Place(6, 8),
    // Links of no slot.
    Word::Link(0, 0, 8),
    Word::Link(5, 1, 65_534),
    Word::Link(2, 2, 8),
    Word::Link(3, 3, 8),
    Word::Link(5, 3, 8),
    Word::Link(6, 0, 8),
    // Links of another block.
    Word::Link(0, 0, 5),
    Word::Link(0, 1, MISSING),
    Word::Link(2, 3, 3),
    Word::Link(3, 2, 3),
];

/// Words of the chain of vacant records: it ends, or goes round, or leads to a block, or past one, or is counted wrong.
const SPOILED_CHAINS: [Word; 13] = [
    Word::Link(4, 1, MISSING),
    Word::Link(7, 1, MISSING),
    Word::Link(4, 1, 4),
    Word::Link(6, 1, 4),
    Word::Link(7, 1, 0),
    Word::Link(6, 1, 2),
    Word::Link(4, 1, 7),
    Word::FirstVacant(MISSING),
    Word::FirstVacant(1),
    Word::FirstVacant(0),
    Word::FirstVacant(8),
    Word::Vacant(3),
    Word::Vacant(5),
];

/// Words beside the records: heads, bitmaps and pools.
const SPOILED_CELLS: [Word; 17] = [
    Word::Head(7, MISSING),
    Word::Head(7, 8),
    Word::Head(7, 3),
    Word::Head(7, 0),
    Word::Head(0, 2),
    Word::Head(703, 65_534),
    Word::Levels(0b01),
    Word::Levels(0b111),
    Word::Levels(1 << 22 | 0b11),
    Word::Levels(1 << 31 | 0b11),
    Word::Steps(0, 1 << 7 | 1),
    Word::Steps(1, 1 << 18),
    Word::Steps(21, 1 << 31),
    Word::Entry(0, None),
    Word::Entry(
        0,
        Some(Pool {
            first: Slot(8),
            ..POOL
        }),
    ),
    Word::Entry(
        0,
        Some(Pool {
            base: 4_088,
            ..POOL
        }),
    ),
    Word::Entry(1, Some(POOL)),
];

#[test]
fn words_spoiled(rt: HostRuntime) {
    for word in SPOILED_RECORDS {
        assert!(rt; !is_heap(&with(whole(), word)));
    }
    for word in SPOILED_CHAINS {
        assert!(rt; !is_heap(&with(whole(), word)));
    }
    for word in SPOILED_CELLS {
        assert!(rt; !is_heap(&with(whole(), word)));
    }
}

/// Words of no records, and of a chain that vanished with its count: the one is no table, and the other one misses records.
#[test]
fn words_of_fewer_records(rt: HostRuntime) {
    let table = whole();
    let none = TableWords::new(
        &[],
        MISSING,
        0,
        &table.heads,
        0,
        &table.step_words,
        &table.pools,
    );
    assert!(rt; !is_whole(none, &mut GhostCount::new()));
    let lost = with(with(whole(), Word::FirstVacant(MISSING)), Word::Vacant(0));
    assert!(rt; !is_heap(&lost));
}
