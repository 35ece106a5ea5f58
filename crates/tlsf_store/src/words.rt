//! The words of a table as they stand in memory, and whether they are those of a store.

ghost use Rattle.std.specs.Prelude.{◌≡◌, ◌+◌, ◌<◌, ◌≤◌, ◌↔◌, IsTrue, IfSome, IfNone, All, length, map};
ghost use Rattle.tlsf_store.specs.Records.{most_records, IsBelow, IsKept};
ghost use Rattle.tlsf_store.specs.Cells.{AreCells, IsPoolBelow};
ghost use Rattle.tlsf_store.specs.Slots.{link_of};
ghost use Rattle.tlsf_store.specs.Table.{IsTable};
ghost use Rattle.tlsf_store.specs.Words.{cells_of, AreStoreWords};

use super::ghost_count::GhostCount;
use super::kept_words::KeptWords;
use super::packed::PackedRecord;
use super::slots::{is_below, link_of};
use super::store::{HEADS, STEP_WORDS};
use super::vacant_chain::{count_vacant, is_chain};
use super::{MOST_POOLS, MOST_RECORDS, Pool};
use std::marker::Model;
use tlsf_class::LEVELS;

/// The words of a table, to be read alone. Nothing is known of them: they may hold anything, as those of a table that was
/// written over.
#[derive(Drop)]
pub struct TableWords<'a> {
    pub(crate) records: &'a [PackedRecord],
    pub(crate) first_vacant: u16,
    pub(crate) vacant: u32,
    pub(crate) heads: &'a [u16; HEADS],
    pub(crate) level_word: u32,
    pub(crate) step_words: &'a [u32; STEP_WORDS],
    pub(crate) pools: &'a [Option<Pool>; MOST_POOLS],
}

impl<'a> Model for TableWords<'a> {
    ghost use Rattle.std.specs.Prelude.{map};
    ghost use Rattle.tlsf_store.specs.Slots.{link_of};
    ghost use Rattle.tlsf_store.specs.Words.{Words};

    ghost Value = { Words };

    ghost view = { λ w. record {
      records = w.records.now;
      first_vacant = link_of w.first_vacant;
      vacant = w.vacant;
      heads = map link_of w.heads.now;
      level_word = w.level_word;
      step_words = w.step_words.now;
      pools = w.pools.now;
    } };
}

/// Whether a table of these records keeps each of them. A touch each.
fn are_kept(records: &[PackedRecord], touches: &mut GhostCount) -> bool
    ensures exact { IsTrue result ↔ All (IsKept (length records.now)) records.now }
    ensures touched { IsTrue result → touches.new.count ≡ touches.old.count + length records.now }
{
    for item in records {
        touches.tick();
        if !item.is_kept(records.len()) {
            return false;
        }
    }
    true
}

/// Whether each word is of a missing link, or of a slot below this count.
fn are_below(words: &[u16], count: usize) -> bool
    ensures { IsTrue result ↔ All (IsBelow count) (map link_of words.now) }
{
    for word in words {
        if !is_below(*word, count) {
            return false;
        }
    }
    true
}

/// Whether the first block of an entry's pool, if there is one, is a slot below this count.
fn is_pool_below(entry: &Option<Pool>, count: usize) -> bool
    ensures { IsTrue result ↔ IsPoolBelow count entry.now }
{
    match entry {
        Some(pool) => pool.first.index() < count,
        None => true,
    }
}

/// Whether each entry has no pool, or one whose first block is a slot below this count.
fn are_pools_below(entries: &[Option<Pool>], count: usize) -> bool
    ensures { IsTrue result ↔ All (IsPoolBelow count) entries.now }
{
    for entry in entries {
        if !is_pool_below(entry, count) {
            return false;
        }
    }
    true
}

impl<'a> TableWords<'a> {
    /// The words of a table: its records, the word of the first vacant one, how many vacant ones are counted, and the
    /// words beside the records.
    pub fn new(
        records: &'a [PackedRecord],
        first_vacant: u16,
        vacant: u32,
        heads: &'a [u16; HEADS],
        level_word: u32,
        step_words: &'a [u32; STEP_WORDS],
        pools: &'a [Option<Pool>; MOST_POOLS],
    ) -> TableWords<'a>
        ensures { result ≡ record { records = records.now; first_vacant = link_of first_vacant; vacant = vacant; heads = map link_of heads.now; level_word = level_word; step_words = step_words.now; pools = pools.now } }
    {
        TableWords {
            records,
            first_vacant,
            vacant,
            heads,
            level_word,
            step_words,
            pools,
        }
    }

    /// Whether the records are those of a table. Places and sizes are multiples of the unit, links are below the count, and
    /// each vacant record stands once on the chain of vacant ones, which are as many as are counted.
    fn has_table(&self, touches: &mut GhostCount) -> bool
        ensures exact { IsTrue result ↔ IsTable self.now.records self.now.first_vacant self.now.vacant }
        ensures touched { IsTrue result → touches.old.count + length self.now.records ≤ touches.new.count }
    {
        let first = link_of(self.first_vacant);
        self.records.len() <= MOST_RECORDS as usize
            && are_kept(self.records, touches)
            && count_vacant(self.records, touches) == self.vacant
            && is_chain(self.records, first, self.vacant, touches)
    }

    /// Whether the cells beside the table are those of a store: heads and pools are below the count.
    fn has_cells(&self) -> bool
        ensures { IsTrue result ↔ AreCells (length self.now.records) self.now.heads self.now.level_word self.now.pools }
    {
        let count = self.records.len();
        let heads = self.heads;
        let pools = self.pools;
        0 < count
            && count <= MOST_RECORDS as usize
            && are_below(heads, count)
            && self.level_word < 1 << LEVELS
            && are_pools_below(pools, count)
    }

    /// The words as those of a store, where they are. Then each record was touched.
    pub fn kept(self, touches: &mut GhostCount) -> Option<KeptWords<'a>>
        ensures none { IfNone result (AreStoreWords self.entry → ⊥) }
        ensures some { IfSome result (λ kept. AreStoreWords self.entry) }
        ensures cells { IfSome result (λ kept. kept.cells ≡ cells_of self.entry) }
        ensures touched { IfSome result (λ kept. touches.old.count + length self.entry.records < touches.new.count) }
    {
        touches.tick();
        if self.has_cells() && self.has_table(touches) {
            Some(KeptWords::new(self))
        } else {
            None
        }
    }
}
