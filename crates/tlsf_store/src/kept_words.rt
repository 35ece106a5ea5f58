//! The words of a store, read as the cells that they are.

ghost use Rattle.std.specs.Prelude.{◌≡◌, ◌<◌, ◌≤◌, length, slice_index};
ghost use Rattle.tlsf_class.specs.Classes.{levels, classes};
ghost use Rattle.tlsf_store.specs.declared.records.State.TheVariants.{Vacant};
ghost use Rattle.tlsf_store.specs.Records.{most_records, blank, record_at, IsKept};
ghost use Rattle.tlsf_store.specs.Cells.{head_at, pool_at, most_pools, IsPoolBelow};
ghost use Rattle.tlsf_store.specs.CountedCells.{LeavesAfter};
ghost use Rattle.tlsf_store.specs.Words.{cells_of, AreStoreWords};

use super::ghost_count::GhostCount;
use super::slots::link_of;
use super::words::TableWords;
use super::{Pool, Record, Slot};
use std::marker::Model;
use tlsf_class::Class;

/// The words of a store, to be read alone. Each reading counts as a touch.
#[derive(Drop)]
pub struct KeptWords<'a> {
    words: TableWords<'a>,
    touches: GhostCount,
}

impl<'a> Model for KeptWords<'a> {
    ghost use Rattle.tlsf_store.specs.CountedCells.{CountedCells};
    ghost use Rattle.tlsf_store.specs.Words.{cells_of, AreStoreWords};

    ghost Value = { CountedCells };

    ghost view = { λ kept. record { cells = cells_of kept.words; touches = kept.touches.count } };

    ghost invariant = { λ kept. AreStoreWords kept.words };
}

impl<'a> KeptWords<'a> {
    /// Of words that are those of a store. None was read yet.
    pub(crate) fn new(words: TableWords<'a>) -> KeptWords<'a>
        requires { AreStoreWords words }
        ensures cells { result.cells ≡ cells_of words.entry }
        ensures untouched { result.touches ≡ 0 }
    {
        KeptWords {
            words,
            touches: GhostCount::new(),
        }
    }

    /// How often a word was read.
    pub fn touches(&self) -> &GhostCount
        ensures { result.now.count ≡ self.now.touches }
    {
        &self.touches
    }

    /// How many records there are. It isn't a touch.
    pub fn records(&self) -> u32
        ensures value { result ≡ length self.now.cells.records }
        ensures some { 0 < result }
        ensures few { result ≤ most_records }
    {
        let records = self.words.records;
        records.len() as u32
    }

    /// The record of a slot. A vacant one has no place, size or links. One touch.
    pub fn read(&mut self, slot: Slot) -> Record
        requires { slot < length self.old.cells.records }
        ensures value { result ≡ record_at self.old.cells.records slot }
        ensures kept { IsKept (length self.old.cells.records) result }
        ensures vacant { result.state ≡ Vacant → result ≡ blank }
        ensures left { LeavesAfter self.old.cells 1 self.old self.new }
    {
        self.touches.tick();
        let records = self.words.records;
        records[slot.index()].unpack()
    }

    /// The first block of a class's list. One touch.
    pub fn head(&mut self, class: Class) -> Option<Slot>
        ensures count { length self.old.cells.heads ≡ classes }
        ensures value { result ≡ head_at self.old.cells.heads class }
        ensures left { LeavesAfter self.old.cells 1 self.old self.new }
    {
        self.touches.tick();
        let heads = self.words.heads;
        link_of(heads[class.number() as usize])
    }

    /// The level word: a bit for each first level. One touch.
    pub fn level_word(&mut self) -> u32
        ensures value { result ≡ self.old.cells.level_word }
        ensures left { LeavesAfter self.old.cells 1 self.old self.new }
    {
        self.touches.tick();
        self.words.level_word
    }

    /// The step word of a first level: a bit for each of its classes. One touch.
    pub fn step_word(&mut self, level: u32) -> u32
        requires { level < levels }
        ensures value { result ≡ slice_index self.old.cells.step_words level }
        ensures left { LeavesAfter self.old.cells 1 self.old self.new }
    {
        self.touches.tick();
        let words = self.words.step_words;
        words[level as usize]
    }

    /// The pool of an entry, a number below `MOST_POOLS`. One touch.
    pub fn pool(&mut self, number: u32) -> Option<Pool>
        requires { number < most_pools }
        ensures count { length self.old.cells.pools ≡ most_pools }
        ensures value { result ≡ pool_at self.old.cells.pools number }
        ensures below { IsPoolBelow (length self.old.cells.records) result }
        ensures left { LeavesAfter self.old.cells 1 self.old self.new }
    {
        self.touches.tick();
        let pools = self.words.pools;
        pools[number as usize]
    }
}
