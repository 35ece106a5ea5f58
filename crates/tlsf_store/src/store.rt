//! The store.

ghost use Rattle.std.specs.Prelude.{◌≡◌, ◌≢◌, ◌==◌, ◌&&◌, true, ◌+◌, ◌<◌, ◌≤◌, ◌%◌, ◌^◌, ◌⊎◌, ◌↔◌, IfOk, IfSome, IfNone, length, slice_index, Some, None, Err};
ghost use Rattle.tlsf_class.specs.Classes.{unit, levels, classes};
ghost use Rattle.tlsf_store.specs.declared.errors.StoreError.TheVariants.{BadCount};
ghost use Rattle.tlsf_store.specs.declared.records.State.TheVariants.{Vacant, Free};
ghost use Rattle.tlsf_store.specs.Records.{most_records, blank, record_at, vacant_count, is_live_state, IsBelow, IsKept};
ghost use Rattle.tlsf_store.specs.CountedCells.{LeavesAfter};
ghost use Rattle.tlsf_store.specs.Words.{cells_of, AreStoreWords};
ghost use Rattle.tlsf_store.specs.Cells.{with_record, with_head, with_level_word, with_step_word, with_pool, with_taken, head_at, pool_at, most_pools, empty_cells, IsPoolBelow};

use super::ghost_count::GhostCount;
use super::packed::PackedRecord;
use super::slots::{MISSING, link_of, link_word};
use super::table::Table;
use super::words::TableWords;
use super::{Pool, Record, Slot, State, StoreError};
use std::alloc::Global;
use std::marker::Model;
use tlsf_class::{CLASSES, Class, LEVELS};

/// The most records that a table has.
pub const MOST_RECORDS: u32 = 65_535;

/// The most pools: there is an entry for each.
pub const MOST_POOLS: usize = 8;

/// How many class heads there are.
pub(crate) const HEADS: usize = CLASSES as usize;

/// How many step words there are: one for each first level, with a bit for each of its classes.
pub(crate) const STEP_WORDS: usize = LEVELS as usize;

/// A table of records with the heads of the class lists, the bitmap words and the pool entries.
#[derive(Drop)]
pub struct Store {
    table: Table,
    heads: [u16; HEADS],
    level_word: u32,
    step_words: [u32; STEP_WORDS],
    pools: [Option<Pool>; MOST_POOLS],
    touches: GhostCount,
}

const _: () = prove!(size_of::<Store>() == 1_664);

impl Model for Store {
    ghost use Rattle.tlsf_store.specs.Cells.{AreCells};
    ghost use Rattle.tlsf_store.specs.CountedCells.{CountedCells};
    ghost use Rattle.tlsf_store.specs.Slots.{link_of};
    ghost use Rattle.std.specs.Prelude.{length, map};

    ghost Value = { CountedCells };

    ghost view = { λ s. record {
      cells = record {
        records = s.table;
        heads = map link_of s.heads;
        level_word = s.level_word;
        step_words = s.step_words;
        pools = s.pools;
      };
      touches = s.touches.count;
    } };

    ghost invariant = { λ s. AreCells (length s.table) (map link_of s.heads) s.level_word s.pools };
}

impl Store {
    /// A store of this many vacant records, from 1 to 65,535, else `BadCount`. It takes memory once,
    /// for the table; where that is refused the answer is `OutOfMemory`.
    pub fn create(alloc: Global, records: u32) -> Result<Store, StoreError>
        ensures made { IfOk result (λ store. store.cells ≡ empty_cells records) }
        ensures untouched { IfOk result (λ store. store.touches ≡ 0) }
        ensures bad_count { (result ≡ Err BadCount) ↔ ((records ≡ 0) ⊎ (most_records < records)) }
    {
        if records == 0 || records > MOST_RECORDS {
            return Err(StoreError::BadCount);
        }
        let Ok(table) = Table::new(alloc, records) else {
            return Err(StoreError::OutOfMemory);
        };
        Ok(Store {
            table,
            heads: [MISSING; HEADS],
            level_word: 0,
            step_words: [0; STEP_WORDS],
            pools: [None; MOST_POOLS],
            touches: GhostCount::new(),
        })
    }

    /// The store is one of this many vacant records, from 1 to as many as there are, with nothing in it. It takes
    /// no memory, and isn't a touch.
    pub fn restart(&mut self, records: u32)
        requires some { 0 < records }
        requires few { records ≤ length self.old.cells.records }
        ensures cells { self.new.cells ≡ empty_cells records }
        ensures touches { self.new.touches ≡ self.old.touches }
    {
        let heads = [MISSING; HEADS];
        let step_words = [0; STEP_WORDS];
        let pools = [None; MOST_POOLS];
        self.table.restart(records);
        self.heads = heads;
        self.level_word = 0;
        self.step_words = step_words;
        self.pools = pools;
    }

    /// How many records there are. It isn't a touch.
    pub fn records(&self) -> u32
        ensures value { result ≡ length self.now.cells.records }
        ensures some { 0 < result }
        ensures few { result ≤ most_records }
    {
        self.table.len()
    }

    /// The record of a slot. A vacant one has no place, size or links. One touch.
    pub fn read(&mut self, slot: Slot) -> Record
        requires { slot < length self.old.cells.records }
        ensures value { result ≡ record_at self.old.cells.records slot }
        ensures kept { IsKept (length self.old.cells.records) result }
        ensures vacant { result.state ≡ Vacant → result ≡ blank }
        ensures left { LeavesAfter self.old.cells 1 self.old self.new }
    {
        self.touches.tick();
        self.table.read(slot)
    }

    /// The record of a slot that isn't vacant. One touch.
    pub fn read_used(&mut self, slot: Slot) -> Record
        requires within { slot < length self.old.cells.records }
        requires used { (record_at self.old.cells.records slot).state ≢ Vacant }
        ensures value { result ≡ record_at self.old.cells.records slot }
        ensures kept { IsKept (length self.old.cells.records) result }
        ensures left { LeavesAfter self.old.cells 1 self.old self.new }
    {
        self.touches.tick();
        self.table.read_used(slot)
    }

    /// Whether the record of a slot is of a live block of this place and size, a multiple of the unit. One touch.
    pub fn is_live(&mut self, slot: Slot, place: u32, size: u64) -> bool
        requires within { slot < length self.old.cells.records }
        requires in_units { size % unit ≡ 0 }
        ensures value { result ≡ (is_live_state (record_at self.old.cells.records slot).state && (((record_at self.old.cells.records slot).place == place) && ((record_at self.old.cells.records slot).size == size))) }
        ensures left { LeavesAfter self.old.cells 1 self.old self.new }
    {
        self.touches.tick();
        self.table.is_live(slot, place, size)
    }

    /// Writes a record that isn't vacant over one that isn't. Places and sizes are multiples of the
    /// unit, links are of records of this store. One touch.
    pub fn write(&mut self, slot: Slot, value: Record)
        requires within { slot < length self.old.cells.records }
        requires used { (record_at self.old.cells.records slot).state ≢ Vacant }
        requires new_used { value.state ≢ Vacant }
        requires kept { IsKept (length self.old.cells.records) value }
        ensures left { LeavesAfter (with_record self.old.cells slot value) 1 self.old self.new }
    {
        self.touches.tick();
        self.table
            .edit(slot, |item| *item = PackedRecord::pack(value));
    }

    /// Writes the size and the state of a record that isn't vacant. One touch: nothing is read.
    pub fn set_state(&mut self, slot: Slot, size: u32, state: State)
        requires within { slot < length self.old.cells.records }
        requires used { (record_at self.old.cells.records slot).state ≢ Vacant }
        requires new_used { state ≢ Vacant }
        requires in_units { size % unit ≡ 0 }
        ensures left { LeavesAfter (with_record self.old.cells slot (record (record_at self.old.cells.records slot) { size = size; state = state })) 1 self.old self.new }
    {
        self.touches.tick();
        self.table.edit(slot, |item| item.set_state(size, state));
    }

    /// Writes the size, the state and the link `next` of a record that isn't vacant. One touch: nothing
    /// is read.
    pub fn set_block(&mut self, slot: Slot, size: u32, state: State, next: Option<Slot>)
        requires within { slot < length self.old.cells.records }
        requires used { (record_at self.old.cells.records slot).state ≢ Vacant }
        requires new_used { state ≢ Vacant }
        requires in_units { size % unit ≡ 0 }
        requires below { IsBelow (length self.old.cells.records) next }
        ensures left { LeavesAfter (with_record self.old.cells slot (record (record_at self.old.cells.records slot) { size = size; state = state; next = next })) 1 self.old self.new }
    {
        self.touches.tick();
        self.table
            .edit(slot, |item| item.set_block(size, state, next));
    }

    /// Makes a record that isn't vacant one of a free block of `size` bytes, the first of its class's list, with the block of
    /// the slot `next` behind it there. Its place and its links in the pool stay. One touch: nothing is read.
    pub fn set_free(&mut self, slot: Slot, size: u32, next: Option<Slot>)
        requires within { slot < length self.old.cells.records }
        requires used { (record_at self.old.cells.records slot).state ≢ Vacant }
        requires in_units { size % unit ≡ 0 }
        requires below { IsBelow (length self.old.cells.records) next }
        ensures left { LeavesAfter (with_record self.old.cells slot (record (record_at self.old.cells.records slot) { size = size; state = Free; prev_free = None; next_free = next })) 1 self.old self.new }
    {
        self.touches.tick();
        self.table.edit(slot, |item| item.set_free(size, next));
    }

    /// Writes the link `prev` of a record that isn't vacant. One touch.
    pub fn set_prev(&mut self, slot: Slot, prev: Option<Slot>)
        requires within { slot < length self.old.cells.records }
        requires used { (record_at self.old.cells.records slot).state ≢ Vacant }
        requires below { IsBelow (length self.old.cells.records) prev }
        ensures left { LeavesAfter (with_record self.old.cells slot (record (record_at self.old.cells.records slot) { prev = prev })) 1 self.old self.new }
    {
        self.touches.tick();
        self.table.edit(slot, |item| item.set_prev(prev));
    }

    /// Writes the link `prev_free` of a record that isn't vacant. One touch.
    pub fn set_prev_free(&mut self, slot: Slot, prev: Option<Slot>)
        requires within { slot < length self.old.cells.records }
        requires used { (record_at self.old.cells.records slot).state ≢ Vacant }
        requires below { IsBelow (length self.old.cells.records) prev }
        ensures left { LeavesAfter (with_record self.old.cells slot (record (record_at self.old.cells.records slot) { prev_free = prev })) 1 self.old self.new }
    {
        self.touches.tick();
        self.table.edit(slot, |item| item.set_prev_free(prev));
    }

    /// Writes the link `next_free` of a record that isn't vacant. One touch.
    pub fn set_next_free(&mut self, slot: Slot, next: Option<Slot>)
        requires within { slot < length self.old.cells.records }
        requires used { (record_at self.old.cells.records slot).state ≢ Vacant }
        requires below { IsBelow (length self.old.cells.records) next }
        ensures left { LeavesAfter (with_record self.old.cells slot (record (record_at self.old.cells.records slot) { next_free = next })) 1 self.old self.new }
    {
        self.touches.tick();
        self.table.edit(slot, |item| item.set_next_free(next));
    }

    /// The first block of a class's list. One touch.
    pub fn head(&mut self, class: Class) -> Option<Slot>
        ensures within { class < length self.old.cells.heads }
        ensures count { length self.old.cells.heads ≡ classes }
        ensures value { result ≡ head_at self.old.cells.heads class }
        ensures below { IsBelow (length self.old.cells.records) result }
        ensures left { LeavesAfter self.old.cells 1 self.old self.new }
    {
        self.touches.tick();
        link_of(self.heads[class.number() as usize])
    }

    /// The first block of a class's list, which has one. One touch.
    pub fn first(&mut self, class: Class) -> Slot
        requires { head_at self.old.cells.heads class ≢ None }
        ensures value { head_at self.old.cells.heads class ≡ Some result }
        ensures below { result < length self.old.cells.records }
        ensures left { LeavesAfter self.old.cells 1 self.old self.new }
    {
        self.touches.tick();
        Slot(self.heads[class.number() as usize])
    }

    /// Makes this the first block of a class's list. One touch.
    pub fn set_head(&mut self, class: Class, first: Option<Slot>)
        requires { IsBelow (length self.old.cells.records) first }
        ensures within { class < length self.old.cells.heads }
        ensures left { LeavesAfter (with_head self.old.cells class first) 1 self.old self.new }
    {
        self.touches.tick();
        self.heads[class.number() as usize] = link_word(first);
    }

    /// The level word: a bit for each first level. One touch.
    pub fn level_word(&mut self) -> u32
        ensures value { result ≡ self.old.cells.level_word }
        ensures below { result < 2 ^ levels }
        ensures left { LeavesAfter self.old.cells 1 self.old self.new }
    {
        self.touches.tick();
        self.level_word
    }

    /// Writes the level word, which has no bit at or above the number of first levels. One touch.
    pub fn set_level_word(&mut self, word: u32)
        requires { word < 2 ^ levels }
        ensures left { LeavesAfter (with_level_word self.old.cells word) 1 self.old self.new }
    {
        self.touches.tick();
        self.level_word = word;
    }

    /// The step word of a first level: a bit for each of its classes. One touch.
    pub fn step_word(&mut self, level: u32) -> u32
        requires { level < levels }
        ensures within { level < length self.old.cells.step_words }
        ensures value { result ≡ slice_index self.old.cells.step_words level }
        ensures left { LeavesAfter self.old.cells 1 self.old self.new }
    {
        self.touches.tick();
        self.step_words[level as usize]
    }

    /// Writes the step word of a first level. One touch.
    pub fn set_step_word(&mut self, level: u32, word: u32)
        requires { level < levels }
        ensures within { level < length self.old.cells.step_words }
        ensures left { LeavesAfter (with_step_word self.old.cells level word) 1 self.old self.new }
    {
        self.touches.tick();
        self.step_words[level as usize] = word;
    }

    /// The pool of an entry, a number below `MOST_POOLS`. One touch.
    pub fn pool(&mut self, number: u32) -> Option<Pool>
        requires { number < most_pools }
        ensures within { number < length self.old.cells.pools }
        ensures count { length self.old.cells.pools ≡ most_pools }
        ensures value { result ≡ pool_at self.old.cells.pools number }
        ensures below { IsPoolBelow (length self.old.cells.records) result }
        ensures left { LeavesAfter self.old.cells 1 self.old self.new }
    {
        self.touches.tick();
        self.pools[number as usize]
    }

    /// Writes the pool of an entry, a number below `MOST_POOLS`. One touch.
    pub fn set_pool(&mut self, number: u32, pool: Option<Pool>)
        requires within { number < most_pools }
        requires below { IsPoolBelow (length self.old.cells.records) pool }
        ensures within { number < length self.old.cells.pools }
        ensures left { LeavesAfter (with_pool self.old.cells number pool) 1 self.old self.new }
    {
        self.touches.tick();
        self.pools[number as usize] = pool;
    }

    /// How many records are vacant. One touch.
    pub fn vacant(&mut self) -> u32
        ensures value { result ≡ vacant_count self.old.cells.records }
        ensures left { LeavesAfter self.old.cells 1 self.old self.new }
    {
        self.touches.tick();
        self.table.vacant()
    }

    /// Its words as they stand in memory, to be read alone. It isn't a touch.
    pub fn words(&self) -> TableWords<'_>
        ensures kept { AreStoreWords result }
        ensures cells { cells_of result ≡ self.now.cells }
    {
        self.table.words(&self.heads, self.level_word, &self.step_words, &self.pools)
    }

    /// Counts these touches too, which were made by who reads its words.
    pub fn add_touches(&mut self, more: &GhostCount)
        ensures left { LeavesAfter self.old.cells more.now.count self.old self.new }
    {
        self.touches.add(more);
    }

    /// Takes a vacant record for a free block, with no place, size or links yet; `None` exactly where
    /// no record is vacant. Which vacant record it is, is open. Two touches: the vacant mark and the
    /// record.
    pub fn take_vacant(&mut self) -> Option<Slot>
        ensures none { IfNone result (vacant_count self.old.cells.records ≡ 0) }
        ensures within { IfSome result (λ slot. slot < length self.old.cells.records) }
        ensures vacant { IfSome result (λ slot. record_at self.old.cells.records slot ≡ blank) }
        ensures left { LeavesAfter (with_taken self.old.cells result) 2 self.old self.new }
    {
        self.touches.tick();
        self.touches.tick();
        self.table.take()
    }

    /// Makes a record vacant that isn't. Three touches: the vacant mark is read and written, and the record
    /// is written.
    pub fn give_vacant(&mut self, slot: Slot)
        requires within { slot < length self.old.cells.records }
        requires used { (record_at self.old.cells.records slot).state ≢ Vacant }
        ensures left { LeavesAfter (with_record self.old.cells slot blank) 3 self.old self.new }
    {
        self.touches.tick();
        self.touches.tick();
        self.touches.tick();
        self.table.give(slot);
    }
}
