//! The table of records, and the chain of those that are vacant.

ghost use Rattle.std.specs.Prelude.{◌≡◌, ◌==◌, ◌&&◌, ◌%◌, ◌+◌, ◌<◌, ◌≤◌, ◌≢◌, true, IfOk, MatchOption, length, map, replicate, slice_set, vec_capacity, [], Some};
ghost use Rattle.std.specs.Fn.{FnOnceReturnsAtMut};
ghost use Rattle.tlsf_class.specs.Classes.{unit};
ghost use Rattle.tlsf_store.specs.declared.records.Record.{Record};
ghost use Rattle.tlsf_store.specs.declared.records.State.TheVariants.{Vacant, Free};
ghost use Rattle.tlsf_store.specs.Slots.{link_of};
ghost use Rattle.tlsf_store.specs.Table.{seen, IsTable};
ghost use Rattle.tlsf_store.specs.Words.{cells_of};
ghost use Rattle.tlsf_store.specs.Records.{most_records, blank, blank_in, record_at, vacant_count, is_live_state, IsKept};

use super::packed::PackedRecord;
use super::slots::MISSING;
use super::store::{HEADS, STEP_WORDS};
use super::words::TableWords;
use super::{MOST_POOLS, Pool, Record, Slot, State};
use std::alloc::{AllocError, Global};
use std::marker::Model;

/// All the records of a store, packed. A vacant one keeps the next vacant one as its link `next`; the
/// first is kept as the word of a link. It has room for as many records as it was made with.
#[derive(Drop)]
pub(crate) struct Table {
    items: Vec<PackedRecord>,
    first: u16,
    room: u16,
    vacant: u32,
}

/// Fills memory with `count` vacant records, and answers the word of the first of their chain.
fn fill(items: &mut Vec<PackedRecord>, count: u32) -> u16
    requires few { count ≤ most_records }
    requires empty { items.old.items ≡ [] }
    requires room { count ≤ vec_capacity items.old }
    ensures table { IsTable items.new.items (link_of result) count }
    ensures blank { map seen items.new.items ≡ replicate count blank }
    ensures capacity { vec_capacity items.new ≡ vec_capacity items.old }
{
    let mut first = MISSING;
    for number in 0..count {
        items.push_reserved(PackedRecord::vacant(first));
        first = number as u16;
    }
    first
}

impl Model for Table {
    ghost use Rattle.std.specs.Prelude.{List, map, vec_capacity};
    ghost use Rattle.tlsf_store.specs.declared.records.Record.{Record};
    ghost use Rattle.tlsf_store.specs.Slots.{link_of};
    ghost use Rattle.tlsf_store.specs.Table.{seen, IsStored};

    ghost Value = { List Record };

    ghost view = { λ t. map seen t.items.items };

    ghost invariant = { λ t. IsStored (vec_capacity t.items) t.room t.items.items (link_of t.first) t.vacant };
}

impl Table {
    /// A table of `count` vacant records. It takes memory once.
    pub(crate) fn new(alloc: Global, count: u32) -> Result<Table, AllocError>
        requires { count ≤ most_records }
        ensures { IfOk result (λ t. t ≡ replicate count blank) }
    {
        let mut items = Vec::with_capacity(alloc, count as usize)?;
        let first = fill(&mut items, count);
        Ok(Table {
            items,
            first,
            vacant: count,
            room: count as u16,
        })
    }

    /// The table is one of `count` vacant records, in the memory that it has: at most as many as there are.
    pub(crate) fn restart(&mut self, count: u32)
        requires { count ≤ length self.old }
        ensures { self.new ≡ replicate count blank }
    {
        self.items.clear();
        self.first = fill(&mut self.items, count);
        self.vacant = count;
    }

    /// How many records there are.
    pub(crate) fn len(&self) -> u32
        ensures value { result ≡ length self.now }
        ensures few { result ≤ most_records }
    {
        self.items.len() as u32
    }

    /// The record of a slot, and blank where it is vacant.
    pub(crate) fn read(&self, slot: Slot) -> Record
        requires { slot < length self.now }
        ensures value { result ≡ record_at self.now slot }
        ensures kept { IsKept (length self.now) result }
        ensures vacant { result.state ≡ Vacant → result ≡ blank }
    {
        self.items[slot.index()].unpack()
    }

    /// The record of a slot that isn't vacant.
    pub(crate) fn read_used(&self, slot: Slot) -> Record
        requires within { slot < length self.now }
        requires used { (record_at self.now slot).state ≢ Vacant }
        ensures value { result ≡ record_at self.now slot }
        ensures kept { IsKept (length self.now) result }
    {
        self.items[slot.index()].unpack_used()
    }

    /// Whether the record of a slot is of a live block of this place and size, a multiple of the unit.
    pub(crate) fn is_live(&self, slot: Slot, place: u32, size: u64) -> bool
        requires within { slot < length self.now }
        requires in_units { size % unit ≡ 0 }
        ensures { result ≡ (is_live_state (record_at self.now slot).state && (((record_at self.now slot).place == place) && ((record_at self.now slot).size == size))) }
    {
        self.items[slot.index()].is_live(place, size)
    }

    /// Changes a record that isn't vacant to one that isn't.
    #[inline(always)]
    pub(crate) fn edit<F: FnOnce(&mut PackedRecord)>(&mut self, slot: Slot, change: F)
        requires callable { F.IsAlwaysCallable change }
        requires within { slot < length self.old }
        requires used { (record_at self.old slot).state ≢ Vacant }
        requires kept { (new : Record) → FnOnceReturnsAtMut F.FnOnce change (record_at self.old slot) tt new
            → IsKept (length self.old) (record_at self.old slot) → (new.state ≢ Vacant) × IsKept (length self.old) new }
        ensures { (new : Record) × FnOnceReturnsAtMut F.FnOnce change (record_at self.old slot) tt new × (self.new ≡ slice_set self.old slot new) }
    {
        change(&mut self.items[slot.index()]);
    }

    /// How many records are vacant.
    pub(crate) fn vacant(&self) -> u32
        ensures { result ≡ vacant_count self.now }
    {
        self.vacant
    }

    /// Its words, with those that stand beside it in a store.
    pub(crate) fn words<'a>(
        &'a self,
        heads: &'a [u16; HEADS],
        level_word: u32,
        step_words: &'a [u32; STEP_WORDS],
        pools: &'a [Option<Pool>; MOST_POOLS],
    ) -> TableWords<'a>
        ensures table { IsTable result.records result.first_vacant result.vacant }
        ensures cells { cells_of result ≡ record { records = self.now; heads = map link_of heads.now; level_word = level_word; step_words = step_words.now; pools = pools.now } }
    {
        TableWords::new(
            &self.items,
            self.first,
            self.vacant,
            heads,
            level_word,
            step_words,
            pools,
        )
    }

    /// Takes a vacant record, if there is one, for a block to come: free, with no place, size or links.
    pub(crate) fn take(&mut self) -> Option<Slot>
        ensures { MatchOption result
            ((vacant_count self.old ≡ 0) × (self.new ≡ self.old))
            (λ slot. (slot < length self.old) × (record_at self.old slot ≡ blank)
            × (self.new ≡ slice_set self.old slot (blank_in Free))) }
    {
        let slot = self.first;
        if slot == MISSING {
            return None;
        }
        let index = usize::from(slot);
        self.first = self.items[index].next_word();
        self.items[index] = PackedRecord::pack(Record::blank(State::Free));
        self.vacant -= 1;
        Some(Slot(slot))
    }

    /// Makes a record vacant that isn't.
    pub(crate) fn give(&mut self, slot: Slot)
        requires within { slot < length self.old }
        requires used { (record_at self.old slot).state ≢ Vacant }
        ensures { self.new ≡ slice_set self.old slot blank }
    {
        self.items[slot.index()] = PackedRecord::vacant(self.first);
        self.first = slot.0;
        self.vacant += 1;
    }
}
