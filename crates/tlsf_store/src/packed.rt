//! A record as the table keeps it, in sixteen bytes.

ghost use Rattle.std.specs.Prelude.{◌≡◌, ◌≢◌, ◌%◌, ◌==◌, ◌&&◌, ◌↔◌, IsTrue, None};
ghost use Rattle.tlsf_class.specs.Classes.{unit};
ghost use Rattle.tlsf_store.specs.declared.records.State.TheVariants.{Vacant, Free};
ghost use Rattle.tlsf_store.specs.Records.{most_records, blank, is_vacant, is_live_state, IsBelow, IsKept};
ghost use Rattle.tlsf_store.specs.Slots.{link_of};
ghost use Rattle.tlsf_store.specs.Table.{seen};

use super::slots::{MISSING, is_below, link_of, link_word};
use super::{Record, Slot, State};
use std::marker::Model;
use tlsf_class::UNIT;

/// A record in sixteen bytes. The size word is the size plus the code of the state. The size is a multiple of the
/// unit; the code is 0 for vacant, 1 for free, 2 for live. Words may also stand in memory that are none of these.
#[derive(Drop)]
pub struct PackedRecord {
    place: u32,
    size_word: u32,
    prev: u16,
    next: u16,
    prev_free: u16,
    next_free: u16,
}

const _: () = prove!(size_of::<PackedRecord>() == 16);

impl Model for PackedRecord {
    ghost use Rattle.tlsf_store.specs.declared.records.Record.{Record};

    ghost Value = { Record };

    ghost use Rattle.tlsf_store.specs.Packed.{unpacked};

    ghost view = { unpacked };
}

impl PackedRecord {
    ghost use Rattle.tlsf_store.specs.Packed.{record_of};

    /// The record of these words, whatever they are.
    pub fn of_words(
        place: u32,
        size_word: u32,
        prev: u16,
        next: u16,
        prev_free: u16,
        next_free: u16,
    ) -> PackedRecord
        ensures { result ≡ record_of place size_word prev next prev_free next_free }
    {
        PackedRecord {
            place,
            size_word,
            prev,
            next,
            prev_free,
            next_free,
        }
    }

    /// Packs a record whose size is a multiple of the unit, and whose links are slots of a table.
    pub(crate) fn pack(value: Record) -> PackedRecord
        requires { IsKept most_records value }
        ensures { result ≡ value }
    {
        PackedRecord {
            place: value.place,
            size_word: value.size + value.state as u32,
            prev: link_word(value.prev),
            next: link_word(value.next),
            prev_free: link_word(value.prev_free),
            next_free: link_word(value.next_free),
        }
    }

    /// The record that was packed, where it isn't vacant.
    pub(crate) fn unpack_used(&self) -> Record
        requires { self.now.state ≢ Vacant }
        ensures { result ≡ self.now }
    {
        let code = self.size_word % UNIT;
        Record {
            place: self.place,
            size: self.size_word - code,
            state: if code < 2 { State::Free } else { State::Live },
            prev: link_of(self.prev),
            next: link_of(self.next),
            prev_free: link_of(self.prev_free),
            next_free: link_of(self.next_free),
        }
    }

    /// The record as callers see it: a vacant one holds nothing, whatever links it to the next. Where memory was spoiled a record
    /// may have another code, and is read as vacant.
    pub(crate) fn unpack(&self) -> Record
        ensures { result ≡ seen self.now }
    {
        let code = self.size_word % UNIT;
        if code == 0 || code > 2 {
            return Record::blank(State::Vacant);
        }
        self.unpack_used()
    }

    /// A vacant record, with the word of the link to the next vacant one.
    pub(crate) fn vacant(next: u16) -> PackedRecord
        ensures { result ≡ record blank { next = link_of next } }
    {
        PackedRecord {
            place: 0,
            size_word: 0,
            prev: MISSING,
            next,
            prev_free: MISSING,
            next_free: MISSING,
        }
    }

    /// Whether the record is of no block.
    pub(crate) fn is_vacant(&self) -> bool
        ensures { result ≡ is_vacant self.now.state }
    {
        let code = self.size_word % UNIT;
        code == 0 || code > 2
    }

    /// Whether a table of `count` records keeps it. The code of its state is one of three, its place is a multiple of the
    /// unit, and each link is none or a slot below the count.
    pub(crate) fn is_kept(&self, count: usize) -> bool
        ensures { IsTrue result ↔ IsKept count self.now }
    {
        self.place % UNIT == 0
            && self.size_word % UNIT < 3
            && is_below(self.prev, count)
            && is_below(self.next, count)
            && is_below(self.prev_free, count)
            && is_below(self.next_free, count)
    }

    /// The word of the record's link `next`.
    pub(crate) fn next_word(&self) -> u16
        ensures { link_of result ≡ self.now.next }
    {
        self.next
    }

    /// Whether the record is of a live block of this place and size, a multiple of the unit.
    pub(crate) fn is_live(&self, place: u32, size: u64) -> bool
        requires { size % unit ≡ 0 }
        ensures { result ≡ (is_live_state self.now.state && ((self.now.place == place) && (self.now.size == size))) }
    {
        u64::from(self.size_word) == size + 2 && self.place == place
    }

    /// Writes the size, a multiple of the unit, and the state alone.
    pub(crate) fn set_state(&mut self, size: u32, state: State)
        requires { size % unit ≡ 0 }
        ensures { self.new ≡ record self.old { size = size; state = state } }
    {
        self.size_word = size + state as u32;
    }

    /// Writes the size, a multiple of the unit, the state and the link `next` alone.
    pub(crate) fn set_block(&mut self, size: u32, state: State, next: Option<Slot>)
        requires in_units { size % unit ≡ 0 }
        requires below { IsBelow most_records next }
        ensures { self.new ≡ record self.old { size = size; state = state; next = next } }
    {
        self.set_state(size, state);
        self.next = link_word(next);
    }

    /// Writes the size, a multiple of the unit, the state `Free`, and that none is in front of it in its class's list, and
    /// this one behind it.
    pub(crate) fn set_free(&mut self, size: u32, next: Option<Slot>)
        requires in_units { size % unit ≡ 0 }
        requires below { IsBelow most_records next }
        ensures { self.new ≡ record self.old { size = size; state = Free; prev_free = None; next_free = next } }
    {
        self.size_word = size + State::Free as u32;
        self.prev_free = MISSING;
        self.next_free = link_word(next);
    }

    /// Writes the link `prev` alone.
    pub(crate) fn set_prev(&mut self, prev: Option<Slot>)
        requires { IsBelow most_records prev }
        ensures { self.new ≡ record self.old { prev = prev } }
    {
        self.prev = link_word(prev);
    }

    /// Writes the link `prev_free` alone.
    pub(crate) fn set_prev_free(&mut self, prev: Option<Slot>)
        requires { IsBelow most_records prev }
        ensures { self.new ≡ record self.old { prev_free = prev } }
    {
        self.prev_free = link_word(prev);
    }

    /// Writes the link `next_free` alone.
    pub(crate) fn set_next_free(&mut self, next: Option<Slot>)
        requires { IsBelow most_records next }
        ensures { self.new ≡ record self.old { next_free = next } }
    {
        self.next_free = link_word(next);
    }
}
