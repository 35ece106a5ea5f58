//! The keys of an index, in order, apart from its rows, by number: both in one `Vec`.

ghost use Rattle.std.specs.Prelude.{◌≡◌, ◌≢◌, ℕ, ◌+◌, ◌^◌, ◌<◌, ◌≤◌, IfOk, Some, true, false, [], take, length, slice_index_or, slice_set};
ghost use Rattle.std.specs.List.{insert, remove};
ghost use Rattle.mtrace_replay.specs.declared.heap.key.Key.{Key};
ghost use Rattle.mtrace_replay.specs.Entry.{Entry as Row};
ghost use Rattle.mtrace_replay.specs.Keys.{KeepsRows, SetsRow, HasRow, row_at, row_number};

use crate::heap::key::Key;
use crate::held::entry::Entry;
use mtrace_log::{Addr, LentLocation};
use std::alloc::{AllocError, Global};
use std::array;
use std::marker::Model;
use tlsf_heap::Ptr;

/// How many keys and rows a chunk has.
const CHUNK: usize = 64;

/// How many hints a chunk has: four for each key, so that most addresses have one of their own.
const HINTS: usize = 256;

/// Keys, as many rows, and hints: where keys have stood.
#[derive(Drop)]
struct Chunk {
    keys: [Key; CHUNK],
    hints: [u16; HINTS],
    rows: [Entry; CHUNK],
}

/// Keys, in their order, and rows, by slot, in chunks that are made as they are first used. What is held under a key
/// stands in the row that the slot of its block names: it stays there where the key moves. A heap gives its last slot first, so
/// the rows of the last slots are made first.
#[derive(Drop)]
pub(crate) struct Keys {
    chunks: Vec<Chunk>,
    len: usize,
    room: usize,
    most: usize,
    // A power of two less one: the number of the last hint that is used.
    last_hint: usize,
}

impl Model for Keys {
    ghost use Rattle.std.specs.Prelude.{take};
    ghost use Rattle.std.specs.Vec.{vec_capacity};
    ghost use Rattle.mtrace_replay.specs.Keys.{Kept, AreChunks, all_keys, all_rows};

    ghost Value = { Kept };

    ghost view = { λ k. record { keys = take k.len (all_keys k.chunks.items); rows = record { entries = all_rows k.chunks.items; room = k.room } } };

    ghost invariant = { λ k. AreChunks k.chunks.items (vec_capacity k.chunks) k.len k.room k.most };
}

/// The position next to the hole, on the way to another.
fn next_position(hole: usize, at: usize) -> usize
    requires { hole ≢ at }
    ensures up { hole < at → result ≡ hole + 1 }
    ensures down { at < hole → result + 1 ≡ hole }
{
    if hole < at { hole + 1 } else { hole - 1 }
}

/// The number of the last hint that is used by the number of chunks, and the one before, where one more doesn't double them.
fn last_hint(chunks: usize, before: usize) -> usize {
    if chunks.is_power_of_two() {
        (chunks << 8).wrapping_sub(1)
    } else {
        before
    }
}

impl Keys {
    /// Nothing, with room for this many keys and rows. It takes memory once, for all of them.
    pub(crate) fn new(alloc: Global, room: u32) -> Result<Keys, AllocError>
        ensures { IfOk result (λ keys. keys ≡ record { keys = []; rows = record { entries = []; room = room } }) }
    {
        let room = room as usize;
        Ok(Keys {
            chunks: Vec::with_capacity(alloc, room.div_ceil(CHUNK))?,
            len: 0,
            room,
            most: room,
            last_hint: 0,
        })
    }

    /// There are no keys, and room for this many keys and rows: at most as many as before. It takes no memory.
    pub(crate) fn restart(&mut self, room: u32)
        requires { room ≤ self.old.rows.room }
        ensures { self.new ≡ record { keys = []; rows = record self.old.rows { room = room } } }
    {
        self.len = 0;
        self.room = room as usize;
    }

    /// How many keys there can be.
    pub(crate) fn room(&self) -> usize
        ensures { result ≡ self.now.rows.room }
    {
        self.room
    }

    /// How many keys there are.
    pub(crate) fn len(&self) -> usize
        ensures len { result ≡ length self.now.keys }
        ensures within { result ≤ self.now.rows.room }
        ensures small { result < 2 ^ 32 }
    {
        self.len
    }

    /// The key there.
    #[inline(always)]
    pub(crate) fn key(&self, at: usize) -> Key
        requires { at < length self.now.keys }
        ensures { (default : Key) → result ≡ slice_index_or self.now.keys at default }
    {
        self.chunks[at / CHUNK].keys[at % CHUNK]
    }

    /// Another key stands there.
    #[inline(always)]
    pub(crate) fn set_key(&mut self, at: usize, key: &Key)
        requires { at < length self.old.keys }
        ensures keys { self.new.keys ≡ slice_set self.old.keys at key.now }
        ensures rows { self.new.rows ≡ self.old.rows }
    {
        self.chunks[at / CHUNK].keys[at % CHUNK] = *key;
    }

    /// The number of this slot's row.
    #[inline(always)]
    fn number(&self, slot: u16) -> usize
        requires { slot < self.now.rows.room }
        ensures number { result ≡ row_number self.now.rows slot }
        ensures below { result < self.now.rows.room }
        ensures small { result < 2 ^ 32 }
    {
        self.room - 1 - usize::from(slot)
    }

    /// The row of this slot.
    #[inline(always)]
    pub(crate) fn row(&self, slot: u16) -> &Entry
        requires { HasRow self.now.rows slot }
        ensures { (default : Row) → result.now ≡ row_at self.now.rows slot default }
    {
        let number = self.number(slot);
        &self.chunks[number / CHUNK].rows[number % CHUNK]
    }

    /// One more chunk, for which there is memory.
    #[inline(never)]
    fn add_chunk(&mut self)
        requires { length self.old.rows.entries < self.old.rows.room }
        ensures keys { self.new.keys ≡ self.old.keys }
        ensures rows { KeepsRows self.old.rows self.new.rows }
        ensures more { length self.new.rows.entries ≡ length self.old.rows.entries + 64 }
    {
        let key = Key::new(Entry::blank().addr, None);
        self.chunks.push_reserved(Chunk {
            keys: [key; CHUNK],
            hints: [0; HINTS],
            rows: array::from_fn(|_| Entry::blank()),
        });
        self.last_hint = last_hint(self.chunks.len(), self.last_hint);
    }

    /// Whether there are this many rows.
    #[inline(always)]
    fn has_rows(&self, count: usize) -> bool
        ensures has { result ≡ true → count ≤ length self.now.rows.entries }
        ensures lacks { result ≡ false → length self.now.rows.entries < count }
    {
        count.div_ceil(CHUNK) <= self.chunks.len()
    }

    /// Makes chunks until there are this many rows.
    #[inline(always)]
    fn cover(&mut self, count: usize)
        requires { count ≤ self.old.rows.room }
        ensures keys { self.new.keys ≡ self.old.keys }
        ensures rows { KeepsRows self.old.rows self.new.rows }
        ensures covered { count ≤ length self.new.rows.entries }
    {
        while !self.has_rows(count) {
            self.add_chunk();
        }
    }

    /// Takes this many keys. What the ones behind those that there were are means nothing.
    #[inline(never)]
    pub(crate) fn resize(&mut self, len: usize)
        requires { len ≤ self.old.rows.room }
        ensures len { length self.new.keys ≡ len }
        ensures first { (n : ℕ) → n ≤ len → n ≤ length self.old.keys → take n self.new.keys ≡ take n self.old.keys }
        ensures rows { KeepsRows self.old.rows self.new.rows }
    {
        self.cover(len);
        self.len = len;
    }

    /// Makes the entry the row of this slot, with its location kept.
    #[inline(always)]
    fn set_row(&mut self, slot: u16, entry: &Entry<LentLocation<'_>>)
        requires { slot < self.old.rows.room }
        ensures keys { self.new.keys ≡ self.old.keys }
        ensures rows { SetsRow slot entry.now self.old.rows self.new.rows }
    {
        let number = self.number(slot);
        self.cover(number + 1);
        self.chunks[number / CHUNK].rows[number % CHUNK].set(entry);
    }

    /// Moves the key at `gap` to `at`: the keys between move by one.
    #[inline(always)]
    fn move_gap(&mut self, gap: usize, at: usize)
        requires gap { gap < length self.old.keys }
        requires at { at < length self.old.keys }
        ensures others { remove self.new.keys at ≡ remove self.old.keys gap }
        ensures len { length self.new.keys ≡ length self.old.keys }
        ensures rows { self.new.rows ≡ self.old.rows }
    {
        let mut hole = gap;
        while hole != at {
            let next = next_position(hole, at);
            let key = self.key(next);
            self.set_key(hole, &key);
            hole = next;
        }
    }

    /// Holds the entry under the block, by a key that stands at `at` in place of the one at `gap`.
    #[inline(always)]
    pub(crate) fn put(&mut self, gap: usize, at: usize, entry: &Entry<LentLocation<'_>>, ptr: Ptr)
        requires gap { gap < length self.old.keys }
        requires at { at < length self.old.keys }
        requires slot { ptr.slot < self.old.rows.room }
        ensures keys { self.new.keys ≡ insert (remove self.old.keys gap) at (record { address = entry.now.addr; block = Some ptr }) }
        ensures len { length self.new.keys ≡ length self.old.keys }
        ensures rows { SetsRow ptr.slot entry.now self.old.rows self.new.rows }
    {
        self.set_row(ptr.slot(), entry);
        self.move_gap(gap, at);
        self.set_key(at, &Key::new(entry.addr, Some(ptr)));
    }
    /// The number of the hint of an address, by some of its digits.
    #[inline(always)]
    fn hint_number(&self, address: Addr) -> usize {
        let mixed = (address.value() >> 4).wrapping_mul(0x9E37_79B9_7F4A_7C15) >> 32;
        mixed as usize & self.last_hint
    }

    /// Where a key of the address, or another one, has stood.
    #[inline(always)]
    pub(crate) fn hint(&self, address: Addr) -> usize {
        let number = self.hint_number(address);
        if number / HINTS < self.chunks.len() {
            usize::from(self.chunks[number / HINTS].hints[number % HINTS])
        } else {
            0
        }
    }

    /// Keeps where a key of the address stands, until keys move.
    #[inline(always)]
    pub(crate) fn set_hint(&mut self, address: Addr, at: usize)
        ensures { self.new ≡ self.old }
    {
        let number = self.hint_number(address);
        if number / HINTS < self.chunks.len() {
            self.chunks[number / HINTS].hints[number % HINTS] = (at % 65_536) as u16;
        }
    }
}
