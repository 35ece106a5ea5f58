//! What is held, by address.

ghost use Rattle.std.specs.Prelude.{◌≡◌, ◌≢◌, ℕ, ◌+◌, ◌<◌, ◌≤◌, ◌^◌, option_map, option_to_list, [], length, map, None, Some, IfOk, if◌then◌else◌, ◌==◌, is_some, true};
ghost use Rattle.mtrace_replay.specs.Key.{holding_of, IsRow};
ghost use Rattle.mtrace_replay.specs.Index.{held_at, held_bytes, AreInOrder, LooksUp, FindsAddress, TellsWhether, Counts, IsFound, IsNewSlot};

use crate::heap::arrange::{Came, arrange};
use crate::heap::key::Key;
use crate::heap::keys::Keys;
use crate::heap::search::{Gap, is_last_of, make_gap, search};
use crate::held::entry::Entry;
use mtrace_log::{Addr, LentLocation};
use std::alloc::{AllocError, Global};
use std::marker::Model;
use tlsf_heap::Ptr;
use tlsf_store::GhostCount;

/// What a look-up answers: where an address stands among the keys of an index. That is at its own, held or vacant, or
/// where that would enter. It tells so until the index is changed.
#[derive(Clone, Copy)]
pub(crate) struct LookUp {
    address: Addr,
    position: Result<usize, usize>,
}

/// What is held, in order of address. The key of an address that is held no more stays vacant, for the same address
/// or for one near it. So an address that comes again moves nothing. Where much has moved for new addresses, or a new
/// one above all others finds most keys vacant, the keys are arranged anew.
#[derive(Drop)]
pub(crate) struct Index {
    keys: Keys,
    blocks: u64,
    bytes: u64,
    came: Came,
    comparisons: GhostCount,
}

impl Model for Index {
    ghost use Rattle.mtrace_replay.specs.Key.{all_held};
    ghost use Rattle.mtrace_replay.specs.Index.{Indexed, IsIndex};

    ghost Value = { Indexed };

    ghost view = { λ index. record { all = all_held index.keys.rows index.keys.keys; keys = index.keys.keys; room = index.keys.rows.room; comparisons = index.comparisons.count } };

    ghost invariant = { λ index. IsIndex index.keys index.blocks index.bytes };
}

/// How many bytes were asked for what is held under the key.
#[inline(always)]
fn size_of(keys: &Keys, key: &Key) -> u64
    requires { IsRow keys.now.rows key.now.address key.now.block }
    ensures { result ≡ held_bytes (option_to_list (holding_of keys.now.rows key.now)) }
{
    match key.block() {
        Some(ptr) => keys.row(ptr.slot()).size,
        None => 0,
    }
}

impl Index {
    /// Nothing, with room for this many addresses. It takes memory once, for all of them.
    ///
    /// # Errors
    ///
    /// `AllocError` where memory is refused.
    pub fn new(alloc: Global, room: u32) -> Result<Index, AllocError>
        ensures { IfOk result (λ index. index ≡ record { all = []; keys = []; room = room; comparisons = 0 }) }
    {
        Ok(Index {
            keys: Keys::new(alloc, room)?,
            blocks: 0,
            bytes: 0,
            came: Came::default(),
            comparisons: GhostCount::new(),
        })
    }

    /// Nothing is held, with room for this many addresses: at most as many as before. It takes no memory.
    pub fn restart(&mut self, room: u32)
        requires { room ≤ self.old.room }
        ensures { self.new ≡ record { all = []; keys = []; room = room; comparisons = self.old.comparisons } }
    {
        self.keys.restart(room);
        self.blocks = 0;
        self.bytes = 0;
        self.came = Came::default();
    }

    /// Where the address stands. That is where a key of it stood last, if it still does, or else as `find` says.
    #[inline(always)]
    pub fn find_again(&mut self, address: Addr) -> LookUp
        ensures { FindsAddress 2 address result self.old self.new }
    {
        let at = self.keys.hint(address);
        if is_last_of(&self.keys, &mut self.comparisons, at, address) {
            return LookUp {
                address,
                position: Ok(at),
            };
        }
        self.find(address)
    }

    /// Where the address stands: the one look-up, for what is read and changed there.
    pub fn find(&mut self, address: Addr) -> LookUp
        ensures { FindsAddress 1 address result self.old self.new }
    {
        let position = search(&self.keys, &mut self.comparisons, address);
        if let Ok(at) = position {
            self.keys.set_hint(address, at);
        }
        LookUp { address, position }
    }

    /// The block that the address which was found is held under.
    pub fn block(&self, found: &LookUp) -> Option<Ptr>
        requires found { IsFound self.now.keys found.now }
        ensures value { result ≡ option_map (λ holding. holding.ptr) (held_at self.now.all found.now.address) }
    {
        match found.position {
            Ok(at) => self.keys.key(at).block(),
            Err(_) => None,
        }
    }

    /// Whether the address that was found is held.
    pub fn is_held(&self, found: &LookUp) -> bool
        requires found { IsFound self.now.keys found.now }
        ensures value { result ≡ is_some (held_at self.now.all found.now.address) }
    {
        self.block(found).is_some()
    }

    /// Whether the address is held.
    pub fn contains(&mut self, address: Addr) -> bool
        ensures { TellsWhether 1 (is_some (held_at self.old.all address)) result self.old self.new }
    {
        let found = self.find(address);
        self.is_held(&found)
    }

    /// Where a new key entered between the others, it gets a hint. The keys are arranged anew where much has moved,
    /// or where room at the end is to be made anew. That is where a new address there moved more than a 64th of the keys,
    /// or three quarters of the keys and 65 more are vacant. So where addresses rise, the keys stay few, and a search
    /// stays among those that it looked at before.
    fn settle(&mut self, found: &LookUp, end: usize, gap: &Gap)
        ensures unchanged { self.new.all ≡ self.old.all }
        ensures looked { LooksUp 0 self.old self.new }
    {
        let Err(at) = found.position else {
            return;
        };
        self.keys.set_hint(found.address, gap.to);
        let moved = gap.from.abs_diff(gap.to);
        self.came.add(at == end, moved);
        let keys = self.keys.len();
        let is_spent = moved > keys / 64 || keys as u64 / 4 > self.blocks.saturating_add(64);
        if self.came.moved() > keys || at == end && is_spent {
            arrange(&mut self.keys, &self.came);
            self.came = Came::default();
        }
    }

    /// Holds the address that was found, which isn't held, for an entry, under this block. No other address is held under a
    /// block of this slot.
    #[inline(always)]
    pub fn insert(&mut self, found: &LookUp, entry: &Entry<LentLocation<'_>>, ptr: Ptr)
        requires found { IsFound self.old.keys found.now }
        requires address { found.now.address ≡ entry.now.addr }
        requires free { held_at self.old.all entry.now.addr ≡ None }
        requires bytes { held_bytes self.old.all + entry.now.size < 2 ^ 64 }
        requires room { length self.old.all < self.old.room }
        requires slot { ptr.slot < self.old.room }
        requires new { IsNewSlot ptr.slot entry.now.addr self.old.all }
        ensures held { (address : ℕ) → held_at self.new.all address
            ≡ (if entry.now.addr == address then Some (record { entry = entry.now; ptr = ptr }) else held_at self.old.all address) }
        ensures looked { LooksUp 0 self.old self.new }
    {
        let end = self.keys.len();
        let gap = make_gap(&mut self.keys, found.position);
        self.blocks += 1;
        self.bytes += entry.size;
        self.keys.put(gap.from, gap.to, entry, ptr);
        self.settle(found, end, &gap);
    }

    /// Holds an address in place of the old one that was found, which may be the same. No other address is held under a
    /// block of this slot.
    pub fn replace(&mut self, old: &LookUp, entry: &Entry<LentLocation<'_>>, ptr: Ptr)
        requires found { IsFound self.old.keys old.now }
        requires bytes { held_bytes self.old.all + entry.now.size < 2 ^ 64 }
        requires held { is_some (held_at self.old.all old.now.address) ≡ true }
        requires free { old.now.address ≢ entry.now.addr → held_at self.old.all entry.now.addr ≡ None }
        requires room { length self.old.all ≤ self.old.room }
        requires slot { ptr.slot < self.old.room }
        requires new { IsNewSlot ptr.slot old.now.address self.old.all }
        ensures held { (address : ℕ) → held_at self.new.all address
            ≡ (if entry.now.addr == address then Some (record { entry = entry.now; ptr = ptr }) else (if old.now.address == address then None else held_at self.old.all address)) }
        ensures looked { LooksUp 1 self.old self.new }
    {
        self.remove(old);
        let found = self.find(entry.addr);
        self.insert(&found, entry, ptr);
    }

    /// Holds the address that was found no more: its key stays, vacant.
    #[inline(always)]
    pub fn remove(&mut self, found: &LookUp)
        requires found { IsFound self.old.keys found.now }
        ensures held { (other : ℕ) → held_at self.new.all other ≡ (if found.now.address == other then None else held_at self.old.all other) }
        ensures fewer { is_some (held_at self.old.all found.now.address) ≡ true → length self.new.all < length self.old.all }
        ensures bytes { held_bytes self.new.all ≤ held_bytes self.old.all }
        ensures looked { LooksUp 0 self.old self.new }
    {
        if let Ok(at) = found.position {
            let key = self.keys.key(at);
            self.blocks -= u64::from(!key.is_vacant());
            self.bytes -= size_of(&self.keys, &key);
            self.keys.set_key(at, &key.vacated());
        }
    }

    /// How many addresses are held.
    pub fn len(&self) -> u64
        ensures { Counts (length self.now.all) result }
    {
        self.blocks
    }

    /// The sum of the sizes held, in bytes.
    pub fn bytes(&self) -> u64
        ensures { result ≡ held_bytes self.now.all }
    {
        self.bytes
    }

    /// The entries, in order of address.
    pub fn entries(&self) -> Entries<'_>
        ensures entries { result ≡ map (λ holding. holding.entry) self.now.all }
    {
        Entries {
            keys: &self.keys,
            at: 0,
        }
    }

    /// Says what each index keeps, and does nothing: the addresses rise.
    pub fn keeps_order(&self)
        ensures { AreInOrder self.now.all }
    {
        let _ = &self.keys;
    }
}

/// Entries in order of address, as an iterator.
#[derive(Drop)]
pub struct Entries<'a> {
    keys: &'a Keys,
    at: usize,
}

impl<'a> Model for Entries<'a> {
    ghost use Rattle.std.specs.Prelude.{List, drop, map};
    ghost use Rattle.mtrace_replay.specs.Entry.{Entry};
    ghost use Rattle.mtrace_replay.specs.Key.{all_held, HaveRows};

    ghost Value = { List Entry };

    ghost view = { λ entries. map (λ holding. holding.entry) (all_held entries.keys.now.rows (drop entries.at entries.keys.now.keys)) };

    ghost invariant = { λ entries. HaveRows entries.keys.now.rows entries.keys.now.keys };
}

impl<'a> Iterator for Entries<'a> {
    ghost use Rattle.std.specs.Iterator.{YieldsFirstRef, item_count};

    type Item = &'a Entry;

    ghost next_gives = { YieldsFirstRef (λ entries. entries) };

    ghost remaining = { item_count (λ entries. entries) };

    fn next(&mut self) -> Option<&'a Entry> {
        let keys = self.keys;
        while self.at < keys.len() {
            let key = keys.key(self.at);
            self.at += 1;
            if let Some(ptr) = key.block() {
                return Some(keys.row(ptr.slot()));
            }
        }
        None
    }
}
