//! What is held, by address.

ghost use Rattle.std.specs.Prelude.{◌≡◌, ◌<◌, ◌+◌, MatchBool, ◌^◌, ℕ, List, [], None, Some, IfOk, IfSome, OnOk, OnErr, is_some, length, if◌then◌else◌, ◌==◌};
ghost use Rattle.std.specs.Prelude.{map};
ghost use Rattle.std.specs.List.Sorted.{IsStrictlyIncreasing, IsPermutation, IsSorted};
ghost use Rattle.std.specs.Ordering.{nat_cmp};
ghost use Rattle.std.specs.HashMap.{keys};
ghost use Rattle.std.specs.Option.{option_copied, option_map};
ghost use Rattle.mtrace_replay.specs.Texts.{total_size};
ghost use Rattle.mtrace_replay.specs.Entry.{Entry};
ghost use Rattle.mtrace_replay.specs.Calls.{no_calls, is_next, CountsMore, CountsReleased};
ghost use Rattle.mtrace_replay.specs.Callers.{AreCounted, AreCallers};
ghost use Rattle.mtrace_replay.specs.Shares.{count_at, CountsOne, KeepsAmounts};
ghost use Rattle.mtrace_replay.specs.Sites.{AreTallied, AreSites};
ghost use Rattle.mtrace_replay.specs.Changes.{AreChanges};
ghost use Rattle.mtrace_replay.specs.Ledger.{entry_under, slot_of, IsCounted, Forgets, KeepsPeak, AreEntries};

use super::gathered::{gather_callers, gather_changes, gather_sites};
use super::locations::Locations;
use super::shares::{Shares, When};
use crate::held::caller::{Caller, sort_callers};
use crate::held::count::Count;
use crate::held::site::{Site, sort_sites};
use mtrace_log::Addr;
use std::alloc::{AllocError, Global};
use std::collections::HashMap;
use std::hash::RandomState;
use std::marker::Model;

/// What is kept of an address that is held.
#[derive(Clone, Copy)]
pub(crate) struct Kept {
    size: u64,
    line: u64,
    location: Option<u32>,
}

/// The slot of the location of this number: 0 where there is no location.
fn slot_of(location: Option<u32>) -> usize
    ensures { result ≡ slot_of location }
{
    match location {
        None => 0,
        Some(number) => number as usize + 1,
    }
}

/// What an address is held under: its size, the number of its line, and the location of that.
#[derive(Drop)]
pub struct Seen<'a> {
    /// How many bytes were asked for.
    pub size: u64,
    /// The number of the line that asked.
    pub line: u64,
    /// The location of that line.
    pub at: Option<&'a [u8]>,
}

/// What is held, by address.
#[derive(Drop)]
pub struct Ledger {
    locations: Locations,
    shares: Shares,
    held: HashMap<u64, Kept, RandomState>,
    bytes: u128,
}

impl Model for Ledger {
    ghost use Rattle.std.specs.Prelude.{map, length};
    ghost use Rattle.std.specs.Map.{values_of};
    ghost use Rattle.mtrace_replay.specs.Shares.{marked_at, count_at, sites_of, callers_of};
    ghost use Rattle.mtrace_replay.specs.Ledger.{LedgerState, in_order, entry_of, IsLedger, AreShared, AreCalled};

    ghost Value = { LedgerState };

    ghost view = { λ l. record {
      all = in_order (map (entry_of l.locations) l.held.entries);
      at_peak = sites_of (marked_at l.shares) l.locations;
      mark = l.shares.mark;
      called = record { callers = callers_of (count_at l.shares) l.locations; total = l.shares.total };
    } };

    ghost invariant = { λ l. IsLedger l.locations l.held.entries l.bytes × AreShared l.locations l.shares (values_of l.held.entries)
        × AreCalled l.locations l.shares (length l.held.entries) };
}

/// The keys of a map, in order.
fn sorted_keys(
    alloc: Global,
    held: &HashMap<u64, Kept, RandomState>,
) -> Result<Vec<u64>, AllocError>
    ensures moved { IfOk result (λ all. IsPermutation (keys held.now) all.items) }
    ensures sorted { IfOk result (λ all. IsSorted nat_cmp all.items) }
{
    let mut all = Vec::with_capacity(alloc, held.len())?;
    for address in held.keys() {
        all.push(*address)?;
    }
    all.sort_unstable();
    Ok(all)
}

/// What is kept no more is no more in the share of its location, nor in the sum of bytes.
fn forget(shares: &mut Shares, bytes: &mut u128, before: Option<Kept>)
    requires counted { IfSome before (λ kept. IsCounted kept shares.old bytes.old) }
    ensures { Forgets before shares.old shares.new bytes.old bytes.new }
{
    let Some(kept) = before else {
        return;
    };
    shares.take(slot_of(kept.location), kept.size);
    *bytes -= u128::from(kept.size);
}

/// Whether a line is told, and is the one behind this.
fn is_next(line: u64, next: Option<u64>) -> bool
    ensures { result ≡ is_next line next }
{
    match next {
        Some(next) => next > line && next - line == 1,
        None => false,
    }
}

/// A call of the location of this slot is temporary, where it is so.
fn count_temporary(shares: &mut Shares, slot: usize, is_temporary: bool)
    requires slot { slot < length shares.old.all }
    requires some { (count_at shares.old slot).temporary < (count_at shares.old slot).calls }
    requires few { shares.old.total.temporary < shares.old.total.calls }
    ensures amounts { KeepsAmounts shares.old shares.new }
    ensures count { MatchBool is_temporary (CountsOne slot shares.old shares.new) (shares.new ≡ shares.old) }
{
    if is_temporary {
        shares.add_temporary(slot);
    }
}

impl Ledger {
    /// Nothing is held.
    pub fn new(alloc: Global, seed: RandomState) -> Ledger
        ensures { result ≡ record { all = []; at_peak = []; mark = 0; called = record { callers = []; total = no_calls } } }
    {
        Ledger {
            locations: Locations::new(alloc, seed),
            shares: Shares::new(alloc),
            held: HashMap::with_hasher(alloc, seed),
            bytes: 0,
        }
    }

    /// Whether the address is held.
    pub fn is_held(&self, address: Addr) -> bool
        ensures { result ≡ is_some (entry_under self.now.all address) }
    {
        self.held.contains_key(&address.value())
    }

    /// Holds an address for the line of this number, in place of what it was held under.
    ///
    /// # Errors
    ///
    /// `AllocError` where memory is refused: then what is held stays.
    pub fn hold(
        &mut self,
        address: Addr,
        size: u64,
        line: u64,
        at: Option<&[u8]>,
    ) -> Result<(), AllocError>
        requires few { self.old.called.total.calls + 1 < 2 ^ 64 }
        ensures held { OnOk result ((other : ℕ) → entry_under self.new.all other
            ≡ (if address == other then Some (record { addr = address; size = size; line = line; at = option_copied at.entry }) else entry_under self.old.all other)) }
        ensures peak { OnOk result (KeepsPeak self.old self.new) }
        ensures called { OnOk result (CountsMore (option_copied at.entry) 1 size 0 self.old.called self.new.called) }
        ensures unchanged { OnErr result (self.new ≡ self.old) }
    {
        let location = self.locations.number_at(at)?;
        let slot = slot_of(location);
        self.shares.cover(slot)?;
        let _few = self.held.len();
        let kept = Kept {
            size,
            line,
            location,
        };
        let before = self.held.insert(address.value(), kept)?;
        forget(&mut self.shares, &mut self.bytes, before);
        self.shares.add(slot, size);
        self.bytes += u128::from(size);
        Ok(())
    }

    /// Holds the address no more. Where a line releases it, of this number, and the line before it made the call, that is temporary.
    /// Answers whether the address was held.
    pub fn release(&mut self, address: Addr, line: Option<u64>) -> bool
        ensures was { result ≡ is_some (entry_under self.old.all address) }
        ensures held { (other : ℕ) → entry_under self.new.all other ≡ (if address == other then None else entry_under self.old.all other) }
        ensures peak { KeepsPeak self.old self.new }
        ensures called { CountsReleased line (entry_under self.old.all address) self.old.called self.new.called }
    {
        let Some(held) = self.held.remove(&address.value()) else {
            return false;
        };
        let slot = slot_of(held.location);
        self.shares.take(slot, held.size);
        self.bytes -= u128::from(held.size);
        count_temporary(&mut self.shares, slot, is_next(held.line, line));
        true
    }

    /// Holds an address in place of an old one, which may be the same.
    ///
    /// # Errors
    ///
    /// `AllocError` where memory is refused: then what is held stays.
    pub fn replace(
        &mut self,
        old: Addr,
        address: Addr,
        size: u64,
        line: u64,
        at: Option<&[u8]>,
    ) -> Result<(), AllocError>
        requires few { self.old.called.total.calls + 1 < 2 ^ 64 }
        ensures held { OnOk result ((other : ℕ) → entry_under self.new.all other
            ≡ (if address == other then Some (record { addr = address; size = size; line = line; at = option_copied at.entry })
            else (if old == other then None else entry_under self.old.all other))) }
        ensures peak { OnOk result (KeepsPeak self.old self.new) }
        ensures called { OnOk result (CountsMore (option_copied at.entry) 1 size 0 self.old.called self.new.called) }
        ensures unchanged { OnErr result (self.new ≡ self.old) }
    {
        self.hold(address, size, line, at)?;
        if old != address {
            self.release(old, None);
        }
        Ok(())
    }

    /// Keeps, from the line of this number on, what each location holds now.
    pub fn set_mark(&mut self, line: u64)
        requires later { self.old.mark < line }
        ensures all { self.new.all ≡ self.old.all }
        ensures at_peak { AreTallied self.old.all self.new.at_peak }
        ensures mark { self.new.mark ≡ line }
        ensures called { self.new.called ≡ self.old.called }
    {
        self.locations.keep_apart();
        self.shares.set_mark(line);
    }

    /// The sites of what is held, or of what was held at the mark, in their order.
    ///
    /// # Errors
    ///
    /// `AllocError` where memory is refused for them.
    pub fn sites(&self, alloc: Global, when: When) -> Result<Vec<Site<'_>>, AllocError>
        ensures { IfOk result (λ sites. (entries : List Entry) → AreEntries when entries self.now → AreSites entries sites.items) }
    {
        self.locations.keep_apart();
        let mut sites = gather_sites(alloc, &self.locations, &self.shares, when)?;
        sort_sites(&mut sites);
        Ok(sites)
    }

    /// The sites that have changed since the mark, each with what it holds now, in their order.
    ///
    /// # Errors
    ///
    /// `AllocError` where memory is refused for them.
    pub fn changes(&self, alloc: Global) -> Result<Vec<Site<'_>>, AllocError>
        ensures { IfOk result (λ sites. (before : List Entry) → AreTallied before self.now.at_peak → AreChanges before self.now.all sites.items) }
    {
        self.locations.keep_apart();
        let mut sites = gather_changes(alloc, &self.locations, &self.shares)?;
        sort_sites(&mut sites);
        Ok(sites)
    }

    /// The callers so far, in their order.
    ///
    /// # Errors
    ///
    /// `AllocError` where memory is refused for them.
    pub fn callers(&self, alloc: Global) -> Result<Vec<Caller<'_>>, AllocError>
        ensures { IfOk result (λ callers. (calls temporary : List Entry) → AreCounted calls temporary self.now.called → AreCallers calls temporary callers.items) }
    {
        self.locations.keep_apart();
        let mut callers = gather_callers(alloc, &self.locations, &self.shares)?;
        sort_callers(&mut callers);
        Ok(callers)
    }

    /// All calls so far together.
    pub fn total(&self) -> Count
        ensures { result ≡ self.now.called.total }
    {
        self.shares.total()
    }

    /// Says what each ledger keeps, and does nothing: the addresses rise.
    pub fn keeps_order(&self)
        ensures { IsStrictlyIncreasing (map (λ entry. entry.addr) self.now.all) }
    {
        let _ = &self.held;
    }

    /// How many addresses are held.
    pub fn len(&self) -> usize
        ensures { result ≡ length self.now.all }
    {
        self.held.len()
    }

    /// The sum of the sizes held, in bytes.
    pub fn bytes(&self) -> u128
        ensures { result ≡ total_size self.now.all }
    {
        self.bytes
    }

    /// The addresses that are held, in order.
    ///
    /// # Errors
    ///
    /// `AllocError` where memory is refused for them.
    pub fn addresses(&self, alloc: Global) -> Result<Vec<u64>, AllocError>
        ensures { IfOk result (λ addresses. addresses.items ≡ map (λ entry. entry.addr) self.now.all) }
    {
        let all = sorted_keys(alloc, &self.held)?;
        Ok(all)
    }

    /// What is held under an address.
    pub fn entry(&self, address: u64) -> Option<Seen<'_>>
        ensures { option_map (λ seen. record { addr = address; size = seen.size; line = seen.line; at = option_copied seen.at }) result ≡ entry_under self.now.all address }
    {
        let Some(held) = self.held.get(&address) else {
            return None;
        };
        let at = self.locations.at(held.location);
        Some(Seen {
            size: held.size,
            line: held.line,
            at,
        })
    }
}
