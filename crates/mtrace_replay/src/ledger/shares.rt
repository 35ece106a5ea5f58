//! What each location holds, what it held at the peak, and what it asked for.

ghost use Rattle.std.specs.Prelude.{◌≡◌, ◌+◌, ◌<◌, ◌≤◌, ◌^◌, ℕ, length, OnOk};
ghost use Rattle.mtrace_replay.specs.Calls.{count_more, count_temporary, no_calls};
ghost use Rattle.mtrace_replay.specs.Shares.{Changes, Counts, KeepsAmounts, KeepsCounts, KeepsShares, Marks, IsOfWords, amount_at, amount_more, amount_less, count_at, now_at, marked_at, marked_in, no_share, nothing};

use crate::held::amount::Amount;
use crate::held::count::Count;
use std::alloc::{AllocError, Global};
use std::marker::Model;

/// Which of two moments is meant.
#[derive(Clone, Copy, Debug, PartialEq, Eq)]
pub enum When {
    /// Behind the line of the peak.
    Peak,
    /// Behind the last line.
    End,
}

/// What a location holds now, what it held at the mark, and what it asked for.
#[derive(Clone, Copy)]
pub struct Share {
    now: Amount,
    // What it held before it was changed for the first time behind that mark.
    before: Amount,
    // The mark behind which it was changed last.
    changed: u64,
    count: Count,
}

impl Share {
    /// Nothing is held, nor was.
    fn none() -> Share
        ensures { result ≡ no_share }
    {
        let nothing = Amount {
            blocks: 0,
            bytes: 0,
        };
        Share {
            now: nothing,
            before: nothing,
            changed: 0,
            count: Count::none(),
        }
    }
}

impl Share {
    /// What it held at the mark.
    fn at_mark(self, mark: u64) -> Amount
        ensures { result ≡ marked_in mark self }
    {
        if self.changed == mark {
            self.before
        } else {
            self.now
        }
    }
}

/// What each location holds, by its slot, and what it held when the mark was set. The mark is the number of a line. A location keeps
/// what it held then when it is changed for the first time behind it, so a new mark touches no location.
#[derive(Drop)]
pub struct Shares {
    all: Vec<Share>,
    mark: u64,
    total: Count,
}

impl Model for Shares {
    ghost use Rattle.mtrace_replay.specs.Shares.{ByLocation, AreKept};

    ghost Value = { ByLocation };

    ghost view = { λ s. record { all = s.all.items; mark = s.mark; total = s.total } };

    ghost invariant = { λ s. AreKept s.all.items s.mark s.total };
}

impl Shares {
    /// No location has a slot yet.
    pub fn new(alloc: Global) -> Shares
        ensures mark { result.mark ≡ 0 }
        ensures counts { (slot : ℕ) → count_at result slot ≡ no_calls }
        ensures total { result.total ≡ no_calls }
        ensures now { (slot : ℕ) → now_at result slot ≡ nothing }
        ensures marked { (slot : ℕ) → marked_at result slot ≡ nothing }
    {
        Shares {
            all: Vec::new(alloc),
            mark: 0,
            total: Count::none(),
        }
    }

    /// Gives all slots up to this one.
    ///
    /// # Errors
    ///
    /// `AllocError` where memory is refused: then there may be fewer.
    pub fn cover(&mut self, slot: usize) -> Result<(), AllocError>
        ensures slots { OnOk result (slot < length self.new.all) }
        ensures kept { KeepsShares self.old self.new }
    {
        while self.all.len() <= slot {
            self.all.push(Share::none())?;
        }
        Ok(())
    }

    /// A slot has another amount now, and another count.
    fn change(&mut self, slot: usize, now: Amount, count: Count, total: Count)
        requires slot { slot < length self.old.all }
        requires words { IsOfWords total }
        requires calls { total.calls + (count_at self.old slot).calls ≡ count.calls + self.old.total.calls }
        requires bytes { total.bytes + (count_at self.old slot).bytes ≡ count.bytes + self.old.total.bytes }
        requires temporary { total.temporary + (count_at self.old slot).temporary ≡ count.temporary + self.old.total.temporary }
        ensures amount { Changes slot now self.old self.new }
        ensures count { Counts slot count self.old self.new }
        ensures total { self.new.total ≡ total }
    {
        let mark = self.mark;
        let share = &mut self.all[slot];
        share.before = share.at_mark(mark);
        share.now = now;
        share.changed = mark;
        share.count = count;
        self.total = total;
    }

    /// The location of this slot asked for one block more, of this size, and holds it.
    pub fn add(&mut self, slot: usize, size: u64)
        requires slot { slot < length self.old.all }
        requires blocks { (now_at self.old slot).blocks + 1 < 2 ^ 64 }
        requires bytes { (now_at self.old slot).bytes + size < 2 ^ 128 }
        requires calls { self.old.total.calls + 1 < 2 ^ 64 }
        ensures amount { Changes slot (amount_more (now_at self.old slot) size) self.old self.new }
        ensures count { Counts slot (count_more (count_at self.old slot) size) self.old self.new }
        ensures total { self.new.total ≡ count_more self.old.total size }
    {
        let (now, count) = (self.all[slot].now, self.all[slot].count);
        self.change(
            slot,
            Amount {
                blocks: now.blocks + 1,
                bytes: now.bytes + u128::from(size),
            },
            count.with_call(size),
            self.total.with_call(size),
        );
    }

    /// The location of this slot holds one block less, of this size. Its calls stay.
    pub fn take(&mut self, slot: usize, size: u64)
        requires slot { slot < length self.old.all }
        requires blocks { 0 < (now_at self.old slot).blocks }
        requires bytes { size ≤ (now_at self.old slot).bytes }
        ensures amount { Changes slot (amount_less (now_at self.old slot) size) self.old self.new }
        ensures counts { KeepsCounts self.old self.new }
    {
        let (now, count) = (self.all[slot].now, self.all[slot].count);
        self.change(
            slot,
            Amount {
                blocks: now.blocks - 1,
                bytes: now.bytes - u128::from(size),
            },
            count,
            self.total,
        );
    }

    /// A call of the location of this slot is temporary.
    pub fn add_temporary(&mut self, slot: usize)
        requires slot { slot < length self.old.all }
        requires some { (count_at self.old slot).temporary < (count_at self.old slot).calls }
        requires few { self.old.total.temporary < self.old.total.calls }
        ensures amounts { KeepsAmounts self.old self.new }
        ensures count { Counts slot (count_temporary (count_at self.old slot)) self.old self.new }
        ensures total { self.new.total ≡ count_temporary self.old.total }
    {
        let share = self.all[slot];
        self.change(
            slot,
            share.now,
            share.count.with_temporary(),
            self.total.with_temporary(),
        );
    }

    /// Sets the mark: from now on, what each location holds now is what it held at the mark.
    pub fn set_mark(&mut self, line: u64)
        requires later { self.old.mark < line }
        ensures { Marks line self.old self.new }
    {
        self.mark = line;
    }

    /// What the location of a slot holds or held, nothing where there is no such slot.
    pub fn amount(&self, slot: usize, when: When) -> Amount
        ensures { result ≡ amount_at when self.now slot }
    {
        let Some(share) = self.all.get(slot) else {
            return Share::none().now;
        };
        match when {
            When::End => share.now,
            When::Peak => share.at_mark(self.mark),
        }
    }

    /// What the location of a slot asked for, nothing where there is no such slot.
    pub fn count(&self, slot: usize) -> Count
        ensures { result ≡ count_at self.now slot }
    {
        match self.all.get(slot) {
            Some(share) => share.count,
            None => Count::none(),
        }
    }

    /// All calls together.
    pub fn total(&self) -> Count
        ensures { result ≡ self.now.total }
    {
        self.total
    }
}
