//! Entries grouped by their locations.

ghost use Rattle.std.specs.Prelude.{◌≡◌, ◌+◌, ◌^◌, ◌<◌, ◌≤◌, [], map, length, reverse, vec_len, vec_capacity, IfOk};
ghost use Rattle.std.specs.List.{All};
ghost use Rattle.mtrace_replay.specs.Sites.{origin_cmp, AreSites};
ghost use Rattle.mtrace_replay.specs.Gather.{onto, gather, lent_origin, Sorts};
ghost use Rattle.mtrace_replay.specs.Texts.{total_size};

use crate::heap::index::Entries;
use crate::held::entry::Entry;
use crate::held::site::{Site, compare_locations, location_bytes, sort_sites};
use std::alloc::{AllocError, Global};
use std::marker::Model;

/// Sorts entries by location.
fn sort_entries(entries: &mut Vec<&Entry>)
    ensures { Sorts lent_origin origin_cmp entries.old entries.new }
{
    entries.sort_unstable_by(|a, b| {
        compare_locations(location_bytes(&a.at), location_bytes(&b.at))
    });
}

/// The entry joins the last site, where it has its location, or begins one.
fn join<'a>(entry: &'a Entry, sites: &mut Vec<Site<'a>>)
    requires room { vec_len sites.old < vec_capacity sites.old }
    requires blocks { All (λ s. s.blocks + 1 < 2 ^ 64) sites.old.items }
    requires bytes { All (λ s. s.bytes + entry.now.size < 2 ^ 64) sites.old.items }
    ensures joined { reverse sites.new.items ≡ onto entry.now (reverse sites.old.items) }
    ensures few { vec_len sites.new ≤ vec_len sites.old + 1 }
    ensures capacity { vec_capacity sites.old ≤ vec_capacity sites.new }
{
    let mut site = Site::of_one(entry);
    if let Some(last) = sites.pop() {
        if compare_locations(last.at, site.at).is_eq() {
            site.at = last.at;
            site.blocks += last.blocks;
            site.bytes += last.bytes;
        } else {
            sites.push_reserved(last);
        }
    }
    sites.push_reserved(site);
}

/// Makes sites of the entries, which are sorted by location, from the last one on.
fn gather_sites<'a>(entries: &[&'a Entry], sites: &mut Vec<Site<'a>>)
    requires empty { sites.old.items ≡ [] }
    requires room { length entries.now ≤ vec_capacity sites.old }
    requires few { length entries.now < 2 ^ 64 }
    requires fits { total_size (map (λ e. e.now) entries.now) < 2 ^ 64 }
    ensures gathered { reverse sites.new.items ≡ gather (map (λ e. e.now) entries.now) }
    ensures capacity { vec_capacity sites.old ≤ vec_capacity sites.new }
{
    let mut left = entries.len();
    while left > 0 {
        left -= 1;
        join(entries[left], sites);
    }
}

/// Room in which entries are grouped.
#[derive(Drop)]
pub(crate) struct Grouping<'a> {
    entries: Vec<&'a Entry>,
    sites: Vec<Site<'a>>,
}

impl<'a> Model for Grouping<'a> {
    ghost use Rattle.std.specs.Prelude.{min};
    ghost use Rattle.std.specs.Vec.{vec_capacity};
    ghost use Rattle.mtrace_replay.specs.Gather.{Grouped};

    ghost Value = { Grouped };

    ghost view = { λ grouping. record {
      room = min (vec_capacity grouping.entries) (vec_capacity grouping.sites);
      sites = grouping.sites.items;
    } };
}

/// The entries, in place of those that were there.
fn collect<'a>(entries: &mut Vec<&'a Entry>, held: Entries<'a>)
    requires room { length held ≤ vec_capacity entries.old }
    ensures all { map (λ e. e.now) entries.new.items ≡ held.entry }
    ensures capacity { vec_capacity entries.old ≤ vec_capacity entries.new }
{
    entries.clear();
    for entry in held {
        entries.push_reserved(entry);
    }
}

impl<'a> Grouping<'a> {
    /// Room for this many entries. It takes memory twice, and no more later.
    ///
    /// # Errors
    ///
    /// `AllocError` where memory is refused.
    pub(crate) fn new(alloc: Global, most: u32) -> Result<Grouping<'a>, AllocError>
        ensures { IfOk result (λ grouping. most ≤ grouping.room) }
    {
        Ok(Grouping {
            entries: Vec::with_capacity(alloc, most as usize)?,
            sites: Vec::with_capacity(alloc, most as usize)?,
        })
    }

    /// Groups entries: two sorts and one pass, without memory.
    pub(crate) fn group(&mut self, held: Entries<'a>)
        requires few { length held < 2 ^ 64 }
        requires fits { total_size held < 2 ^ 64 }
        requires room { length held ≤ self.old.room }
        ensures sites { AreSites held.entry self.new.sites }
        ensures room { self.old.room ≤ self.new.room }
    {
        collect(&mut self.entries, held);
        self.sites.clear();
        sort_entries(&mut self.entries);
        gather_sites(self.entries.as_slice(), &mut self.sites);
        sort_sites(&mut self.sites);
    }

    /// The sites of the entries grouped last, in their order.
    pub(crate) fn sites(&self) -> &[Site<'a>]
        ensures { result.now ≡ self.now.sites }
    {
        self.sites.as_slice()
    }
}
