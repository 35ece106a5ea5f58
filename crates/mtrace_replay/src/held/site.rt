//! What one location holds.

ghost use Rattle.std.specs.Prelude.{◌≡◌};
ghost use Rattle.std.specs.Option.{option_copied};
ghost use Rattle.mtrace_replay.specs.Sites.{origin_cmp, site_cmp};
ghost use Rattle.mtrace_replay.specs.Gather.{Sorts};

use crate::held::entry::Entry;
use mtrace_log::Location;
use std::cmp::Ordering;
use std::marker::Model;

/// What one location holds, or the lines without one: how many blocks, and how many bytes were asked for them.
#[derive(Debug, Drop)]
pub(crate) struct Site<'a> {
    /// The location, where there is one.
    pub(crate) at: Option<&'a [u8]>,
    /// How many blocks are held.
    pub(crate) blocks: u64,
    /// How many bytes were asked for them in sum.
    pub(crate) bytes: u128,
}

impl<'a> Model for Site<'a> {
    ghost use Rattle.std.specs.Option.{option_copied};
    ghost use Rattle.mtrace_replay.specs.Sites.{Site};

    ghost Value = { Site };

    ghost view = { λ site. record { blocks = site.blocks; bytes = site.bytes; at = option_copied site.at } };
}

/// The bytes of a location, where there is one.
pub(crate) fn location_bytes(at: &Option<Location>) -> Option<&[u8]>
    ensures { option_copied result ≡ at.now }
{
    match at {
        Some(location) => Some(location.bytes()),
        None => None,
    }
}

/// How two locations stand: none first, and then by their bytes.
#[tactic(auto, unfolding(crate::specs::Sites::origin_cmp))]
pub(crate) fn compare_locations(first: Option<&[u8]>, second: Option<&[u8]>) -> Ordering
    ensures { result ≡ origin_cmp (option_copied first.entry) (option_copied second.entry) }
{
    match (first, second) {
        (None, None) => Ordering::Equal,
        (None, Some(_)) => Ordering::Less,
        (Some(_), None) => Ordering::Greater,
        (Some(x), Some(y)) => x.cmp(y),
    }
}

impl<'a> Site<'a> {
    /// What one entry holds alone.
    pub(crate) fn of_one(entry: &'a Entry) -> Site<'a>
        ensures { result ≡ record { blocks = 1; bytes = entry.now.size; at = entry.now.at } }
    {
        Site {
            at: location_bytes(&entry.at),
            blocks: 1,
            bytes: u128::from(entry.size),
        }
    }

    /// How two sites stand: most bytes first, then most blocks, then by their locations.
    pub(crate) fn compare(&self, other: &Site<'_>) -> Ordering
        ensures { result ≡ site_cmp self.now other.now }
    {
        match other
            .bytes
            .cmp(&self.bytes)
            .then(other.blocks.cmp(&self.blocks))
        {
            Ordering::Equal => compare_locations(self.at, other.at),
            Ordering::Less => Ordering::Less,
            Ordering::Greater => Ordering::Greater,
        }
    }
}

/// Sorts sites into their order.
pub(crate) fn sort_sites(sites: &mut Vec<Site<'_>>)
    ensures { Sorts (λ site. site) site_cmp sites.old sites.new }
{
    sites.sort_unstable_by(|a, b| a.compare(b));
}
