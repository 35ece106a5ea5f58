//! What locations hold and ask for, gathered.

ghost use Rattle.std.specs.Prelude.{◌≡◌, reverse, IfOk, OnOk};
ghost use Rattle.std.specs.Option.{option_copied};
ghost use Rattle.mtrace_replay.specs.Calls.{has_no_call, caller_of};
ghost use Rattle.mtrace_replay.specs.Shares.{amount_at, count_at, with_row, with_site, between, is_unchanged, site_now, sites_of, changes_of, callers_of};

use super::locations::Locations;
use super::shares::{Shares, When};
use crate::held::amount::Amount;
use crate::held::caller::Caller;
use crate::held::count::Count;
use crate::held::site::Site;
use std::alloc::{AllocError, Global};

/// The site of a location, unless it has no block.
fn push_site<'a>(
    sites: &mut Vec<Site<'a>>,
    at: Option<&'a [u8]>,
    amount: Amount,
) -> Result<(), AllocError>
    ensures { OnOk result (reverse sites.new.items ≡ with_site (option_copied at.entry) amount (reverse sites.old.items)) }
{
    if amount.blocks == 0 {
        return Ok(());
    }
    sites.push(Site {
        at,
        blocks: amount.blocks,
        bytes: amount.bytes,
    })?;
    Ok(())
}

/// The sites of locations, from that of the last one on.
pub(crate) fn gather_sites<'a>(
    alloc: Global,
    locations: &'a Locations,
    shares: &Shares,
    when: When,
) -> Result<Vec<Site<'a>>, AllocError>
    ensures { IfOk result (λ sites. reverse sites.items ≡ sites_of (amount_at when shares.now) locations.now) }
{
    let mut sites = Vec::new(alloc);
    let mut left = locations.len();
    while left > 0 {
        let at = locations.get(left - 1);
        push_site(&mut sites, at, shares.amount(left, when))?;
        left -= 1;
    }
    push_site(&mut sites, None, shares.amount(0, when))?;
    Ok(sites)
}

/// Whether neither the blocks nor their bytes have changed.
fn is_unchanged(before: Amount, now: Amount) -> bool
    ensures { result ≡ is_unchanged (record { before = before; now = now }) }
{
    before.blocks == now.blocks && (now.blocks == 0 || before.bytes == now.bytes)
}

/// The site of a location, unless it is unchanged.
fn push_change<'a>(
    sites: &mut Vec<Site<'a>>,
    at: Option<&'a [u8]>,
    before: Amount,
    now: Amount,
) -> Result<(), AllocError>
    ensures { OnOk result (reverse sites.new.items ≡ with_row is_unchanged site_now (option_copied at.entry) (record { before = before; now = now }) (reverse sites.old.items)) }
{
    if is_unchanged(before, now) {
        return Ok(());
    }
    sites.push(Site {
        at,
        blocks: now.blocks,
        bytes: now.bytes,
    })?;
    Ok(())
}

/// The sites of locations that have changed since the mark, from that of the last one on.
pub(crate) fn gather_changes<'a>(
    alloc: Global,
    locations: &'a Locations,
    shares: &Shares,
) -> Result<Vec<Site<'a>>, AllocError>
    ensures { IfOk result (λ sites. reverse sites.items ≡ changes_of (between shares.now) locations.now) }
{
    let mut sites = Vec::new(alloc);
    let mut left = locations.len();
    while left > 0 {
        let at = locations.get(left - 1);
        let (before, now) = (
            shares.amount(left, When::Peak),
            shares.amount(left, When::End),
        );
        push_change(&mut sites, at, before, now)?;
        left -= 1;
    }
    let (before, now) = (shares.amount(0, When::Peak), shares.amount(0, When::End));
    push_change(&mut sites, None, before, now)?;
    Ok(sites)
}

/// The caller of a location, unless it has no call.
fn push_caller<'a>(
    callers: &mut Vec<Caller<'a>>,
    at: Option<&'a [u8]>,
    count: Count,
) -> Result<(), AllocError>
    ensures { OnOk result (reverse callers.new.items ≡ with_row has_no_call caller_of (option_copied at.entry) count (reverse callers.old.items)) }
{
    if count.calls == 0 {
        return Ok(());
    }
    callers.push(Caller {
        at,
        calls: count.calls,
        bytes: count.bytes,
        temporary: count.temporary,
    })?;
    Ok(())
}

/// The callers of locations, from that of the last one on.
pub(crate) fn gather_callers<'a>(
    alloc: Global,
    locations: &'a Locations,
    shares: &Shares,
) -> Result<Vec<Caller<'a>>, AllocError>
    ensures { IfOk result (λ callers. reverse callers.items ≡ callers_of (count_at shares.now) locations.now) }
{
    let mut callers = Vec::new(alloc);
    let mut left = locations.len();
    while left > 0 {
        let at = locations.get(left - 1);
        push_caller(&mut callers, at, shares.count(left))?;
        left -= 1;
    }
    push_caller(&mut callers, None, shares.count(0))?;
    Ok(callers)
}
