//! What one line does to a ledger.

ghost use Rattle.std.specs.Prelude.{◌≡◌, ◌<◌, ◌+◌, ◌^◌, ◌&&◌, not, is_some, ℕ, [], None, Some, OnOk, OnErr, if◌then◌else◌, ◌==◌};
ghost use Rattle.mtrace_replay.specs.Moment.{allocation, release, renewal, plan};
ghost use Rattle.mtrace_replay.specs.Calls.{CountsMore};
ghost use Rattle.mtrace_replay.specs.Ledger.{entry_under, KeepsPeak};
ghost use Rattle.mtrace_replay.specs.LedgerReplay.{Serves, found_in};

use super::ledger::Ledger;
use crate::held::diagnostic::{Diagnostic, Kind};
use crate::held::entry::{Entry, entry_of};
use crate::held::findings::Findings;
use mtrace_log::{Addr, Event, LentLocation, LineFault};
use std::alloc::AllocError;

/// Holds the address of an entry.
fn hold(ledger: &mut Ledger, entry: &Entry<LentLocation<'_>>) -> Result<(), AllocError>
    requires few { ledger.old.called.total.calls + 1 < 2 ^ 64 }
    ensures held { OnOk result ((other : ℕ) → entry_under ledger.new.all other ≡ (if entry.now.addr == other then Some entry.now else entry_under ledger.old.all other)) }
    ensures peak { OnOk result (KeepsPeak ledger.old ledger.new) }
    ensures called { OnOk result (CountsMore entry.now.at 1 entry.now.size 0 ledger.old.called ledger.new.called) }
    ensures unchanged { OnErr result (ledger.new ≡ ledger.old) }
{
    let Some(lent) = &entry.at else {
        return ledger.hold(entry.addr, entry.size, entry.line, None);
    };
    ledger.hold(entry.addr, entry.size, entry.line, Some(lent.bytes()))
}

/// `+ address size`, or `* address align size`: holds the address, unless it is held. Answers whether it does.
#[inline(always)]
fn allocate(
    ledger: &mut Ledger,
    entry: &Entry<LentLocation<'_>>,
    findings: &mut Findings,
) -> Result<bool, AllocError>
    requires none { findings.old ≡ [] }
    requires few { ledger.old.called.total.calls + 1 < 2 ^ 64 }
    ensures { Serves entry.now.line (allocation entry.now None (found_in ledger.old.all entry.now.addr)) findings.new result ledger.old ledger.new }
{
    if ledger.is_held(entry.addr) {
        findings.set_one(entry.line, Kind::AlreadyHeld(entry.addr));
        return Ok(false);
    }
    hold(ledger, entry)?;
    Ok(true)
}

/// `- address`: holds it no more.
#[inline(always)]
fn release(
    ledger: &mut Ledger,
    number: u64,
    address: Addr,
    findings: &mut Findings,
) -> Result<bool, AllocError>
    requires none { findings.old ≡ [] }
    ensures { Serves number (release number address (found_in ledger.old.all address)) findings.new result ledger.old ledger.new }
{
    if !ledger.release(address, Some(number)) {
        findings.set_one(number, Kind::NotHeld(address));
    }
    Ok(false)
}

/// Holds the address of an entry in place of an old one, which may be the same.
fn replace(
    ledger: &mut Ledger,
    old: Addr,
    entry: &Entry<LentLocation<'_>>,
) -> Result<(), AllocError>
    requires few { ledger.old.called.total.calls + 1 < 2 ^ 64 }
    ensures held { OnOk result ((other : ℕ) → entry_under ledger.new.all other
        ≡ (if entry.now.addr == other then Some entry.now else (if old == other then None else entry_under ledger.old.all other))) }
    ensures peak { OnOk result (KeepsPeak ledger.old ledger.new) }
    ensures called { OnOk result (CountsMore entry.now.at 1 entry.now.size 0 ledger.old.called ledger.new.called) }
    ensures unchanged { OnErr result (ledger.new ≡ ledger.old) }
{
    let Some(lent) = &entry.at else {
        return ledger.replace(old, entry.addr, entry.size, entry.line, None);
    };
    ledger.replace(old, entry.addr, entry.size, entry.line, Some(lent.bytes()))
}

/// Whether the address is another one than the old one, and held.
fn is_held_too(ledger: &Ledger, address: Addr, old: Addr) -> bool
    ensures { result ≡ (not (address == old) && is_some (entry_under ledger.now.all address)) }
{
    address != old && ledger.is_held(address)
}

/// `> address size`: holds the address in place of that of the line before, where that is `<`.
#[inline(never)]
fn renew(
    ledger: &mut Ledger,
    pending: Option<Addr>,
    entry: &Entry<LentLocation<'_>>,
    findings: &mut Findings,
) -> Result<bool, AllocError>
    requires none { findings.old ≡ [] }
    requires few { ledger.old.called.total.calls + 1 < 2 ^ 64 }
    ensures { Serves entry.now.line (renewal entry.now pending (found_in ledger.old.all)) findings.new result ledger.old ledger.new }
{
    let number = entry.line;
    let Some(old) = pending else {
        findings.set_one(number, Kind::Stray);
        return Ok(false);
    };
    if !ledger.is_held(old) {
        let is_given = allocate(ledger, entry, findings)?;
        findings.put_first(Diagnostic {
            line: number,
            kind: Kind::NotHeld(old),
        });
        return Ok(is_given);
    }
    if is_held_too(ledger, entry.addr, old) {
        findings.set_one(number, Kind::AlreadyHeld(entry.addr));
        return Ok(false);
    }
    replace(ledger, old, entry)?;
    Ok(true)
}

/// What the line of this number does, where `pending` is the address of the line before, if that is `<`. Answers whether a block is
/// given.
#[inline(always)]
pub(crate) fn outcome(
    ledger: &mut Ledger,
    number: u64,
    pending: Option<Addr>,
    event: Result<Event<LentLocation<'_>>, LineFault>,
    findings: &mut Findings,
) -> Result<bool, AllocError>
    requires none { findings.old ≡ [] }
    requires few { ledger.old.called.total.calls + 1 < 2 ^ 64 }
    ensures { Serves number (plan number event.entry pending (found_in ledger.old.all)) findings.new result ledger.old ledger.new }
{
    match event {
        Err(LineFault::TooLong) => {
            findings.set_one(number, Kind::TooLong);
            Ok(false)
        }
        Err(LineFault::NotALine) => {
            findings.set_one(number, Kind::NotALine);
            Ok(false)
        }
        Ok(Event::Start | Event::End | Event::Old { .. } | Event::Failed { .. }) => Ok(false),
        Ok(Event::Alloc { at, addr, size }) => {
            let Some(addr) = addr else {
                return Ok(false);
            };
            let entry = entry_of(number, at, addr, size);
            allocate(ledger, &entry, findings)
        }
        Ok(
            Event::Aligned {
                at,
                addr,
                align: _align,
                size,
            },
        ) => {
            let entry = entry_of(number, at, addr, size);
            allocate(ledger, &entry, findings)
        }
        Ok(Event::Free { at: _at, addr }) => release(ledger, number, addr, findings),
        Ok(Event::New { at, addr, size }) => {
            let entry = entry_of(number, at, addr, size);
            renew(ledger, pending, &entry, findings)
        }
    }
}
