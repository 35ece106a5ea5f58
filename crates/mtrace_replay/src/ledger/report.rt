//! The reports of a log without a heap.

ghost use Rattle.std.specs.Prelude.{◌≡◌, ◌≢◌, ◌≤◌, ◌++◌, [], map, flat_map, decimal, codes};
ghost use Rattle.std.specs.Option.{option_copied};
ghost use Rattle.arrayvec.specs.ArrayVec.{array_vec_len};
ghost use Rattle.mtrace_log.specs.Address.{address_text};
ghost use Rattle.mtrace_log.specs.Output.{Puts};
ghost use Rattle.mtrace_replay.specs.Appends.{Appends};
ghost use Rattle.mtrace_replay.specs.Texts.{entry_text, leaks_report, ledger_peak_report, callers_text};
ghost use Rattle.mtrace_replay.specs.Prepared.{HasNamed, held_text, prepared_text};

use super::ledger::{Ledger, Seen};
use super::prepared::Prepared;
use super::replay::{LedgerReplay, LedgerTotals};
use crate::held::caller::Caller;
use crate::held::line_text::{
    LineText, push_address, push_bytes, push_number, push_number_line, push_wide_pair_line,
    wide_total_text,
};
use crate::held::location_text::put_line_at;
use crate::held::sections::{put_both, put_callers};
use crate::held::site::Site;
use arrayvec::ArrayVec;
use mtrace_log::{Addr, Failed, LONGEST_ADDRESS, Sink, put_all};

/// What is written of a log without a heap, behind what is wrong with its lines.
#[derive(Clone, Copy, Debug, PartialEq, Eq)]
pub enum LedgerReport {
    /// What is held at the end: a line for each address, and how many blocks and bytes they are.
    Held,
    /// The sums over the lines, and the most that was held.
    Sums,
    /// Who holds the memory, at the peak and at the end: a line for each location.
    Sites,
    /// Who holds the memory, and who asked for it over the log: a line for each location.
    Callers,
    /// Nothing.
    Nothing,
}

/// Appends the spelling of the address with this number. No address has the number 0, which has no digit.
fn push_number_of_address(text: &mut LineText, address: u64)
    requires { array_vec_len text.old ≤ 100 }
    ensures { Appends (address_text address) LONGEST_ADDRESS text.old text.new }
{
    match Addr::new(address) {
        Some(address) => push_address(text, address),
        None => push_bytes(text, b"0x"),
    }
}

/// The front of the line of what is held, up to its location.
fn entry_front(address: u64, size: u64, line: u64) -> LineText
    ensures { result.items ≡ address_text address ++ codes " " ++ decimal size ++ codes " line " ++ decimal line }
{
    let mut text = ArrayVec::new();
    push_number_of_address(&mut text, address);
    push_bytes(&mut text, b" ");
    push_number(&mut text, u128::from(size));
    push_bytes(&mut text, b" line ");
    push_number(&mut text, u128::from(line));
    text
}

/// Puts the line of what is held under an address.
fn put_entry<W: Sink>(writer: &mut W, address: u64, seen: &Seen<'_>) -> Result<(), Failed>
    ensures { Puts result (entry_text (record { addr = address; size = seen.now.size; line = seen.now.line; at = option_copied seen.now.at })) (W.shown writer.old) (W.shown writer.new) }
{
    let front = entry_front(address, seen.size, seen.line);
    put_line_at(writer, front.as_slice(), seen.at)
}

/// Puts a line for each address that is held, in order of address.
fn put_entries<W: Sink>(writer: &mut W, ledger: &Ledger, addresses: &[u64]) -> Result<(), Failed>
    requires { addresses.now ≡ map (λ entry. entry.addr) ledger.now.all }
    ensures { Puts result (flat_map entry_text ledger.now.all) (W.shown writer.old) (W.shown writer.new) }
{
    ledger.keeps_order();
    for address in addresses {
        let Some(seen) = ledger.entry(*address) else {
            unreachable!();
        };
        put_entry(writer, *address, &seen)?;
    }
    Ok(())
}

/// Puts the report where something is held.
fn put_held<W: Sink>(writer: &mut W, ledger: &Ledger, addresses: &[u64]) -> Result<(), Failed>
    requires some { ledger.now.all ≢ [] }
    requires addresses { addresses.now ≡ map (λ entry. entry.addr) ledger.now.all }
    ensures { Puts result (leaks_report ledger.now.all) (W.shown writer.old) (W.shown writer.new) }
{
    put_all(writer, b"Memory not freed:\n")?;
    put_entries(writer, ledger, addresses)?;
    let total = wide_total_text(ledger.len() as u64, ledger.bytes());
    put_all(writer, total.as_slice())
}

/// Puts the report of leaks.
fn put_leaks<W: Sink>(writer: &mut W, ledger: &Ledger, addresses: &[u64]) -> Result<(), Failed>
    requires addresses { addresses.now ≡ map (λ entry. entry.addr) ledger.now.all }
    ensures { Puts result (leaks_report ledger.now.all) (W.shown writer.old) (W.shown writer.new) }
{
    if ledger.len() == 0 {
        put_all(writer, b"No memory leaks.\n")
    } else {
        put_held(writer, ledger, addresses)
    }
}

/// The four lines of the sums.
fn sums_text(totals: LedgerTotals) -> LineText
    ensures { result.items ≡ ledger_peak_report totals }
{
    let mut text = ArrayVec::new();
    let (blocks, line) = (u128::from(totals.live_blocks), u128::from(totals.peak_line));
    push_number_line(&mut text, b"lines: ", totals.lines);
    push_number_line(&mut text, b"served: ", totals.served);
    push_wide_pair_line(
        &mut text,
        b"live: ",
        totals.live_bytes,
        b" bytes in ",
        blocks,
        b" blocks",
    );
    push_wide_pair_line(
        &mut text,
        b"peak: ",
        totals.peak_bytes,
        b" bytes at line ",
        line,
        b"",
    );
    text
}

/// Puts what is held, by its sites: at the peak and at the end.
fn put_held_sites<W: Sink>(
    writer: &mut W,
    replay: &LedgerReplay,
    peak: &[Site<'_>],
    end: &[Site<'_>],
) -> Result<(), Failed>
    ensures { Puts result (held_text replay.now peak.now end.now) (W.shown writer.old) (W.shown writer.new) }
{
    let line = replay.totals().peak_line;
    let (peak_sum, end_sum) = (replay.peak_amount(), replay.live_amount());
    put_both(writer, line, peak_sum, peak, end_sum, end)
}

/// Puts what is held, by its sites, and who asked.
fn put_all_callers<W: Sink>(
    writer: &mut W,
    replay: &LedgerReplay,
    peak: &[Site<'_>],
    end: &[Site<'_>],
    callers: &[Caller<'_>],
) -> Result<(), Failed>
    ensures { Puts result (held_text replay.now peak.now end.now ++ callers_text replay.now.called.total callers.now) (W.shown writer.old) (W.shown writer.new) }
{
    put_held_sites(writer, replay, peak, end)?;
    put_callers(writer, replay.ledger().total(), callers)
}

/// Puts a report.
///
/// # Errors
///
/// `Failed` where the writer failed, or took no byte of some: then a beginning of the report is put.
pub(crate) fn put_ledger_report<W: Sink>(
    writer: &mut W,
    replay: &LedgerReplay,
    prepared: &Prepared<'_>,
) -> Result<(), Failed>
    requires named { HasNamed replay.now prepared.now }
    ensures { Puts result (prepared_text replay.now prepared.now) (W.shown writer.old) (W.shown writer.new) }
{
    match prepared {
        Prepared::Held(addresses) => put_leaks(writer, replay.ledger(), addresses.as_slice()),
        Prepared::Sums => put_all(writer, sums_text(replay.totals()).as_slice()),
        Prepared::Sites { peak, end } => {
            put_held_sites(writer, replay, peak.as_slice(), end.as_slice())
        }
        Prepared::Callers { peak, end, callers } => put_all_callers(
            writer,
            replay,
            peak.as_slice(),
            end.as_slice(),
            callers.as_slice(),
        ),
        Prepared::Nothing => Ok(()),
    }
}
