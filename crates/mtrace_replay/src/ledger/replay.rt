//! The replay of a log without a heap.

ghost use Rattle.std.specs.Prelude.{◌≡◌, ◌+◌, ◌<◌, [], length};
ghost use Rattle.mtrace_replay.specs.Texts.{total_size};
ghost use Rattle.mtrace_replay.specs.Moment.{half};
ghost use Rattle.mtrace_replay.specs.LedgerReplay.{LedgerStandsFor, FeedsLedger, RaisesPeak, totals_of};

use super::ledger::Ledger;
use super::line::outcome;
use crate::held::amount::Amount;
use crate::held::diagnostic::Note;
use crate::held::findings::Findings;
use crate::held::half::{half_before, half_diagnostic, old_address, put_half};
use crate::runs::following::tell_found;
use crate::runs::line_replay::{LineReplay, TellFault};
use mtrace_log::{Addr, Event, LentLocation, LineFault, Sink};
use std::alloc::{AllocError, Global};
use std::hash::RandomState;
use std::marker::Model;

/// The sums over the lines of a log, without a heap.
#[derive(Clone, Copy, Debug, PartialEq, Eq)]
pub struct LedgerTotals {
    /// How many lines there are.
    pub lines: u64,
    /// How many lines were given a block.
    pub served: u64,
    /// The sum of the sizes held, in bytes as asked for.
    pub live_bytes: u128,
    /// How many addresses are held.
    pub live_blocks: u64,
    /// The greatest sum of sizes held after any line, in bytes.
    pub peak_bytes: u128,
    /// The first line after which that was held; 0 where nothing ever was.
    pub peak_line: u64,
}

/// The replay of a log's lines without a heap: what is held, and the greatest sum of bytes that was.
#[derive(Drop)]
pub struct LedgerReplay {
    ledger: Ledger,
    lines: u64,
    served: u64,
    peak_bytes: u128,
    peak_line: u64,
    peak_blocks: u64,
    pending: Option<Addr>,
}

impl Model for LedgerReplay {
    ghost use Rattle.std.specs.Prelude.{◌≡◌, ◌≤◌};
    ghost use Rattle.mtrace_replay.specs.LedgerReplay.{LedgerReplayed};

    ghost Value = { LedgerReplayed };

    ghost view = { λ r. record {
      all = r.ledger.all;
      lines = r.lines;
      served = r.served;
      peak_bytes = r.peak_bytes;
      peak_line = r.peak_line;
      peak_blocks = r.peak_blocks;
      at_peak = r.ledger.at_peak;
      called = r.ledger.called;
      pending = r.pending;
    } };

    ghost invariant = { λ r. (r.served ≤ r.lines) × (r.peak_line ≤ r.lines) × (r.ledger.mark ≡ r.peak_line) × (r.ledger.called.total.calls ≡ r.served) };
}

impl LedgerReplay {
    /// A replay of no line yet. It takes no memory.
    pub fn new(alloc: Global, seed: RandomState) -> LedgerReplay
        ensures { LedgerStandsFor result [] }
    {
        LedgerReplay {
            ledger: Ledger::new(alloc, seed),
            lines: 0,
            served: 0,
            peak_bytes: 0,
            peak_line: 0,
            peak_blocks: 0,
            pending: None,
        }
    }

    /// What is held behind the last line is the peak, where it is more than was ever held.
    #[inline(always)]
    fn raise_peak(&mut self)
        requires later { self.old.peak_line < self.old.lines }
        ensures { RaisesPeak self.old self.new }
    {
        let bytes = self.ledger.bytes();
        if bytes <= self.peak_bytes {
            return;
        }
        self.peak_bytes = bytes;
        self.peak_line = self.lines;
        self.peak_blocks = self.ledger.len() as u64;
        self.ledger.set_mark(self.lines);
    }

    /// Replays the line of this number that says this, with its location where it lies. What is wrong goes to the findings.
    ///
    /// # Errors
    ///
    /// `AllocError` where memory is refused: then the replay is as before the line.
    #[inline(always)]
    pub(crate) fn feed_lent(
        &mut self,
        number: u64,
        event: Result<Event<LentLocation<'_>>, LineFault>,
        findings: &mut Findings,
    ) -> Result<(), AllocError>
        requires next { number ≡ self.old.lines + 1 }
        requires none { findings.old ≡ [] }
        ensures { FeedsLedger number event.entry findings.new result self.old self.new }
    {
        let half = half_before(self.lines, self.pending, &event);
        let next = old_address(&event);
        let is_given = outcome(&mut self.ledger, number, self.pending, event, findings)?;
        self.ledger.keeps_order();
        put_half(half, findings);
        self.lines = number;
        self.served += u64::from(is_given);
        self.pending = next;
        self.raise_peak();
        Ok(())
    }

    /// What is wrong at the end: the last line, where that is half of a reallocation.
    pub(crate) fn finish(&self) -> Note
        ensures { result.items ≡ half self.now.lines self.now.pending }
    {
        let mut findings = Findings::none();
        put_half(half_diagnostic(self.lines, self.pending), &mut findings);
        findings.diagnostics()
    }

    /// The sums over the lines fed.
    pub(crate) fn totals(&self) -> LedgerTotals
        ensures { result ≡ totals_of self.now }
    {
        LedgerTotals {
            lines: self.lines,
            served: self.served,
            live_bytes: self.ledger.bytes(),
            live_blocks: self.ledger.len() as u64,
            peak_bytes: self.peak_bytes,
            peak_line: self.peak_line,
        }
    }

    /// The address of the last line, where that is `<`.
    pub(crate) fn pending(&self) -> Option<Addr>
        ensures { result ≡ self.now.pending }
    {
        self.pending
    }

    /// What was held at the peak.
    pub(crate) fn peak_amount(&self) -> Amount
        ensures { result ≡ record { blocks = self.now.peak_blocks; bytes = self.now.peak_bytes } }
    {
        Amount {
            blocks: self.peak_blocks,
            bytes: self.peak_bytes,
        }
    }

    /// What is held now.
    pub(crate) fn live_amount(&self) -> Amount
        ensures { result ≡ record { blocks = length self.now.all; bytes = total_size self.now.all } }
    {
        Amount {
            blocks: self.ledger.len() as u64,
            bytes: self.ledger.bytes(),
        }
    }

    /// What is held.
    pub(crate) fn ledger(&self) -> &Ledger
        ensures all { result.now.all ≡ self.now.all }
        ensures at_peak { result.now.at_peak ≡ self.now.at_peak }
        ensures called { result.now.called ≡ self.now.called }
    {
        &self.ledger
    }
}

impl LineReplay for LedgerReplay {
    ghost use Rattle.mtrace_replay.specs.LedgerReplay.{ledger_rules};

    ghost rules = { ledger_rules };

    #[inline(always)]
    fn lines(&self) -> u64 {
        self.lines
    }

    #[inline(always)]
    fn take_line(
        &mut self,
        number: u64,
        event: Result<Event<LentLocation<'_>>, LineFault>,
        findings: &mut Findings,
    ) -> Result<(), AllocError> {
        self.feed_lent(number, event, findings)
    }

    #[inline(always)]
    fn tell_line<W: Sink>(
        &self,
        writer: &mut W,
        findings: &mut Findings,
    ) -> Result<bool, TellFault> {
        tell_found(writer, findings)
    }
}
