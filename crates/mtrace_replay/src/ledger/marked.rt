//! The replay of a log without a heap that tells what has changed since a line.

ghost use Rattle.std.specs.Prelude.{◌≡◌, List, [], IfOk};
ghost use Rattle.mtrace_replay.specs.Entry.{Entry};
ghost use Rattle.mtrace_replay.specs.Sites.{AreTallied};
ghost use Rattle.mtrace_replay.specs.Changes.{AreChanges};
ghost use Rattle.mtrace_replay.specs.MarkedReplay.{MarkedStandsFor, MarksLast, point_of};

use super::ledger::Ledger;
use super::line::outcome;
use super::point::LedgerPoint;
use crate::held::findings::Findings;
use crate::held::half::old_address;
use crate::held::site::Site;
use crate::runs::following::tell_found;
use crate::runs::line_replay::{LineReplay, TellFault};
use mtrace_log::{Addr, Event, LentLocation, LineFault, Sink};
use std::alloc::{AllocError, Global};
use std::hash::RandomState;
use std::marker::Model;

/// The replay of a log's lines without a heap: what is held, and what each location held behind the line of the mark.
#[derive(Drop)]
pub(crate) struct MarkedReplay {
    ledger: Ledger,
    lines: u64,
    mark: u64,
    pending: Option<Addr>,
}

impl Model for MarkedReplay {
    ghost use Rattle.std.specs.Prelude.{◌≡◌, ◌≤◌};
    ghost use Rattle.mtrace_replay.specs.MarkedReplay.{MarkedReplayed};

    ghost Value = { MarkedReplayed };

    ghost view = { λ r. record {
      all = r.ledger.all;
      at_mark = r.ledger.at_peak;
      mark = r.mark;
      lines = r.lines;
      pending = r.pending;
    } };

    ghost invariant = { λ r. (r.mark ≤ r.lines) × (r.ledger.mark ≡ r.mark) × (r.ledger.called.total.calls ≤ r.lines) };
}

impl MarkedReplay {
    /// A replay of no line yet. It takes no memory.
    pub(crate) fn new(alloc: Global, seed: RandomState) -> MarkedReplay
        ensures stands { MarkedStandsFor result [] }
        ensures mark { result.mark ≡ 0 }
    {
        MarkedReplay {
            ledger: Ledger::new(alloc, seed),
            lines: 0,
            mark: 0,
            pending: None,
        }
    }

    /// Puts the mark at the last line.
    pub(crate) fn mark_last(&mut self)
        ensures { MarksLast self.old self.new }
    {
        if self.mark < self.lines {
            self.ledger.set_mark(self.lines);
            self.mark = self.lines;
        }
    }

    /// What is held behind the last line.
    pub(crate) fn point(&self) -> LedgerPoint
        ensures { result ≡ point_of self.now }
    {
        LedgerPoint {
            line: self.lines,
            bytes: self.ledger.bytes(),
            blocks: self.ledger.len() as u64,
        }
    }

    /// The sites that have changed since the mark, each with what it holds now, in their order.
    ///
    /// # Errors
    ///
    /// `AllocError` where memory is refused for them.
    pub(crate) fn changes(&self, alloc: Global) -> Result<Vec<Site<'_>>, AllocError>
        ensures { IfOk result (λ sites. (before : List Entry) → AreTallied before self.now.at_mark → AreChanges before self.now.all sites.items) }
    {
        self.ledger.changes(alloc)
    }
}

impl LineReplay for MarkedReplay {
    ghost use Rattle.mtrace_replay.specs.MarkedReplay.{marked_rules};

    ghost rules = { marked_rules };

    #[inline(always)]
    fn lines(&self) -> u64 {
        self.lines
    }

    #[inline(always)]
    fn take_line(
        &mut self,
        number: u64,
        event: Result<Event<LentLocation<'_>>, LineFault>,
        findings: &mut Findings,
    ) -> Result<(), AllocError> {
        let next = old_address(&event);
        let _given = outcome(&mut self.ledger, number, self.pending, event, findings)?;
        findings.clear();
        self.ledger.keeps_order();
        self.lines = number;
        self.pending = next;
        Ok(())
    }

    fn tell_line<W: Sink>(
        &self,
        writer: &mut W,
        findings: &mut Findings,
    ) -> Result<bool, TellFault> {
        tell_found(writer, findings)
    }
}
