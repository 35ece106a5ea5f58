//! The replay of a log's lines that counts the blocks held of each span of sizes.

ghost use Rattle.std.specs.Prelude.{◌≡◌, ℕ, suc, ◌+◌, ◌^◌, ◌<◌, List, [], ◌∷◌, Some, None, OnOk, IfOk, if◌then◌else◌};
ghost use Rattle.std.specs.List.{All};
ghost use Rattle.mtrace_replay.specs.Moment.{ReadLine};
ghost use Rattle.mtrace_replay.specs.LedgerReplay.{LedgerStandsFor};
ghost use Rattle.mtrace_replay.specs.Spans.{AreCountedOf, AreFew};
ghost use Rattle.mtrace_replay.specs.CountedReplay.{IsChangeOf, FeedsCounted};

use super::change::Change;
use super::spans::Spans;
use crate::held::findings::Findings;
use crate::ledger::replay::LedgerReplay;
use crate::runs::following::tell_found;
use crate::runs::line_replay::{LineReplay, TellFault};
use mtrace_log::{Event, LentLocation, LineFault, Sink};
use std::alloc::{AllocError, Global};
use std::hash::RandomState;

/// The replay of a log's lines without a heap, with the blocks held of each span of sizes. There are no spans once a request that
/// is served has no class.
#[derive(Drop)]
pub(crate) struct CountedReplay {
    pub(crate) ledger: LedgerReplay,
    pub(crate) spans: Option<Spans>,
}

/// Counts what a line does. Answers whether its request has a class, where it is served.
///
/// # Errors
///
/// `AllocError` where memory is refused.
fn count(spans: &mut Spans, change: &Change, is_served: bool) -> Result<bool, AllocError>
    requires few { All (λ span. span.live + 1 < 2 ^ 64) spans.old.all }
    ensures counted { IfOk result (λ has_class. (past : List ReadLine) (line : ReadLine) → IsChangeOf change.now is_served line past
        → AreCountedOf past (Some spans.old) → AreCountedOf (line ∷ past) (if has_class then Some spans.new else None)) }
    ensures few { OnOk result ((lines : ℕ) → AreFew lines (Some spans.old) → AreFew (suc lines) (Some spans.new)) }
{
    let freed = change.released(is_served);
    let given = change.block();
    if !is_served {
        spans.follow(freed, None)?;
        return Ok(true);
    }
    spans.follow(freed, given)?;
    Ok(given.is_some())
}

impl CountedReplay {
    /// A replay of no line yet.
    ///
    /// # Errors
    ///
    /// `AllocError` where memory is refused.
    pub(crate) fn new(alloc: Global, seed: RandomState) -> Result<CountedReplay, AllocError>
        ensures served { IfOk result (λ replay. LedgerStandsFor replay.ledger []) }
        ensures counted { IfOk result (λ replay. AreCountedOf [] replay.spans) }
        ensures few { IfOk result (λ replay. AreFew 0 replay.spans) }
    {
        let spans = Spans::new(alloc, seed)?;
        Ok(CountedReplay {
            ledger: LedgerReplay::new(alloc, seed),
            spans: Some(spans),
        })
    }

    /// Counts what a line does, unless a request had no class.
    fn count(&mut self, change: &Change, is_served: bool) -> Result<(), AllocError>
        requires few { AreFew 18446744073709551614 self.old.spans }
        ensures counted { OnOk result ((past : List ReadLine) (line : ReadLine) → IsChangeOf change.now is_served line past
            → AreCountedOf past self.old.spans → AreCountedOf (line ∷ past) self.new.spans) }
        ensures few { OnOk result ((lines : ℕ) → AreFew lines self.old.spans → AreFew (suc lines) self.new.spans) }
        ensures ledger { self.new.ledger ≡ self.old.ledger }
    {
        let has_class = match &mut self.spans {
            None => true,
            Some(spans) => count(spans, change, is_served)?,
        };
        if !has_class {
            self.spans = None;
        }
        Ok(())
    }

    /// Replays the line of this number that says this, with its location where it lies. What is wrong goes to the findings.
    ///
    /// # Errors
    ///
    /// `AllocError` where memory is refused.
    #[inline(always)]
    pub(crate) fn feed_lent(
        &mut self,
        number: u64,
        event: Result<Event<LentLocation<'_>>, LineFault>,
        findings: &mut Findings,
    ) -> Result<(), AllocError>
        requires next { number ≡ self.old.ledger.lines + 1 }
        requires none { findings.old ≡ [] }
        requires few { AreFew self.old.ledger.lines self.old.spans }
        ensures { FeedsCounted number event.entry findings.new result self.old self.new }
    {
        let change = Change::of(&event, self.ledger.pending());
        let served = self.ledger.totals().served;
        self.ledger.feed_lent(number, event, findings)?;
        let is_served = self.ledger.totals().served > served;
        self.count(&change, is_served)
    }
}

impl LineReplay for CountedReplay {
    ghost use Rattle.mtrace_replay.specs.CountedReplay.{counted_rules};

    ghost rules = { counted_rules };

    #[inline(always)]
    fn lines(&self) -> u64 {
        self.ledger.lines()
    }

    #[inline(always)]
    fn take_line(
        &mut self,
        number: u64,
        event: Result<Event<LentLocation<'_>>, LineFault>,
        findings: &mut Findings,
    ) -> Result<(), AllocError> {
        self.feed_lent(number, event, findings)
    }

    #[inline(always)]
    fn tell_line<W: Sink>(
        &self,
        writer: &mut W,
        findings: &mut Findings,
    ) -> Result<bool, TellFault> {
        tell_found(writer, findings)
    }
}
