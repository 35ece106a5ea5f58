ghost use Rattle.std.specs.Prelude.{◌≡◌, ◌+◌, ◌≤◌, ◌++◌, length, if◌then◌else◌, [], option_to_list};
ghost use Rattle.mtrace_replay.specs.Moment.{half};

use crate::heap::holder::Holder;
use crate::heap::index::{Entries, Index};
use crate::heap::settings::Settings;
use crate::heap::start::{restart_heap, started_heap};
use crate::heap::step::outcome;
use crate::heap::survey::{Survey, survey_heap};
use crate::heap::totals::Totals;
use crate::heap::walk::put_walk;
use crate::held::diagnostic::Note;
use crate::held::findings::Findings;
use crate::held::half::{half_before, half_diagnostic, old_address, put_half};
use crate::runs::following::tell_found;
use crate::runs::line_replay::{LineReplay, TellFault};
use mtrace_log::{Addr, Event, Failed, LentLocation, Line, LineFault, Sink};
use std::alloc::{AllocError, Global};
use std::marker::Model;
use tlsf_heap::{Heap, Heaped, ImageFault};

/// Why a replay answers no diagnostics.
#[derive(Clone, Copy, Debug, PartialEq, Eq)]
pub enum ReplayFault {
    /// No heap can be made by the settings.
    BadSettings = 1,
    /// Memory was refused.
    OutOfMemory = 2,
}

const _: () = prove!(ReplayFault::BadSettings as u32 == 1 && ReplayFault::OutOfMemory as u32 == 2);

/// The replay of a log's lines on a heap: what is held, by address, and what is wrong with each line.
#[derive(Drop)]
pub struct Replay<H: Heaped> {
    holder: Holder<H>,
    totals: Totals,
    pending: Option<Addr>,
    out_of_memory: bool,
}

impl<H: Heaped> Model for Replay<H> {
    ghost use Rattle.tlsf_heap.specs.Bare.{bare};
    ghost use Rattle.mtrace_replay.specs.Replay.{Replayed};
    ghost use Rattle.mtrace_replay.specs.Step.{all_given, Keeps};

    ghost Value = { Replayed };

    ghost view = { λ r. record {
      content = bare (H.content r.holder.heap);
      touches = H.touches r.holder.heap;
      comparisons = r.holder.held.comparisons;
      given = all_given r.holder.held.all;
      totals = r.totals;
      pending = r.pending;
      out_of_memory = r.out_of_memory;
    } };

    // The blocks that are held are live, and no two are one, until memory is refused. There are at most as many as
    // records, and the index has room for as many.
    ghost invariant = { λ r. Keeps r.holder.held (H.content r.holder.heap) r.totals H.lacks r.out_of_memory };
}

impl<H: Heaped> Replay<H> {
    ghost use Rattle.std.specs.Prelude.{◌↔◌, ◌+◌, ◌≤◌, false, [], length, IsTrue, IsErrOf, IfOk};
    ghost use Rattle.mtrace_replay.specs.declared.heap.settings.Settings.{Settings};
    ghost use Rattle.mtrace_replay.specs.Settings.{are_bad};
    ghost use Rattle.mtrace_replay.specs.Index.{Counts};
    ghost use Rattle.mtrace_replay.specs.Replay.{StandsFor, entries, touched, Feeds, TellsEnd};
    ghost use Rattle.mtrace_log.specs.Output.{Puts};
    ghost use Rattle.mtrace_replay.specs.Texts.{free_sizes, walk_report, total_size};
    ghost use Rattle.mtrace_replay.specs.Survey.{live_ends, IsSurvey};

    /// A replay of no line yet, on a heap by the settings.
    ///
    /// # Errors
    ///
    /// `BadSettings` exactly where they are bad; `OutOfMemory` where memory is refused.
    pub fn create(alloc: Global, settings: Settings) -> Result<Self, ReplayFault>
        ensures made { IfOk result (λ replay. StandsFor replay settings []) }
        ensures records { IfOk result (λ replay. replay.content.records ≡ settings.records) }
        ensures bad_settings { IsErrOf result ReplayFault.BadSettings ↔ IsTrue (are_bad settings) }
    {
        if settings.are_bad() {
            return Err(ReplayFault::BadSettings);
        }
        let Ok(heap) = started_heap(alloc, settings) else {
            return Err(ReplayFault::OutOfMemory);
        };
        let Ok(held) = Index::new(alloc, settings.records) else {
            return Err(ReplayFault::OutOfMemory);
        };
        Ok(Replay {
            holder: Holder { heap, held },
            totals: Totals::default(),
            pending: None,
            out_of_memory: false,
        })
    }

    /// Replays the next line, and answers what is wrong with it, and with the line before, where that is half of
    /// a reallocation. At most 384 touches, and none where the line asks nothing of the heap.
    ///
    /// # Errors
    ///
    /// `OutOfMemory` where memory is refused: then what is held and the totals are as before the line, and each later
    /// call answers the same.
    pub fn feed(&mut self, line: Line) -> Result<Note, ReplayFault>
        requires next { self.old.out_of_memory ≡ false → line.number ≡ self.old.totals.lines + 1 }
        ensures { Feeds H.lacks (λ diagnostics. diagnostics.items) line.number line.event result self.old self.new }
    {
        let mut findings = Findings::none();
        self.feed_lent(line.number, line.lend(), &mut findings)?;
        Ok(findings.diagnostics())
    }

    /// `feed` of the line of this number that says this, with its location where it lies. What is wrong goes to the findings.
    #[inline(always)]
    pub(crate) fn feed_lent(
        &mut self,
        number: u64,
        event: Result<Event<LentLocation<'_>>, LineFault>,
        findings: &mut Findings,
    ) -> Result<(), ReplayFault>
        requires next { self.old.out_of_memory ≡ false → number ≡ self.old.totals.lines + 1 }
        requires none { findings.old ≡ [] }
        ensures { Feeds H.lacks (λ done. findings.new) number event.entry result self.old self.new }
    {
        if self.out_of_memory {
            return Err(ReplayFault::OutOfMemory);
        }
        let half = half_before(self.totals.lines, self.pending, &event);
        let next = old_address(&event);
        match outcome(&mut self.holder, number, self.pending, event, findings) {
            Ok(end) => {
                self.holder.heap.keeps_good();
                self.holder.held.keeps_order();
                put_half(half, findings);
                let is_refused = findings.has_refusal();
                let (bytes, blocks) = (self.holder.held.bytes(), self.holder.held.len());
                self.totals = self.totals.after(end, is_refused, bytes, blocks);
                self.pending = next;
                Ok(())
            }
            Err(_) => {
                self.out_of_memory = true;
                Err(ReplayFault::OutOfMemory)
            }
        }
    }

    /// What is wrong at the end: the last line, where that is half of a reallocation. It changes nothing, and may
    /// be asked at any time.
    ///
    /// # Errors
    ///
    /// `OutOfMemory` exactly where `feed` has answered it.
    pub fn finish(&self) -> Result<Note, ReplayFault>
        ensures { TellsEnd H.lacks (λ diagnostics. diagnostics.items) result self.now }
    {
        if self.out_of_memory {
            return Err(ReplayFault::OutOfMemory);
        }
        let mut findings = Findings::none();
        put_half(
            half_diagnostic(self.totals.lines, self.pending),
            &mut findings,
        );
        Ok(findings.diagnostics())
    }

    /// How many addresses are held.
    pub(crate) fn blocks(&self) -> u64
        ensures { Counts (length (entries self.now)) result }
    {
        self.holder.held.len()
    }

    /// How many bytes were asked for what is held, in sum.
    pub(crate) fn bytes(&self) -> u64
        ensures { result ≡ total_size (entries self.now) }
    {
        self.holder.held.bytes()
    }

    /// What is held, in order of address: at most as many entries as the heap has records.
    pub fn held(&self) -> Entries<'_>
        ensures entries { result ≡ entries self.now }
        ensures few { length result ≤ self.now.content.records }
    {
        self.holder.held.entries()
    }

    /// The sums over the lines fed.
    pub fn totals(&self) -> Totals
        ensures totals { result ≡ self.now.totals }
    {
        self.totals
    }

    /// What is free in the heap, and how far its live blocks reach.
    pub(crate) fn survey(&mut self) -> Survey
        requires works { self.old.out_of_memory ≡ false }
        ensures survey { IsSurvey result (free_sizes self.old.content) (live_ends self.old.content) }
        ensures kept { self.new ≡ touched self.new.touches self.old }
    {
        self.holder.heap.keeps_good();
        survey_heap(&mut self.holder.heap)
    }

    /// Puts the report of the walk.
    ///
    /// # Errors
    ///
    /// `Failed` where the writer failed, or took no byte of some: then a beginning of the report is put.
    pub(crate) fn put_walk<W: Sink>(&mut self, writer: &mut W) -> Result<(), Failed>
        ensures { Puts result (walk_report self.old.content) (W.shown writer.old) (W.shown writer.new) }
    {
        put_walk(writer, &mut self.holder.heap)
    }
}

impl LineReplay for Replay<Heap> {
    ghost use Rattle.mtrace_replay.specs.Replay.{heap_rules};

    ghost rules = { heap_rules };

    #[inline(always)]
    fn lines(&self) -> u64 {
        self.totals.lines
    }

    #[inline(always)]
    fn take_line(
        &mut self,
        number: u64,
        event: Result<Event<LentLocation<'_>>, LineFault>,
        findings: &mut Findings,
    ) -> Result<(), AllocError> {
        let Ok(()) = self.feed_lent(number, event, findings) else {
            unreachable!();
        };
        Ok(())
    }

    #[inline(always)]
    fn tell_line<W: Sink>(
        &self,
        writer: &mut W,
        findings: &mut Findings,
    ) -> Result<bool, TellFault> {
        tell_found(writer, findings)
    }
}

impl Replay<Heap> {
    ghost use Rattle.std.specs.Prelude.{◌≤◌, false, [], length};
    ghost use Rattle.tlsf_heap.specs.Pools.{most_records};
    ghost use Rattle.mtrace_replay.specs.Settings.{are_bad};
    ghost use Rattle.mtrace_replay.specs.Replay.{StandsFor};
    ghost use Rattle.mtrace_replay.specs.Saving.{PutsImage};

    /// The replay is of no line yet, on a heap by the settings. These aren't bad, and ask for at most as many records
    /// as before. It takes no memory.
    pub(crate) fn restart(&mut self, settings: Settings)
        requires good { are_bad settings ≡ false }
        requires few { settings.records ≤ self.old.content.records }
        ensures made { StandsFor self.new settings [] }
        ensures records { self.new.content.records ≡ settings.records }
    {
        restart_heap(&mut self.holder.heap, settings);
        self.holder.held.restart(settings.records);
        self.totals = Totals::default();
        self.pending = None;
        self.out_of_memory = false;
    }

    /// Says that memory was never refused, and that no more is held than there can be records. It does nothing.
    pub(crate) fn keeps_working(&self)
        ensures works { self.now.out_of_memory ≡ false }
        ensures few { length self.now.given ≤ most_records }
    {
        let _ = &self.holder.heap;
    }

    /// Puts an image of the heap.
    ///
    /// # Errors
    ///
    /// `Write` where the writer failed, or took no byte of some: then a beginning of the image is put.
    pub(crate) fn put_image<W: Sink>(&mut self, writer: &mut W) -> Result<(), ImageFault>
        ensures { PutsImage result self.old.content (W.shown writer.old) (W.shown writer.new) }
    {
        self.holder.heap.save_image(writer)
    }
}
