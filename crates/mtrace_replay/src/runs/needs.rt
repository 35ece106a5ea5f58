//! What a log needs of a pool, gathered beside its replay.

ghost use Rattle.std.specs.Prelude.{◌≡◌, ℕ, ◌+◌, max, nat_lt, IfOk, Option, [], if◌then◌else◌};
ghost use Rattle.tlsf_heap.specs.Sizing.{class_size};
ghost use Rattle.mtrace_replay.specs.Course.{course};
ghost use Rattle.mtrace_replay.specs.Moment.{Given, asked_size};
ghost use Rattle.mtrace_replay.specs.Asked.{greater_class};
ghost use Rattle.mtrace_replay.specs.Started.{started};
ghost use Rattle.mtrace_replay.specs.declared.heap.settings.Settings.{Settings};
ghost use Rattle.mtrace_replay.specs.Needs.{of_one, bytes_of_block, BehindExchange, AreNeeds, RunsFronted, status_with, EndsWithNeeds};

use crate::heap::replay::{Replay, ReplayFault};
use crate::heap::settings::Settings;
use crate::heap::totals::Totals;
use crate::held::asked::{Asked, rounded_bytes};
use crate::held::findings::Findings;
use crate::runs::following::{read_log, tell_found};
use crate::runs::fronted::Fronted;
use crate::runs::line_replay::{LineReplay, TellFault};
use crate::runs::report::Report;
use crate::runs::run::finish;
use crate::runs::status::{RunFault, Status};
use mtrace_log::{Event, LentLocation, LineFault, Sink, Source};
use std::alloc::{AllocError, Global};
use tlsf_heap::Heap;

/// The bytes of the blocks held behind a line. `more` are those of the blocks held before it and of the block that it is given.
/// Of the blocks held before it, `blocks` are left, of `bytes` bytes as asked for: all of them, or all but the one that it frees.
fn less_freed(more: u64, blocks: u64, bytes: u64, old: Totals) -> u64
    ensures { (freed : Option Given) (exact : ℕ) → blocks + of_one (λ given. 1) freed ≡ old.live_blocks → bytes + of_one (λ given. given.entry.size) freed ≡ old.live_bytes
        → exact + of_one bytes_of_block freed ≡ more → result ≡ exact }
{
    if blocks == old.live_blocks {
        return more;
    }
    more.saturating_sub(rounded_bytes(old.live_bytes.saturating_sub(bytes)))
}

/// The bytes of the blocks held behind a line that asks for `size` bytes, where those held before it had `rounded`. The block that
/// the line frees isn't looked up: the sums before and after the line tell its size.
fn rounded_after(rounded: u64, size: u64, old: Totals, new: Totals) -> u64
    ensures { BehindExchange size old new rounded result }
{
    if new.served > old.served {
        let more = rounded.saturating_add(rounded_bytes(size));
        let blocks = new.live_blocks.saturating_sub(1);
        less_freed(more, blocks, new.live_bytes.saturating_sub(size), old)
    } else {
        less_freed(rounded, new.live_blocks, new.live_bytes, old)
    }
}

/// What lines need of a pool.
#[derive(Clone, Copy)]
pub(crate) struct Needs {
    /// The most addresses that were held after any line.
    pub(crate) most: u64,
    /// The bytes that the blocks held have.
    rounded: u64,
    /// The most bytes that the blocks held had after any line.
    pub(crate) most_rounded: u64,
    /// The greatest class size that a served line asked for, in bytes. `None` where a class is missing.
    pub(crate) class_size: Option<u32>,
}

impl Needs {
    /// What no line needs.
    fn none() -> Needs
        ensures { (settings : Settings) → AreNeeds (started settings) [] result }
    {
        Needs {
            most: 0,
            rounded: 0,
            most_rounded: 0,
            class_size: Some(tlsf_class::UNIT),
        }
    }

    /// What is needed with one line more, which asks for this, by the sums before and after it.
    fn after(self, asked: Asked, old: Totals, new: Totals) -> Needs
        ensures most { result.most ≡ max self.most new.live_blocks }
        ensures rounded { BehindExchange asked.size old new self.rounded result.rounded }
        ensures most_rounded { result.most_rounded ≡ max self.most_rounded result.rounded }
        ensures class { result.class_size ≡ (if nat_lt old.served new.served then greater_class self.class_size (class_size asked.align (asked_size asked.size)) else self.class_size) }
    {
        let rounded = rounded_after(self.rounded, asked.size, old, new);
        Needs {
            most: self.most.max(new.live_blocks),
            rounded,
            most_rounded: self.most_rounded.max(rounded),
            class_size: asked.greatest(self.class_size, new.served > old.served),
        }
    }
}

/// A replay on a heap, with what its lines need.
#[derive(Drop)]
pub(crate) struct NeedsReplay {
    pub(crate) replay: Replay<Heap>,
    pub(crate) needs: Needs,
}

impl LineReplay for NeedsReplay {
    ghost use Rattle.mtrace_replay.specs.Needs.{needs_rules};

    ghost rules = { needs_rules };

    #[inline(always)]
    fn lines(&self) -> u64 {
        self.replay.lines()
    }

    #[inline(always)]
    fn take_line(
        &mut self,
        number: u64,
        event: Result<Event<LentLocation<'_>>, LineFault>,
        findings: &mut Findings,
    ) -> Result<(), AllocError> {
        let asked = Asked::of(&event);
        let old = self.replay.totals();
        self.replay.keeps_working();
        self.replay.take_line(number, event, findings)?;
        self.needs = self.needs.after(asked, old, self.replay.totals());
        Ok(())
    }

    #[inline(always)]
    fn tell_line<W: Sink>(
        &self,
        writer: &mut W,
        findings: &mut Findings,
    ) -> Result<bool, TellFault> {
        tell_found(writer, findings)
    }
}

/// A run that read its log to the end: its status, and then the replay with what the log needs.
#[derive(Drop)]
pub(crate) struct NeedsRun {
    pub(crate) status: Status,
    pub(crate) replay: NeedsReplay,
}

/// Reads and replays a log, each request larger by `front` bytes, on a heap by the settings, and gathers what it needs. Writes
/// what is wrong with its lines.
pub(crate) fn replay_needs<R: Source, W: Sink>(
    alloc: Global,
    reader: &mut R,
    writer: &mut W,
    front: u64,
    settings: Settings,
) -> Result<NeedsRun, RunFault>
    ensures ran { RunsFronted front settings (status_with result) (course R.shown reader.old reader.new) (course W.shown writer.old writer.new) }
    ensures last { IfOk result (λ ended. EndsWithNeeds front settings ended.status ended.replay
        (R.shown reader.old) (R.shown reader.new) (W.shown writer.old) (W.shown writer.new)) }
{
    let replay = match Replay::<Heap>::create(alloc, settings) {
        Ok(replay) => replay,
        Err(ReplayFault::BadSettings) => return Err(RunFault::BadSettings),
        Err(ReplayFault::OutOfMemory) => return Err(RunFault::OutOfMemory),
    };
    let needs = Needs::none();
    let mut fronted = Fronted {
        replay: NeedsReplay { replay, needs },
        front,
    };
    let has_diagnostics = match read_log(reader, writer, &mut fronted) {
        Ok(has_diagnostics) => has_diagnostics,
        Err(fault) => return Err(fault),
    };
    let Fronted { mut replay, .. } = fronted;
    match finish(writer, &mut replay.replay, has_diagnostics, Report::Nothing) {
        Ok(status) => Ok(NeedsRun { status, replay }),
        Err(_) => Err(RunFault::Write),
    }
}
