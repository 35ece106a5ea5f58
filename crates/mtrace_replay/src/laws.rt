//! Laws of the definitions, each the contract of a function that does nothing.

ghost use Rattle.std.specs.Prelude.{◌≡◌, ◌==◌, ◌↔◌, ◌+◌, ◌-◌, ◌*◌, ◌%◌, ◌<◌, ◌≤◌, ℕ, Bool, true, false, List, All, length, map, reverse, take, Some, Ok};
ghost use Rattle.tlsf_heap.specs.Sizing.{class_size, sure_records, sure_pool};
ghost use Rattle.tlsf_heap.specs.OneSize.{HasRecords, StaysOfSize};
ghost use Rattle.tlsf_heap.specs.declared.request.Request.{Request};
ghost use Rattle.tlsf_heap.specs.declared.answer.Answer.{Answer};
ghost use Rattle.tlsf_heap.specs.Content.{Content};
ghost use Rattle.tlsf_heap.specs.Pools.{created, add_pool};
ghost use Rattle.tlsf_heap.specs.Run.{Run};
ghost use Rattle.tlsf_heap.specs.Within.{IsNotFull};
ghost use Rattle.mtrace_replay.specs.OneSize.{AsksForSize, rounded_up, ledger_acts};
ghost use Rattle.tlsf_class.specs.Classes.{unit};
ghost use Rattle.tlsf_heap.specs.declared.refusal.Refusal.TheVariants.{NoFit, TableFull};
ghost use Rattle.mtrace_replay.specs.declared.heap.settings.Settings.{Settings};
ghost use Rattle.mtrace_replay.specs.Started.{Bare, started};
ghost use Rattle.mtrace_replay.specs.Moment.{ReadLine, Given, Moment};
ghost use Rattle.mtrace_replay.specs.History.{AreHeld, held, moments, history, diagnostics, entries_of};
ghost use Rattle.mtrace_log.specs.HasRead.{HasReadAll};
ghost use Rattle.mtrace_log.specs.Shown.{Bytes};
ghost use Rattle.mtrace_replay.specs.Again.{HasReadFirst};
ghost use Rattle.std.specs.List.{AllByRecursion, Contains};
ghost use Rattle.std.specs.Int.{next_multiple_of};
ghost use Rattle.mtrace_replay.specs.Settings.{are_bad};
ghost use Rattle.mtrace_replay.specs.Fit.{one_pool};
ghost use Rattle.mtrace_replay.specs.Fronted.{fronted};
ghost use Rattle.mtrace_replay.specs.RunFit.{refusals, IsTried};
ghost use Rattle.mtrace_replay.specs.Enough.{HoldsAtMost, HoldsBytesAtMost, acts_of, IsOfAtMost, IsNeverRefused, IsNeverFull};
ghost use Rattle.mtrace_replay.specs.Held.{IsHeldUnder};
ghost use Rattle.mtrace_replay.specs.Entry.{Entry};
ghost use Rattle.mtrace_replay.specs.Sites.{Site, AreSites};
ghost use Rattle.mtrace_replay.specs.declared.heap.totals.Totals.{Totals};
ghost use Rattle.mtrace_replay.specs.Totals.{first_moments, AreTotals, IsMost};
ghost use Rattle.mtrace_replay.specs.declared.ledger.replay.LedgerTotals.{LedgerTotals};
ghost use Rattle.mtrace_replay.specs.LedgerReplay.{ledger_history, ledger_diagnostics, without_places};
ghost use Rattle.mtrace_replay.specs.declared.runs.report.Report.TheVariants as Report;
ghost use Rattle.mtrace_replay.specs.Run.{whole_text};
ghost use Rattle.mtrace_replay.specs.RunSites.{TellsSites};
ghost use Rattle.mtrace_replay.specs.RunLedger.{AreLedgerTotals, TellsHeld, TellsLedgerSites, TellsLedgerCallers, whole_ledger};
ghost use Rattle.mtrace_replay.specs.RunLedgerTimeline.{TellsLedgerTimeline};
ghost use Rattle.mtrace_replay.specs.Parts.{TellsParts, TellsCut, Part, part_bytes, can_be_built, is_in, served_classes};
ghost use Rattle.mtrace_replay.specs.PartLog.{HasPart, heap_for, lines_of_part};
ghost use Rattle.mtrace_replay.specs.SizeParts.{part_for};
ghost use Rattle.mtrace_replay.specs.declared.runs.size_parts.PartBounds.{PartBounds};
ghost use Rattle.mtrace_replay.specs.declared.ledger.point.LedgerPoint.{LedgerPoint};
ghost use Rattle.mtrace_replay.specs.LedgerTimeline.{IsLedgerPoint, IsPointOfLines};
ghost use Rattle.mtrace_replay.specs.declared.heap.point.Point.{Point};
ghost use Rattle.mtrace_replay.specs.Timeline.{AreTold, IsPoint};

use tlsf_heap::{Heap, Heaped};

/// An address is held under a line exactly where that line asked for it and was served, and no later line
/// took it.
pub fn held_until_taken()
    ensures { (start : Bare) (past : List ReadLine) (address : ℕ) (given : Given)
        → (held (moments start past) address ≡ Some given) ↔ IsHeldUnder (moments start past) address given }
{}

/// What is held is one list: two lists in order of address that agree with what is held are the same. So
/// a log has one report.
pub fn one_list_is_held()
    ensures { (past : List Moment) (one other : List Given) → AreHeld one past → AreHeld other past → one ≡ other }
{}

/// The sites of entries are one list.
pub fn one_list_of_sites()
    ensures { (entries : List Entry) (one other : List Site) → AreSites entries one → AreSites entries other → one ≡ other }
{}

/// The first lines of a text that is told, read again from the first byte on, are the first of all its lines. So two readings
/// by a reader that stands at its first byte agree.
pub fn first_lines_again()
    ensures { (text : List ℕ) (middle after : Bytes) (many : ℕ) (lines first : List ReadLine)
        → HasReadAll (Some text) middle lines → HasReadFirst many (Some text) after first → first ≡ take many lines }
{}

/// A size that a text was tried on which is told serves exactly where none of all its lines, each request with its bytes more, is
/// refused there.
pub fn verdict_of_all_lines()
    ensures { (front : ℕ) (settings : Settings) (text : List ℕ) (middle left : Bytes) (lines : List ReadLine) (serves : Bool)
        → HasReadAll (Some text) middle lines → IsTried front settings (length lines) serves (Some text) left → serves ≡ (refusals settings (fronted front lines) == 0) }
{}

/// On one pool a log is never refused for want of a record where there are 2 * `most` + 3 records or more. After any
/// number of its lines at most `most` addresses are held.
pub fn records_are_enough()
    ensures { (pool records most : ℕ) (past : List ReadLine) → are_bad (one_pool pool records) ≡ false → 2 * most + 3 ≤ records
        → HoldsAtMost most (moments (started (one_pool pool records)) past) → AllByRecursion IsNeverFull (moments (started (one_pool pool records)) past) }
{}

/// On one pool no line of a log is refused for want of a block or of a record, where four things hold. After any number of
/// its lines at most `most` addresses are held, for which at most `bytes` bytes were asked, each size rounded up. Each line
/// that asks for a block asks for one of a class whose lowest size is at most `size`. The pool has more than the `bytes`, and
/// for each of the `most` and one more the most that a free block has that is too small. There are 2 * `most` + 3 records or
/// more.
pub fn sure_pool()
    ensures { (pool records most bytes size : ℕ) (past : List ReadLine) → are_bad (one_pool pool records) ≡ false → 2 * most + 3 ≤ records → bytes + (most + 1) * (size - unit) < pool
        → HoldsAtMost most (moments (started (one_pool pool records)) past) → HoldsBytesAtMost bytes (moments (started (one_pool pool records)) past) → AllByRecursion (IsOfAtMost size) (acts_of (started (one_pool pool records)) past)
        → AllByRecursion (IsNeverRefused NoFit) (moments (started (one_pool pool records)) past) × AllByRecursion (IsNeverRefused TableFull) (moments (started (one_pool pool records)) past) }
{}

/// Where settings are not bad, no pool of theirs is refused: the heap starts with all of them.
pub fn all_pools_stand()
    ensures { (settings : Settings) → are_bad settings ≡ false → length (started settings).pools ≡ settings.pools }
{}

/// `Heap` lacks no memory. So over it each `feed` and each `finish` succeeds: what a replay needs it took when it was
/// made.
pub fn nothing_is_lacked()
    ensures { ⟦<Heap as Heaped>⟧.lacks → ⊥ }
{}

/// The totals of a history are one, and the most of a measure is.
pub fn one_totals()
    ensures totals { (start : Bare) (past : List Moment) (one other : Totals) → AreTotals start past one → AreTotals start past other → one ≡ other }
    ensures most { (measure : List Given → ℕ) (past : List Moment) (one other : ℕ) → IsMost measure past one → IsMost measure past other → one ≡ other }
{}

/// The numbers of lines that a timeline tells are one list, and what it tells of each is one point.
pub fn one_timeline()
    ensures told { (lines peak stretches : ℕ) (one other : List ℕ) → AreTold lines peak stretches one → AreTold lines peak stretches other → one ≡ other }
    ensures points { (start : Bare) (past : List Moment) (one other : Point) → IsPoint start past one → IsPoint start past other → one.line ≡ other.line → one ≡ other }
    ensures ledger_points { (past : List Moment) (one other : LedgerPoint) → IsLedgerPoint past one → IsLedgerPoint past other → one.line ≡ other.line → one ≡ other }
{}

/// Where no line of a log is refused, a run without a heap tells what one with a heap does: the same is wrong with the lines,
/// the same is held, at the end and after the first lines, and the sums are the same. So the sites are the same (`one_list_of_sites`),
/// and so are bytes and blocks after the first lines, as many as a timeline tells of.
pub fn unrefused_is_served()
    ensures diagnostics { (settings : Settings) (lines : List ReadLine) → refusals settings lines ≡ 0 → ledger_diagnostics lines ≡ diagnostics settings lines }
    ensures held { (settings : Settings) (lines : List ReadLine) (all other : List Given) → refusals settings lines ≡ 0
        → AreHeld all (history settings lines) → AreHeld other (ledger_history lines) → entries_of other ≡ entries_of all }
    ensures first { (settings : Settings) (lines : List ReadLine) (many : ℕ) (all other : List Given) → refusals settings lines ≡ 0
        → AreHeld all (first_moments many (history settings lines)) → AreHeld other (first_moments many (ledger_history lines)) → entries_of other ≡ entries_of all }
    ensures sums { (settings : Settings) (lines : List ReadLine) (totals : Totals) (sums : LedgerTotals) → refusals settings lines ≡ 0
        → AreTotals (started settings) (history settings lines) totals → AreLedgerTotals (ledger_history lines) sums → sums ≡ without_places totals }
    ensures points { (settings : Settings) (lines : List ReadLine) (many : ℕ) (point : Point) (other : LedgerPoint) → refusals settings lines ≡ 0
        → IsPoint (started settings) (history settings (take many lines)) point → IsPointOfLines (take many lines) other
        → (other.bytes ≡ point.bytes) × (other.blocks ≡ point.blocks) }
{}

/// So such a log has one text, with the heap and without: the report of leaks behind its diagnostics, and the sites.
pub fn one_text_where_unrefused()
    ensures leaks { (settings : Settings) (lines : List ReadLine) (all : List Given) (totals : Totals) (text : List ℕ) → refusals settings lines ≡ 0
        → AreHeld all (history settings lines) → TellsHeld lines text → whole_ledger lines text ≡ whole_text Report.Leaks settings lines all totals }
    ensures sites { (settings : Settings) (lines : List ReadLine) (whole : List ℕ) (end left : Bytes) (text other : List ℕ) → refusals settings lines ≡ 0
        → HasReadAll (Some whole) end lines → TellsSites settings lines (Some whole) left text → TellsLedgerSites lines other → other ≡ text }
{}

/// Without a heap a log has one text of its sites, one of its callers, one of what is held over its lines, and one of its heaps by
/// size.
pub fn one_text_without_a_heap()
    ensures sites { (lines : List ReadLine) (text other : List ℕ) → TellsLedgerSites lines text → TellsLedgerSites lines other → text ≡ other }
    ensures callers { (lines : List ReadLine) (text other : List ℕ) → TellsLedgerCallers lines text → TellsLedgerCallers lines other → text ≡ other }
    ensures timeline { (stretches : ℕ) (lines : List ReadLine) (whole : List ℕ) (end left rest : Bytes) (text other : List ℕ) → HasReadAll (Some whole) end lines
        → TellsLedgerTimeline stretches lines (Some whole) left text → TellsLedgerTimeline stretches lines (Some whole) rest other → text ≡ other }
    ensures heaps { (heaps : ℕ) (lines : List ReadLine) (text other : List ℕ) → TellsParts heaps lines text → TellsParts heaps lines other → text ≡ other }
{}

/// A log that one heap refuses nothing is refused nothing on its sure pool, where four things hold there. After any number of its
/// lines at most `most` addresses are held, for which at most `bytes` bytes were asked, each size rounded up. Each line that asks for
/// a block asks for one of a class whose lowest size is at most `size`. The sure pool of these numbers is `pool`. So a log on the
/// sure pool that `fit` tells holds the same as on the greatest pool, and is refused nothing.
pub fn sure_pool_serves_the_log()
    ensures { (settings : Settings) (pool records most bytes size : ℕ) (lines : List ReadLine) → refusals settings lines ≡ 0
        → HoldsAtMost most (history settings lines) → HoldsBytesAtMost bytes (history settings lines) → AllByRecursion (IsOfAtMost size) (acts_of (started settings) (reverse lines))
        → sure_pool most bytes (Some size) ≡ Some pool → are_bad (one_pool pool records) ≡ false → sure_records most ≤ records → refusals (one_pool pool records) lines ≡ 0 }
{}

/// A log that asks for blocks of one size alone, the lowest of a class, is refused nothing on one pool, where three things hold. The
/// pool has at least the bytes of `blocks` of them. The heap has records for as many such blocks as have the bytes of the pool, or
/// two for each of the `blocks`. Without a heap, at most `blocks` addresses are held after any number of lines. So it is for any log
/// whose requests are each rounded up to that size (`rounded_up`), as those at a heap by size are.
pub fn one_size_serves_the_log()
    ensures asked { (blocks size pool records : ℕ) (lines : List ReadLine) → class_size 1 size ≡ Some size → AllByRecursion (AsksForSize size) (ledger_acts (reverse lines))
        → HoldsAtMost blocks (ledger_history lines) → are_bad (one_pool pool records) ≡ false → blocks * size ≤ pool → HasRecords blocks size pool records → refusals (one_pool pool records) lines ≡ 0 }
    ensures rounded { (blocks size pool records : ℕ) (lines : List ReadLine) → class_size 1 size ≡ Some size
        → HoldsAtMost blocks (ledger_history (map (rounded_up size) lines)) → are_bad (one_pool pool records) ≡ false → blocks * size ≤ pool → HasRecords blocks size pool records → refusals (one_pool pool records) (map (rounded_up size) lines) ≡ 0 }
{}

/// The heaps by size that are told of a log serve it. The log of a part (`lines_of_part`) has each request that falls under the part's
/// ranges, for a block of its size, and what is freed or moved of these. One pool of its blocks, with a record for each, refuses none
/// of them: `serves`. Each size that the log was served falls under the ranges of one part, which has at least that size: `all`. No
/// other part has it: `one`. A block of the size that is told of an aligned request holds its bytes at the alignment: `aligned`.
pub fn parts_serve_the_log()
    ensures serves { (heaps first last : ℕ) (lines : List ReadLine) (text : List ℕ) (told : TellsCut heaps (reverse lines) text) → HasPart 0 told.ends first last → can_be_built (told.part first last) ≡ true
        → refusals (heap_for (told.part first last)) (lines_of_part (told.part first last).size first last lines) ≡ 0 }
    ensures all { (heaps size : ℕ) (lines : List ReadLine) (text : List ℕ) (told : TellsCut heaps (reverse lines) text) → Contains (served_classes (reverse lines)) (Some size)
        → (first : ℕ) × (last : ℕ) × HasPart 0 told.ends first last × (is_in first last (Some size) ≡ true) × (size ≤ (told.part first last).size) }
    ensures one { (heaps size first last other_first other_last : ℕ) (lines : List ReadLine) (text : List ℕ) (told : TellsCut heaps (reverse lines) text) → HasPart 0 told.ends first last → HasPart 0 told.ends other_first other_last
        → is_in first last (Some size) ≡ true → is_in other_first other_last (Some size) ≡ true → (other_first ≡ first) × (other_last ≡ last) }
    ensures aligned { (align n size place : ℕ) → class_size align n ≡ Some size → place % unit ≡ 0 → next_multiple_of place align + n ≤ place + size }
{}

/// A heap by size that is told of bounds alone serves all programs within them. It was just created with a record for each of the part's
/// blocks, and given a pool of these. Then no request of a run that holds no more blocks at once, each request rounded up to the part's
/// size, is refused for want of a block or of a record.
pub fn size_parts_are_enough<H: Heaped>()
    ensures { (front base : ℕ) (bounds : PartBounds) (part : Part) (requests : List Request) (answers : List Answer) (old new : Content ℕ) (before after : ℕ) (run : Run H.lacks requests answers old new before after)
        → part_for front bounds ≡ Some part → add_pool base (part_bytes part) (created part.blocks) ≡ Ok old → StaysOfSize part.blocks part.size H.lacks requests answers old new before after run → All IsNotFull answers }
{}
