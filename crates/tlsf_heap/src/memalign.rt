//! memalign: the block picked is split, so that a live block begins at a multiple of an alignment.

ghost use Rattle.std.specs.Prelude.{◌≡◌, ℕ, true, ◌+◌, ◌-◌, ◌%◌, ◌^◌, ◌<◌, ◌≤◌, Some, Err};
ghost use Rattle.std.specs.Int.{next_multiple_of};
ghost use Rattle.tlsf_class.specs.Classes.{unit, greatest_size};
ghost use Rattle.tlsf_store.specs.Records.{vacant_count};
ghost use Rattle.tlsf_heap.specs.Touches.{AtMost, memalign_touches};
ghost use Rattle.tlsf_heap.specs.Content.{IsSize};
ghost use Rattle.tlsf_heap.specs.Memalign.{is_alignment, size_asked, gap_records, memalign, memalign_rounded};
ghost use Rattle.tlsf_heap.specs.Served.{IsServed};
ghost use Rattle.tlsf_heap.specs.Inner.Following.{Stands};
ghost use Rattle.tlsf_heap.specs.Inner.Nodes.{InUse};
ghost use Rattle.tlsf_heap.specs.Inner.At.{At, StandsAt, at_gapped};
ghost use Rattle.tlsf_heap.specs.Inner.Spans.{IsRead, IsLeft};
ghost use Rattle.tlsf_heap.specs.Inner.Answers.{AnswersOver, IsPick};

use crate::chains::split;
use crate::free::enter;
use crate::malloc::{pick, split_rest, take_whole};
use crate::span::Span;
use crate::{Ptr, Refusal};
use tlsf_class::{Class, UNIT, round};
use tlsf_store::{Slot, State, Store};

/// The greatest alignment, in bytes.
const GREATEST_ALIGNMENT: u64 = 1 << 29;

/// A live block of `n` bytes, rounded up to the unit, that begins at a multiple of the alignment. At most 35
/// touches.
///
/// # Errors
///
/// As `Heap::memalign`.
pub(crate) fn memalign(store: &mut Store, align: u64, n: u64) -> Result<Ptr, Refusal>
    requires { Stands store.old.cells }
    ensures { AnswersOver result (IsServed (λ slot. memalign slot align n)) (λ refusal old. (slot : ℕ) → memalign slot align n old ≡ Err refusal) memalign_touches store.old store.new }
{
    if !is_alignment(align) {
        return Err(Refusal::BadAlign);
    }
    if n == 0 {
        return Err(Refusal::ZeroSize);
    }
    let asked = round(n).ok_or(Refusal::NoFit)?;
    let align = align as u32;
    let class = pick(store, size_asked(align, asked)).ok_or(Refusal::NoFit)?;
    let slot = store.first(class);
    split_aligned(store, class, slot, align, asked)
}

/// The block picked, of this class, is split: a live block of `asked` bytes begins at the least multiple
/// of the alignment at or above its place. At most 31 touches.
///
/// # Errors
///
/// `TableFull` where the gap and what is left behind need more records than are vacant; then nothing is changed.
fn split_aligned(
    store: &mut Store,
    class: Class,
    slot: Slot,
    align: u32,
    asked: u32,
) -> Result<Ptr, Refusal>
    requires stands { Stands store.old.cells }
    requires is { is_alignment align ≡ true }
    requires size { IsSize asked }
    requires picked { IsPick (size_asked align asked) class slot store.old.cells }
    ensures { AnswersOver result (IsServed (λ owner. memalign_rounded owner align (Some asked))) (λ refusal old. (owner : ℕ) → memalign_rounded owner align (Some asked) old ≡ Err refusal) 31 store.old store.new }
{
    let block = store.read_used(slot);
    let start = start_of(block.place, align);
    let gap = start - block.place;
    let left = block.size - gap;
    if store.vacant() < records_for(gap) + records_for(left - asked) {
        return Err(Refusal::TableFull);
    }
    take_whole(store, class, slot, &block);
    let whole = Span::of(slot, &block);
    let live = leave_gap(store, &whole, gap);
    let behind = Span {
        slot: live,
        place: start,
        size: left,
        next: block.next,
    };
    split_rest(store, &behind, asked);
    Ok(Ptr::new(start, live.0))
}

/// How many records a free block of these bytes needs: none where there are no bytes.
fn records_for(bytes: u32) -> u32
    ensures { result ≡ gap_records bytes }
{
    if bytes == 0 { 0 } else { 1 }
}

/// Whether it is an alignment, in bytes, that `memalign` takes: a power of two from 1 to 2^29.
pub fn is_alignment(align: u64) -> bool
    ensures { result ≡ is_alignment align }
{
    align <= GREATEST_ALIGNMENT && align.is_power_of_two()
}

/// How many bytes are asked of the lists for `bytes`, so that each block of them holds these from some
/// multiple of the alignment on.
pub(crate) fn size_asked(align: u32, bytes: u32) -> u32
    requires few { bytes ≤ greatest_size }
    requires is { is_alignment align ≡ true }
    ensures { result ≡ size_asked align bytes }
{
    bytes + align.saturating_sub(UNIT)
}

/// The least multiple of the alignment at or above a place.
pub(crate) fn start_of(place: u32, align: u32) -> u32
    requires some { 0 < align }
    requires fits { next_multiple_of place align < 2 ^ 32 }
    ensures { result ≡ next_multiple_of place align }
{
    let left = place % align;
    if left == 0 {
        place
    } else {
        place + (align - left)
    }
}

/// A live block keeps what is behind its first bytes, under another slot. These are a free block, first in
/// its class's list; where there are none, nothing changes. The answer is the live block's slot. At most 12
/// touches.
fn leave_gap(store: &mut Store, block: &Span, bytes: u32) -> Slot
    requires stands { (at : At) × StandsAt block.now.slot InUse store.old.cells at }
    requires read { IsRead block.now store.old.cells.records }
    requires less { bytes < block.now.size }
    requires whole { bytes % unit ≡ 0 }
    requires room { 0 < bytes → 0 < vacant_count store.old.cells.records }
    ensures leads { (at : At) → StandsAt block.now.slot InUse store.old.cells at → StandsAt result InUse store.new.cells (at_gapped result bytes at) }
    ensures slot { IsLeft bytes block.now.slot result store.old.cells.records }
    ensures touches { AtMost 12 store.old.touches store.new.touches }
{
    if bytes == 0 {
        return block.slot;
    }
    let Some(live) = store.take_vacant() else {
        unreachable!()
    };
    split(store, block, live, State::Live, None, bytes);
    enter(store, block.slot, bytes);
    live
}
