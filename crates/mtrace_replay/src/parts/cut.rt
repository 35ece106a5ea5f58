//! How neighbouring ranges are joined into parts: the way of the least bytes.

ghost use Rattle.std.specs.Prelude.{◌≡◌, ℕ, suc, ◌+◌, ◌*◌, ◌^◌, ◌<◌, ◌≤◌, [], length, slice_index_or, true, false, Some, None, IfOk};
ghost use Rattle.std.specs.List.{All};
ghost use Rattle.mtrace_replay.specs.declared.parts.span.Span.{Span};
ghost use Rattle.mtrace_replay.specs.Parts.{size_ranges, Part, unbuilt, IsLeastCut};
ghost use Rattle.mtrace_replay.specs.Cuts.{part_of, cut_order, span_bytes, IsLesser, IsJoined, IsSmall, ArePartsIn, IsBest, AreBest};

use super::range::RANGES;
use super::span::Span;
use arrayvec::ArrayVec;
use std::alloc::{AllocError, Global};
use std::cmp::Ordering;
use tlsf_class::GREATEST_SIZE;
use tlsf_store::MOST_RECORDS;

/// The most parts.
pub(crate) const MOST_HEAPS: usize = 8;

/// A cut of the ranges from one on: the last range of each part, the bytes of all, and how many of them can't be built.
#[derive(Drop)]
pub(crate) struct Cut {
    pub(crate) ends: ArrayVec<u8, MOST_HEAPS>,
    pub(crate) bytes: u128,
    pub(crate) unbuilt: u8,
}

/// Cuts are compared by how many of their parts can't be built, then by their bytes, then by how many parts they make, and then by
/// where these end.
fn order(one: &Cut, other: &Cut) -> Ordering
    ensures { result ≡ cut_order one.now other.now }
{
    let by_unbuilt = one.unbuilt.cmp(&other.unbuilt);
    let by_bytes = one.bytes.cmp(&other.bytes);
    let by_count = one.ends.len().cmp(&other.ends.len());
    let by_ends = one.ends.as_slice().cmp(other.ends.as_slice());
    by_unbuilt.then(by_bytes.then(by_count.then(by_ends)))
}

/// The lesser of two cuts, where there are two.
fn lesser(one: Option<Cut>, other: Option<Cut>) -> Option<Cut>
    ensures { IsLesser one other result }
{
    let Some(first) = one else {
        return other;
    };
    let Some(second) = other else {
        return Some(first);
    };
    if order(&first, &second).is_gt() {
        return Some(second);
    }
    Some(first)
}

/// The bytes of the part that serves the ranges of a span.
fn bytes_of(span: &Span) -> u128
    ensures is { result ≡ span_bytes span.now }
    ensures most { result ≤ 2 ^ 96 }
{
    u128::from(span.most) * u128::from(span.size)
}

/// How many heaps can't be built for the part that serves the ranges of a span: 0 or 1.
fn unbuilt_of(span: &Span) -> u8
    ensures is { result ≡ unbuilt (part_of span.now) }
    ensures most { result ≤ 1 }
{
    if bytes_of(span) > u128::from(GREATEST_SIZE) || span.most > u64::from(MOST_RECORDS) {
        return 1;
    }
    0
}

/// The cut whose first part serves the ranges of a span, before a cut of the ranges behind them. `None` where there is none of these.
fn joined(span: &Span, rest: &Option<Cut>) -> Option<Cut>
    requires small { IsSmall 7 rest.now }
    ensures is { IsJoined span.now rest.now result }
    ensures bytes { span_bytes span.now ≤ 2 ^ 96 }
{
    let Some(rest) = rest else {
        return None;
    };
    let mut ends = ArrayVec::new();
    ends.push(span.last);
    let _fits = ends.try_extend_from_slice(rest.ends.as_slice());
    Some(Cut {
        ends,
        bytes: bytes_of(span) + rest.bytes,
        unbuilt: unbuilt_of(span) + rest.unbuilt,
    })
}

/// Whether no request falls under the ranges from this one on.
fn is_unused_from(spans: &[Span], first: u8) -> bool
    ensures unused { result ≡ true → All (λ span. span.first ≡ first → span.size ≡ 0) spans.now }
    ensures used { result ≡ false → (k : ℕ) × (k < length spans.now) × ((d : Span) → ((slice_index_or spans.now k d).first ≡ first) × (0 < (slice_index_or spans.now k d).size)) }
{
    for span in spans {
        if span.first == first && span.size > 0 {
            return false;
        }
    }
    true
}

/// The cut of no part.
fn no_parts() -> Cut
    ensures ends { result.ends.items ≡ [] }
    ensures bytes { result.bytes ≡ 0 }
    ensures unbuilt { result.unbuilt ≡ 0 }
{
    Cut {
        ends: ArrayVec::new(),
        bytes: 0,
        unbuilt: 0,
    }
}

/// The least cut of the ranges from one on, by the least cuts of those from each on, which have a part less. `None` where there is
/// none of so few parts.
fn best_from(spans: &[Span], rests: &[Option<Cut>], first: u8) -> Option<Cut>
    requires small { All (IsSmall 7) rests.now }
    ensures best { (part : ℕ → ℕ → Part) (most : ℕ) → ArePartsIn part spans.now → AreBest part most rests.now → IsBest part (suc most) first result }
    ensures small { (most : ℕ) → All (IsSmall most) rests.now → IsSmall (suc most) result }
{
    let mut best = None;
    if is_unused_from(spans, first) {
        best = Some(no_parts());
    }
    for span in spans {
        if span.first != first {
            continue;
        }
        let Some(rest) = rests.get(usize::from(span.last) + 1) else {
            continue;
        };
        best = lesser(best, joined(span, rest));
    }
    best
}

/// The cut of no part of the ranges from this one on. `None` where a request falls under one of them.
fn empty_from(spans: &[Span], first: u8) -> Option<Cut>
    ensures best { (part : ℕ → ℕ → Part) → ArePartsIn part spans.now → IsBest part 0 first result }
    ensures small { IsSmall 0 result }
{
    if is_unused_from(spans, first) {
        return Some(no_parts());
    }
    None
}

/// The cuts of no part, of the ranges from each on.
fn first_row(alloc: Global, spans: &[Span]) -> Result<Vec<Option<Cut>>, AllocError>
    ensures best { IfOk result (λ row. (part : ℕ → ℕ → Part) → ArePartsIn part spans.now → AreBest part 0 row.items) }
    ensures small { IfOk result (λ row. All (IsSmall 0) row.items) }
    ensures len { IfOk result (λ row. length row.items ≡ suc size_ranges) }
{
    let mut row = Vec::new(alloc);
    for first in 0..RANGES + 1 {
        row.push(empty_from(spans, first))?;
    }
    Ok(row)
}

/// The least cuts of the ranges from each on, by those that have a part less.
fn next_row(
    alloc: Global,
    spans: &[Span],
    rests: &[Option<Cut>],
) -> Result<Vec<Option<Cut>>, AllocError>
    requires small { All (IsSmall 7) rests.now }
    ensures best { IfOk result (λ row. (part : ℕ → ℕ → Part) (most : ℕ) → ArePartsIn part spans.now → AreBest part most rests.now → AreBest part (suc most) row.items) }
    ensures small { IfOk result (λ row. (most : ℕ) → All (IsSmall most) rests.now → All (IsSmall (suc most)) row.items) }
    ensures len { IfOk result (λ row. length row.items ≡ suc size_ranges) }
{
    let mut row = Vec::new(alloc);
    for first in 0..RANGES + 1 {
        row.push(best_from(spans, rests, first))?;
    }
    Ok(row)
}

/// The least cut of all ranges that makes at most `most` parts.
///
/// # Errors
///
/// `AllocError` where memory is refused.
pub(crate) fn least_cut(alloc: Global, spans: &[Span], most: u32) -> Result<Cut, AllocError>
    requires some { 0 < most }
    requires few { most ≤ 8 }
    requires parts { (part : ℕ → ℕ → Part) × ArePartsIn part spans.now }
    ensures least { IfOk result (λ cut. (part : ℕ → ℕ → Part) → ArePartsIn part spans.now → IsLeastCut part most 0 cut.ends.items) }
{
    let mut row = first_row(alloc, spans)?;
    for _fewer in 0..most {
        row = next_row(alloc, spans, row.as_slice())?;
    }
    match row.swap_remove(0) {
        Some(cut) => Ok(cut),
        None => unreachable!(),
    }
}
