//! The spans of all neighbouring ranges, in rows.

ghost use Rattle.std.specs.Prelude.{◌≡◌, ℕ, ◌+◌, ◌-◌, ◌^◌, ◌<◌, ◌≤◌, ◌++◌, slice_index_or, length, map, Some, OnOk, IfOk};
ghost use Rattle.std.specs.List.{All};
ghost use Rattle.mtrace_replay.specs.Parts.{size_ranges};
ghost use Rattle.mtrace_replay.specs.Span.{with_block, released, one_more, one_less};
ghost use Rattle.mtrace_replay.specs.declared.parts.span.Span.{Span as OneSpan};
ghost use Rattle.mtrace_replay.specs.SpanRows.{ChangesBetween, blank_row, blank_rows};

use super::range::RANGES;
use super::span::Span;
use std::alloc::{AllocError, Global};
use std::marker::Model;

/// Adds a row: the spans from a range on, to each range from there on.
///
/// # Errors
///
/// `AllocError` where memory is refused.
fn push_row(spans: &mut Vec<Span>, first: u8) -> Result<(), AllocError>
    requires { first < size_ranges }
    ensures { OnOk result (spans.new.items ≡ spans.old.items ++ blank_row (size_ranges - first) first first) }
{
    for last in first..RANGES {
        spans.push(Span {
            first,
            last,
            live: 0,
            most: 0,
            size: 0,
        })?;
    }
    Ok(())
}

/// A block of this size is held in each of these spans.
fn add_between(spans: &mut [Span], from: usize, to: usize, size: u32)
    requires within { to ≤ length spans.old }
    requires few { (at : ℕ) (none : OneSpan) → from ≤ at → at < to → (slice_index_or spans.old at none).live + 1 < 2 ^ 64 }
    ensures { ChangesBetween (one_more size) from to spans.old spans.new }
{
    for at in from..to {
        spans[at] = spans[at].with_one(size);
    }
}

/// A block less is held in each of these spans.
fn remove_between(spans: &mut [Span], from: usize, to: usize)
    requires within { to ≤ length spans.old }
    ensures { ChangesBetween one_less from to spans.old spans.new }
{
    for at in from..to {
        spans[at] = spans[at].without_one();
    }
}

/// The spans of all neighbouring ranges. In a row stand those from one range on, by their last one: so those that have a range are
/// the ends of the first rows.
#[derive(Drop)]
pub(crate) struct SpanRows {
    all: Vec<Span>,
}

impl Model for SpanRows {
    ghost use Rattle.std.specs.Prelude.{List};
    ghost use Rattle.mtrace_replay.specs.declared.parts.span.Span.{Span as OneSpan};
    ghost use Rattle.mtrace_replay.specs.Parts.{size_ranges};
    ghost use Rattle.mtrace_replay.specs.SpanRows.{AreRows};

    ghost Value = { List OneSpan };

    ghost view = { λ s. s.all.items };

    ghost invariant = { λ s. AreRows size_ranges 0 s.all.items };
}

impl SpanRows {
    /// No block is held, nor was.
    ///
    /// # Errors
    ///
    /// `AllocError` where memory is refused.
    pub(crate) fn new(alloc: Global) -> Result<SpanRows, AllocError>
        ensures { IfOk result (λ rows. rows ≡ blank_rows size_ranges 0) }
    {
        let mut all = Vec::new(alloc);
        for first in 0..RANGES {
            push_row(&mut all, first)?;
        }
        Ok(SpanRows { all })
    }

    /// A block of this size, in this range, is held.
    pub(crate) fn add_block(&mut self, range: u8, size: u32)
        requires few { All (λ span. span.live + 1 < 2 ^ 64) self.old }
        ensures { self.new ≡ map (with_block range size) self.old }
    {
        let range = range.min(RANGES);
        let mut row = 0;
        for first in 0..RANGES.min(range + 1) {
            let end = row + usize::from(RANGES - first);
            let from = row + usize::from(range - first);
            add_between(self.all.as_mut_slice(), from, end, size);
            row = end;
        }
    }

    /// A block in this range is held no more.
    pub(crate) fn remove_block(&mut self, range: u8)
        ensures { self.new ≡ map (released (Some range)) self.old }
    {
        let range = range.min(RANGES);
        let mut row = 0;
        for first in 0..RANGES.min(range + 1) {
            let end = row + usize::from(RANGES - first);
            let from = row + usize::from(range - first);
            remove_between(self.all.as_mut_slice(), from, end);
            row = end;
        }
    }

    /// The spans.
    pub(crate) fn as_slice(&self) -> &[Span]
        ensures { result.now ≡ self.now }
    {
        self.all.as_slice()
    }
}
