//! How much memory is always enough for heaps by size, without a log.

ghost use Rattle.std.specs.Prelude.{◌≡◌, ◌≤◌, length, map, option_map, None, IfSome, IfOk, IfErr, if◌then◌else◌};
ghost use Rattle.mtrace_replay.specs.PartsText.{part_in};
ghost use Rattle.mtrace_replay.specs.SizeParts.{part_for, parts_for, are_bad_parts, sized_parts_text, RunsSizeParts};
ghost use Rattle.mtrace_replay.specs.Reporting.{PutsAndFlushes};

use crate::parts::text::{PartOf, put_behind};
use crate::runs::flush::flush_behind;
use crate::runs::status::{RunFault, Status};
use arrayvec::ArrayVec;
use mtrace_log::Sink;
use tlsf_heap::class_size;

/// What one heap by size serves.
#[derive(Clone, Copy, Debug, PartialEq, Eq)]
pub struct PartBounds {
    /// The most of its blocks that are live at once.
    pub blocks: u32,
    /// The largest size of its requests, in bytes.
    pub largest: u64,
}

/// The part for these requests. `None` where there is no such class.
fn part_for(front: u64, bounds: PartBounds) -> Option<PartOf>
    ensures { option_map part_in result ≡ part_for front bounds }
{
    let size = class_size(1, bounds.largest.saturating_add(front))?;
    let blocks = u64::from(bounds.blocks);
    Some(PartOf { blocks, size })
}

/// The parts for all of them. `None` where one has none.
fn parts_for(front: u64, all: &[PartBounds]) -> Option<ArrayVec<PartOf, 8>>
    requires { length all.now ≤ 8 }
    ensures { option_map (λ parts. map part_in parts.items) result ≡ parts_for front all.now }
{
    let mut parts = ArrayVec::new();
    for bounds in all {
        parts.push(part_for(front, *bounds)?);
    }
    Some(parts)
}

/// The parts for all of them. `None` where they are bad.
fn good_parts(front: u64, all: &[PartBounds]) -> Option<ArrayVec<PartOf, 8>>
    ensures few { IfSome result (λ parts. length parts.items ≤ 8) }
    ensures parts { option_map (λ parts. map part_in parts.items) result ≡ (if are_bad_parts front all.now then None else parts_for front all.now) }
{
    if all.is_empty() || all.len() > 8 {
        return None;
    }
    parts_for(front, all)
}

/// Puts the parts and their sums, and flushes.
fn tell_parts<W: Sink>(writer: &mut W, parts: &[PartOf]) -> Result<Status, RunFault>
    requires { length parts.now ≤ 8 }
    ensures told { PutsAndFlushes result (sized_parts_text (map part_in parts.now)) (W.shown writer.old) (W.shown writer.new) }
    ensures clean { IfOk result (λ status. status ≡ Status.Clean) }
    ensures fault { IfErr result (λ fault. fault ≡ RunFault.Write) }
{
    let put = put_behind(writer, parts);
    flush_behind(writer, put, Status::Clean)
}

/// Writes a line for each heap by size, with how large a pool is always enough for it, and the sums over them, and flushes. Each
/// request has `front` bytes more, and is to be rounded up to the largest of its heap.
///
/// # Errors
///
/// `BadSettings` exactly where there are no heaps, more than 8, or a size without a class: then nothing is written. `Write` where
/// the writer fails: then a beginning of the text is written.
pub fn run_size_parts<W: Sink>(
    writer: &mut W,
    front: u64,
    all: &[PartBounds],
) -> Result<Status, RunFault>
    ensures { RunsSizeParts front all.now W.shown result writer.old writer.new }
{
    match good_parts(front, all) {
        Some(parts) => tell_parts(writer, parts.as_slice()),
        None => Err(RunFault::BadSettings),
    }
}
