//! How much memory is always enough for a program, without a log of it.

ghost use Rattle.std.specs.Prelude.{◌≡◌, ◌≤◌, unwrap_or};
ghost use Rattle.tlsf_class.specs.Rounding.{round};
ghost use Rattle.tlsf_heap.specs.Sizing.{class_size, sure_pool};
ghost use Rattle.mtrace_replay.specs.Moment.{asked_size};
ghost use Rattle.mtrace_replay.specs.Size.{align_of, largest_of, front_bytes, blocks_bytes, one_size, rounded_pool, bounds_text, RunsSize};

use crate::held::asked::{asked_size, rounded_bytes};
use crate::held::line_text::LineText;
use crate::parts::text::PartOf;
use crate::runs::enough::sure_records;
use crate::runs::fit_text::{push_records, push_size_line};
use crate::runs::flush::flush_behind;
use crate::runs::status::{RunFault, Status};
use arrayvec::ArrayVec;
use mtrace_log::{Sink, put_all};
use tlsf_class::{GREATEST_SIZE, UNIT, round};
use tlsf_heap::{class_size, is_alignment, sure_pool};

/// What a program keeps to, whatever it asks for and in whatever order.
#[derive(Clone, Copy, Debug, PartialEq, Eq)]
pub struct Bounds {
    /// The most blocks that are live at once.
    pub blocks: u32,
    /// The largest size of a request, in bytes.
    pub largest: u64,
    /// The most bytes in live blocks together, where that is known.
    pub bytes: Option<u64>,
    /// The greatest alignment of a request, in bytes, where there is one.
    pub align: Option<u64>,
    /// How many bytes more each request has: those that a heap keeps in front of each block.
    pub front: u64,
}

/// The alignment of the requests: 1 where none is told.
fn align_of(bounds: Bounds) -> u64
    ensures { result ≡ align_of bounds }
{
    bounds.align.unwrap_or(1)
}

/// The largest request with its bytes more.
fn largest_of(bounds: Bounds) -> u64
    ensures { result ≡ largest_of bounds }
{
    bounds.largest.saturating_add(bounds.front)
}

/// The bytes in live blocks as told, in whole units. Bytes above the greatest size are as told: no pool has as many.
fn whole_bytes(bytes: u64) -> u64
    ensures { result ≡ unwrap_or (round (asked_size bytes)) bytes }
{
    match round(asked_size(bytes)) {
        Some(whole) => u64::from(whole),
        None => bytes,
    }
}

/// By how many bytes more a block grows at most.
fn front_bytes(front: u64) -> u64
    ensures value { result ≡ front_bytes front }
    ensures small { result ≤ GREATEST_SIZE }
{
    if front == 0 { 0 } else { rounded_bytes(front) }
}

/// The bytes in live blocks, in whole units: those told, and by how many each block grows, or those of as many blocks of the
/// largest size.
fn bytes_of(bounds: Bounds) -> u64
    ensures { result ≡ blocks_bytes bounds bounds.bytes }
{
    let blocks = u64::from(bounds.blocks);
    match bounds.bytes {
        Some(bytes) => whole_bytes(bytes).saturating_add(blocks * front_bytes(bounds.front)),
        None => blocks * rounded_bytes(largest_of(bounds)),
    }
}

/// The class size of the requests.
fn size_of(bounds: Bounds) -> Option<u32>
    ensures { result ≡ class_size (align_of bounds) (largest_of bounds) }
{
    class_size(align_of(bounds), largest_of(bounds))
}

/// The bytes of one pool that is always enough.
fn sure_of(bounds: Bounds) -> Option<u64>
    ensures { result ≡ sure_pool bounds.blocks (blocks_bytes bounds bounds.bytes) (class_size (align_of bounds) (largest_of bounds)) }
{
    sure_pool(u64::from(bounds.blocks), bytes_of(bounds), size_of(bounds))
}

/// The size of all blocks, where each request is rounded up to the class size of the largest. `None` where there is no such class,
/// or an alignment above the unit is asked for.
fn one_size_of(bounds: Bounds) -> Option<u32>
    ensures { result ≡ one_size bounds }
{
    if align_of(bounds) > u64::from(UNIT) {
        return None;
    }
    size_of(bounds)
}

/// The bytes of one pool that is always enough for blocks of one size alone. `None` where no pool is so large.
fn rounded_of(bounds: Bounds) -> Option<u64>
    ensures { result ≡ rounded_pool bounds.blocks (one_size bounds) }
{
    let size = one_size_of(bounds)?;
    let blocks = u64::from(bounds.blocks);
    PartOf { blocks, size }.pool()
}

/// The records with their table, the pool that is always enough, and the one for blocks of one size.
fn bounds_text(bounds: Bounds) -> LineText
    ensures { result.items ≡ bounds_text bounds }
{
    let mut text = ArrayVec::new();
    push_records(&mut text, sure_records(u64::from(bounds.blocks)));
    push_size_line(&mut text, b"sure pool: ", sure_of(bounds));
    push_size_line(&mut text, b"rounded pool: ", rounded_of(bounds));
    text
}

/// Writes how many records, and how large a pool, are always enough for a program that keeps to these bounds, and flushes. Each
/// request has its bytes more in each of these numbers.
///
/// # Errors
///
/// `BadSettings` exactly where the alignment isn't a power of two from 1 to 2^29: then nothing is written. `Write` where the
/// writer fails: then a beginning of the text is written.
pub fn run_size<W: Sink>(writer: &mut W, bounds: Bounds) -> Result<Status, RunFault>
    ensures { RunsSize bounds W.shown result writer.old writer.new }
{
    if !is_alignment(align_of(bounds)) {
        return Err(RunFault::BadSettings);
    }
    let put = put_all(writer, bounds_text(bounds).as_slice());
    flush_behind(writer, put, Status::Clean)
}
