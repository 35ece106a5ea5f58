//! An image is checked, and its blocks are told.

ghost use Rattle.std.specs.Prelude.{◌≡◌, ◌<◌, ◌≤◌, IfOk};
ghost use Rattle.tlsf_heap.specs.Bare.{bare};
ghost use Rattle.mtrace_replay.specs.Reporting.{PutsAndFlushes};
ghost use Rattle.mtrace_replay.specs.Texts.{walk_report};
ghost use Rattle.tlsf_tool.specs.Checking.{Pulls, ReadsImage, ChecksImage, IsLoaded, image_in, rule_text, loaded_text, loaded_status};
ghost use Rattle.tlsf_tool.specs.Statuses.{EndsAs};

use crate::asked::{ImageReport, ToolFault};
use crate::service::{end_run, put_text};
use mtrace_log::{Failed, Sink, Source};
use mtrace_replay::{RunFault, Status, put_walk};
use std::alloc::{AllocError, Global};
use tlsf_heap::{Heap, ImageFault, Rule};

/// One byte more than the longest file of an image has.
const MOST_READ: usize = 1_050_361;

/// What `tlsf_save` of c/tlsf.h puts first.
const SAVED: &[u8] = b"TSFSIMG1";

/// How many bytes it puts in front of an image.
const SAVED_BYTES: usize = 280;

/// How many bytes are asked for at once.
const PIECE: usize = 4_096;

/// Asks the reader once for as many bytes of a piece as there is room, and answers how many it gave.
fn pull_some<R: Source>(
    reader: &mut R,
    piece: &mut [u8; PIECE],
    room: usize,
) -> Result<usize, Failed>
    requires some { 0 < room }
    requires few { room ≤ PIECE }
    ensures { Pulls result piece.new room (R.shown reader.old) (R.shown reader.new) }
{
    reader.pull(&mut piece[..room])
}

/// Reads an image: all bytes of the reader, or, where they are more than an image can have, the first of them. It takes
/// memory once.
///
/// # Errors
///
/// `Read` where the reader failed; `OutOfMemory` where memory is refused.
fn read_image<R: Source>(alloc: Global, reader: &mut R) -> Result<Vec<u8>, RunFault>
    ensures { ReadsImage (λ bytes. bytes.items) result (R.shown reader.old) (R.shown reader.new) }
{
    let Ok(mut bytes) = Vec::with_capacity(alloc, MOST_READ) else {
        return Err(RunFault::OutOfMemory);
    };
    let mut piece = [0; PIECE];
    while bytes.len() < MOST_READ {
        let room = PIECE.min(MOST_READ - bytes.len());
        match pull_some(reader, &mut piece, room) {
            Ok(0) => return Ok(bytes),
            Ok(count) => {
                if bytes.extend_from_slice(&piece[..count]).is_err() {
                    return Err(RunFault::OutOfMemory);
                }
            }
            Err(Failed) => return Err(RunFault::Read),
        }
    }
    Ok(bytes)
}

/// The image among the bytes of a file: all of them, or those behind what `tlsf_save` puts in front.
fn image_in(bytes: &[u8]) -> &[u8]
    ensures { result.now ≡ image_in bytes.now }
{
    if bytes.len() < SAVED_BYTES || !bytes.starts_with(SAVED) {
        return bytes;
    }
    &bytes[SAVED_BYTES..]
}

/// The heap of an image, or the first rule that the image breaks, unless memory is refused.
fn loaded(alloc: Global, image: &[u8]) -> Result<Result<Heap, Rule>, AllocError>
    ensures { IfOk result (IsLoaded image.now) }
{
    match Heap::load_image(alloc, image) {
        Ok(heap) => Ok(Ok(heap)),
        Err(ImageFault::Broken(rule)) => Ok(Err(rule)),
        Err(_) => Err(AllocError),
    }
}

/// The line of an image that breaks this rule first.
fn rule_text(rule: Rule) -> &'static [u8]
    ensures { result.now ≡ rule_text rule }
{
    match rule {
        Rule::Magic => b"broken: V1\n",
        Rule::Length => b"broken: V2\n",
        Rule::Pools => b"broken: V3\n",
        Rule::UnusedPools => b"broken: V4\n",
        Rule::States => b"broken: V5\n",
        Rule::Links => b"broken: V6\n",
        Rule::Chains => b"broken: V7\n",
        Rule::Cover => b"broken: V8\n",
        Rule::OnChains => b"broken: V9\n",
        Rule::Merged => b"broken: V10\n",
        Rule::Lists => b"broken: V11\n",
        Rule::OnLists => b"broken: V12\n",
    }
}

/// Puts the pools of a heap, each with its blocks, and flushes.
fn put_blocks<W: Sink>(writer: &mut W, mut heap: Heap) -> Result<(), Failed>
    ensures { PutsAndFlushes result (walk_report (bare heap.content)) (W.shown writer.old) (W.shown writer.new) }
{
    put_walk(writer, &mut heap)?;
    writer.flush()
}

/// Puts what is told of an image, and flushes.
fn put_loaded<W: Sink>(
    writer: &mut W,
    report: ImageReport,
    loaded: Result<Heap, Rule>,
) -> Result<(), Failed>
    ensures { PutsAndFlushes result (loaded_text report loaded) (W.shown writer.old) (W.shown writer.new) }
{
    match (loaded, report) {
        (Ok(_), ImageReport::Check) => put_text(writer, b"ok\n"),
        (Ok(heap), ImageReport::Walk) => put_blocks(writer, heap),
        (Err(rule), _) => put_text(writer, rule_text(rule)),
    }
}

/// Whether an image is clean.
fn status_of(loaded: &Result<Heap, Rule>) -> Status
    ensures { result ≡ loaded_status loaded.now }
{
    match loaded {
        Ok(_) => Status::Clean,
        Err(_) => Status::Found,
    }
}

/// Reads an image, and writes what is told of it. Answers whether it breaks a rule.
fn checked<R: Source, W: Sink>(
    alloc: Global,
    report: ImageReport,
    reader: &mut R,
    writer: &mut W,
) -> Result<Status, RunFault>
    ensures { ChecksImage report W.shown result (R.shown reader.old) (R.shown reader.new) writer.old writer.new }
{
    let bytes = read_image(alloc, reader)?;
    let Ok(loaded) = loaded(alloc, image_in(bytes.as_slice())) else {
        return Err(RunFault::OutOfMemory);
    };
    let status = status_of(&loaded);
    match put_loaded(writer, report, loaded) {
        Ok(()) => Ok(status),
        Err(_) => Err(RunFault::Write),
    }
}

/// Checks the image that the reader has left, by `Heap::load_image`, and tells what is asked of it: whether it can be loaded, or
/// its blocks, by `put_walk`. Where it breaks a rule, the first is told instead. The image is of `save_image`, or of `tlsf_save` of
/// c/tlsf.h, of which what stands in front isn't looked at. Puts the line of a fault to `errors`, whose own fault doesn't matter.
/// Answers the status that the program ends with. It is 0 where the image can be loaded, and 1 where it breaks a rule. It is 3 where
/// the reader or the writer failed, and 4 where memory was refused.
pub fn check_image<R: Source, W: Sink, E: Sink>(
    alloc: Global,
    report: ImageReport,
    reader: &mut R,
    writer: &mut W,
    errors: &mut E,
) -> u8
    ensures { EndsAs (λ outcome. ChecksImage report W.shown outcome (R.shown reader.old) (R.shown reader.new) writer.old writer.new)
        result errors.old errors.new }
{
    end_run(errors, checked(alloc, report, reader, writer))
}
