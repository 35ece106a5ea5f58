//! What one line does to the heap and to what is held.

ghost use Rattle.std.specs.Prelude.{◌≡◌, ◌≢◌, ◌+◌, ◌<◌, ◌&&◌, not, is_some, true, [], Some, None, ◌==◌};
ghost use Rattle.tlsf_heap.specs.Content.{blocks_of, size_at};
ghost use Rattle.tlsf_heap.specs.Free.{is_live};
ghost use Rattle.tlsf_heap.specs.Touches.{AtMost};
ghost use Rattle.tlsf_heap.specs.Realloc.{realloc};
ghost use Rattle.mtrace_replay.specs.Index.{held_at, IsFound, TellsWhether};
ghost use Rattle.mtrace_replay.specs.Moment.{asked_size, asked_block, allocation, release, doing, move, renewal, plan};
ghost use Rattle.mtrace_replay.specs.Step.{view, held_given, all_given, Replays, AsksBlock, GivesBlock, Takes, IsUnder, AreLive};

use crate::heap::holder::Holder;
use crate::heap::index::{Index, LookUp};
use crate::held::asked::asked_size;
use crate::held::diagnostic::{Diagnostic, Kind};
use crate::held::entry::{Entry, entry_of};
use crate::held::findings::Findings;
use mtrace_log::{Addr, Event, LentLocation, LineFault};
use std::alloc::AllocError;
use tlsf_heap::{Heaped, Ptr, Refusal};

/// Where the live block ends, as a place.
#[inline(always)]
fn end_of_block<H: Heaped>(heap: &mut H, ptr: Ptr) -> u64
    requires live { is_live (λ slot. slot == ptr.slot) ptr.place (blocks_of (H.content heap.old).pools) ≡ true }
    ensures end { result ≡ ptr.place + size_at ptr.place (blocks_of (H.content heap.old).pools) }
    ensures unchanged { H.content heap.new ≡ H.content heap.old }
    ensures bound { AtMost 4 (H.touches heap.old) (H.touches heap.new) }
{
    match heap.block_size(ptr) {
        Ok(bytes) => u64::from(ptr.place()) + u64::from(bytes),
        Err(_) => unreachable!(),
    }
}

/// A block that the heap gave, and where it ends, as a place.
#[derive(Clone, Copy)]
struct Block {
    ptr: Ptr,
    end: u64,
}

/// Asks for a block of at least `n` bytes, at a multiple of an alignment where there is one.
#[inline(always)]
fn ask_block<H: Heaped>(heap: &mut H, align: Option<Addr>, n: u64) -> Result<Ptr, Refusal>
    ensures asks { AsksBlock (view H.content H.touches H.lacks) (λ slot. asked_block slot align n (H.content heap.old))
        (λ ptr. ptr.place) (λ slot. ⊥) (λ ptr. ptr) result heap.old heap.new }
    ensures bound { AtMost 160 (H.touches heap.old) (H.touches heap.new) }
{
    match align {
        None => heap.malloc(n),
        Some(align) => heap.memalign(align.value(), n),
    }
}

/// The block that was asked for, and where it ends.
#[inline(always)]
fn new_block<H: Heaped>(heap: &mut H, align: Option<Addr>, n: u64) -> Result<Block, Refusal>
    ensures { GivesBlock (view H.content H.touches H.lacks) 164 (λ slot. asked_block slot align n (H.content heap.old))
        (λ ptr. ptr.place) (λ slot. ⊥) result heap.old heap.new }
{
    heap.keeps_good();
    let ptr = ask_block(heap, align, n)?;
    let end = end_of_block(heap, ptr);
    Ok(Block { ptr, end })
}

/// The live block with room for `n` bytes, in its place or moved, and where it ends.
fn realloc_block<H: Heaped>(heap: &mut H, ptr: Ptr, n: u64) -> Result<Block, Refusal>
    requires some { 0 < n }
    ensures { GivesBlock (view H.content H.touches H.lacks) 260 (λ slot. realloc (λ a b. a == b) slot (Some (ptr.place, ptr.slot)) n (H.content heap.old))
        (λ given. Some (given.place, given.slot)) (λ slot. slot ≡ ptr.slot) result heap.old heap.new }
{
    heap.keeps_good();
    let Some(new) = heap.realloc(Some(ptr), n)? else {
        unreachable!();
    };
    let end = end_of_block(heap, new);
    Ok(Block { ptr: new, end })
}

/// `+ address size`, or `* address align size`: asks the heap for a block for the entry, unless its address is held.
#[inline(always)]
fn allocate<H: Heaped>(
    holder: &mut Holder<H>,
    align: Option<Addr>,
    entry: &Entry<LentLocation<'_>>,
    findings: &mut Findings,
) -> Result<Option<u64>, AllocError>
    requires live { AreLive holder.old.held.all (H.content holder.old.heap) }
    requires room { holder.old.held.room ≡ (H.content holder.old.heap).records }
    requires none { findings.old ≡ [] }
    ensures { Replays (view H.content H.touches H.lacks) 2 164 (allocation entry.now align (held_given (all_given holder.old.held.all) entry.now.addr))
        findings.new result holder.old holder.new }
{
    let found = holder.held.find_again(entry.addr);
    if holder.held.is_held(&found) {
        findings.set_one(entry.line, Kind::AlreadyHeld(entry.addr));
        return Ok(None);
    }
    holder.heap.keeps_good();
    holder.held.keeps_order();
    match new_block(&mut holder.heap, align, asked_size(entry.size)) {
        Ok(block) => {
            let ptr = block.ptr;
            holder.heap.keeps_good();
            holder.held.insert(&found, entry, ptr);
            Ok(Some(block.end))
        }
        Err(Refusal::OutOfMemory) => Err(AllocError),
        Err(refusal) => {
            findings.set_one(entry.line, Kind::Refused(entry.addr, refusal));
            Ok(None)
        }
    }
}

/// Frees the block that the address which was found is held under, and holds the address no more.
#[inline(always)]
fn take<H: Heaped>(holder: &mut Holder<H>, found: &LookUp, ptr: Ptr) -> Result<(), AllocError>
    requires live { AreLive holder.old.held.all (H.content holder.old.heap) }
    requires found { IsFound holder.old.held.keys found.now }
    requires held { IsUnder ptr (held_at holder.old.held.all found.now.address) }
    ensures { Takes (view H.content H.touches H.lacks) 96 found.now.address ptr result holder.old holder.new }
{
    holder.heap.keeps_good();
    match holder.heap.free(ptr) {
        Ok(()) => {
            holder.held.remove(found);
            Ok(())
        }
        Err(Refusal::OutOfMemory) => Err(AllocError),
        Err(_) => unreachable!(),
    }
}

/// `- address`: frees the block that the address is held under.
#[inline(always)]
fn release<H: Heaped>(
    holder: &mut Holder<H>,
    number: u64,
    address: Addr,
    findings: &mut Findings,
) -> Result<Option<u64>, AllocError>
    requires live { AreLive holder.old.held.all (H.content holder.old.heap) }
    requires none { findings.old ≡ [] }
    ensures { Replays (view H.content H.touches H.lacks) 2 96 (release number address (held_given (all_given holder.old.held.all) address))
        findings.new result holder.old holder.new }
{
    let found = holder.held.find_again(address);
    let Some(ptr) = holder.held.block(&found) else {
        findings.set_one(number, Kind::NotHeld(address));
        return Ok(None);
    };
    take(holder, &found, ptr)?;
    Ok(None)
}

/// Asks the heap to reallocate the block of the old address that was found for the entry; where it refuses, the block is freed.
fn reallocate<H: Heaped>(
    holder: &mut Holder<H>,
    old: &LookUp,
    ptr: Ptr,
    entry: &Entry<LentLocation<'_>>,
    findings: &mut Findings,
) -> Result<Option<u64>, AllocError>
    requires live { AreLive holder.old.held.all (H.content holder.old.heap) }
    requires room { holder.old.held.room ≡ (H.content holder.old.heap).records }
    requires found { IsFound holder.old.held.keys old.now }
    requires held { IsUnder ptr (held_at holder.old.held.all old.now.address) }
    requires free { old.now.address ≢ entry.now.addr → held_at holder.old.held.all entry.now.addr ≡ None }
    requires none { findings.old ≡ [] }
    ensures { Replays (view H.content H.touches H.lacks) 1 356 (doing (move old.now.address ptr.place entry.now))
        findings.new result holder.old holder.new }
{
    holder.heap.keeps_good();
    holder.held.keeps_order();
    match realloc_block(&mut holder.heap, ptr, asked_size(entry.size)) {
        Ok(block) => {
            let ptr = block.ptr;
            holder.held.replace(old, entry, ptr);
            Ok(Some(block.end))
        }
        Err(Refusal::OutOfMemory) => Err(AllocError),
        Err(refusal) => {
            take(holder, old, ptr)?;
            findings.set_one(entry.line, Kind::Refused(entry.addr, refusal));
            Ok(None)
        }
    }
}

/// Whether the address is another one than the old one, and held.
fn is_held_too(held: &mut Index, address: Addr, old: Addr) -> bool
    ensures { TellsWhether 1 (not (address == old) && is_some (held_at held.old.all address)) result held.old held.new }
{
    address != old && held.contains(address)
}

/// `> address size`: reallocates the block of the address of the line before, where that is `<`.
#[inline(never)]
fn renew<H: Heaped>(
    holder: &mut Holder<H>,
    pending: Option<Addr>,
    entry: &Entry<LentLocation<'_>>,
    findings: &mut Findings,
) -> Result<Option<u64>, AllocError>
    requires live { AreLive holder.old.held.all (H.content holder.old.heap) }
    requires room { holder.old.held.room ≡ (H.content holder.old.heap).records }
    requires none { findings.old ≡ [] }
    ensures { Replays (view H.content H.touches H.lacks) 3 356 (renewal entry.now pending (held_given (all_given holder.old.held.all)))
        findings.new result holder.old holder.new }
{
    let number = entry.line;
    let Some(old) = pending else {
        findings.set_one(number, Kind::Stray);
        return Ok(None);
    };
    let found = holder.held.find(old);
    let Some(ptr) = holder.held.block(&found) else {
        let end = allocate(holder, None, entry, findings)?;
        findings.put_first(Diagnostic {
            line: number,
            kind: Kind::NotHeld(old),
        });
        return Ok(end);
    };
    if is_held_too(&mut holder.held, entry.addr, old) {
        findings.set_one(number, Kind::AlreadyHeld(entry.addr));
        return Ok(None);
    }
    reallocate(holder, &found, ptr, entry, findings)
}

/// What the line of this number does, where `pending` is the address of the line before, if that is `<`. At most 356
/// touches.
#[inline(always)]
pub(crate) fn outcome<H: Heaped>(
    holder: &mut Holder<H>,
    number: u64,
    pending: Option<Addr>,
    event: Result<Event<LentLocation<'_>>, LineFault>,
    findings: &mut Findings,
) -> Result<Option<u64>, AllocError>
    requires live { AreLive holder.old.held.all (H.content holder.old.heap) }
    requires room { holder.old.held.room ≡ (H.content holder.old.heap).records }
    requires none { findings.old ≡ [] }
    ensures { Replays (view H.content H.touches H.lacks) 3 356 (plan number event.entry pending (held_given (all_given holder.old.held.all)))
        findings.new result holder.old holder.new }
{
    match event {
        Err(LineFault::TooLong) => {
            findings.set_one(number, Kind::TooLong);
            Ok(None)
        }
        Err(LineFault::NotALine) => {
            findings.set_one(number, Kind::NotALine);
            Ok(None)
        }
        Ok(Event::Start | Event::End | Event::Old { .. } | Event::Failed { .. }) => Ok(None),
        Ok(Event::Alloc { at, addr, size }) => {
            let Some(addr) = addr else {
                return Ok(None);
            };
            let entry = entry_of(number, at, addr, size);
            allocate(holder, None, &entry, findings)
        }
        Ok(
            Event::Aligned {
                at,
                addr,
                align,
                size,
            },
        ) => {
            let entry = entry_of(number, at, addr, size);
            allocate(holder, Some(align), &entry, findings)
        }
        Ok(Event::Free { at: _at, addr }) => release(holder, number, addr, findings),
        Ok(Event::New { at, addr, size }) => {
            let entry = entry_of(number, at, addr, size);
            renew(holder, pending, &entry, findings)
        }
    }
}
