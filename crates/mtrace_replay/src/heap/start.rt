//! The heap before the first line of a log.

ghost use Rattle.std.specs.Prelude.{◌≡◌, ◌≤◌, false, OnOk, OnErr, IfOk};
ghost use Rattle.tlsf_heap.specs.Bare.{bare};
ghost use Rattle.tlsf_heap.specs.Pools.{created, add_pool};
ghost use Rattle.mtrace_replay.specs.Settings.{are_bad};
ghost use Rattle.mtrace_replay.specs.Started.{left_by, started};

use crate::heap::settings::Settings;
use std::alloc::{AllocError, Global};
use tlsf_heap::{Heap, Heaped, Refusal, StoreError};

/// Adds a pool; a refusal but for want of memory changes nothing.
fn add_pool<H: Heaped>(heap: &mut H, base: u64, bytes: u64) -> Result<(), AllocError>
    ensures left { OnOk result (bare (H.content heap.new) ≡ left_by (bare (H.content heap.old)) (add_pool base bytes (bare (H.content heap.old)))) }
    ensures memory { OnErr result H.lacks }
{
    match heap.add_pool(base, bytes) {
        Ok(()) => Ok(()),
        Err(Refusal::OutOfMemory) => Err(AllocError),
        Err(_) => Ok(()),
    }
}

/// A heap without pools. Settings that aren't bad have a number of records that a heap can have.
fn empty_heap<H: Heaped>(alloc: Global, settings: Settings) -> Result<H, AllocError>
    requires { are_bad settings ≡ false }
    ensures { IfOk result (λ heap. H.content heap ≡ created settings.records) }
{
    match H::create(alloc, settings.records) {
        Ok(heap) => Ok(heap),
        Err(StoreError::OutOfMemory) => Err(AllocError),
        Err(StoreError::BadCount) => unreachable!(),
    }
}

/// Adds the pools of the settings to a heap that has none, one behind the other from place 0 on. The highest is added
/// first, so that place 0 heads the list.
fn add_pools<H: Heaped>(heap: &mut H, settings: Settings) -> Result<(), AllocError>
    requires good { are_bad settings ≡ false }
    requires empty { bare (H.content heap.old) ≡ created settings.records }
    ensures started { OnOk result (bare (H.content heap.new) ≡ started settings) }
    ensures memory { OnErr result H.lacks }
{
    let mut left = settings.pools;
    while left > 0 {
        left -= 1;
        add_pool(heap, u64::from(left) * settings.pool, settings.pool)?;
    }
    Ok(())
}

/// The heap before the first line.
pub(crate) fn started_heap<H: Heaped>(alloc: Global, settings: Settings) -> Result<H, AllocError>
    requires { are_bad settings ≡ false }
    ensures { IfOk result (λ heap. bare (H.content heap) ≡ started settings) }
{
    let mut heap: H = empty_heap(alloc, settings)?;
    add_pools(&mut heap, settings)?;
    Ok(heap)
}

/// The heap becomes that before the first line, in the memory that it has: with at most as many records as before.
pub(crate) fn restart_heap(heap: &mut Heap, settings: Settings)
    requires good { are_bad settings ≡ false }
    requires few { settings.records ≤ heap.old.content.records }
    ensures { bare heap.new.content ≡ started settings }
{
    heap.restart(settings.records);
    match add_pools(heap, settings) {
        Ok(()) => (),
        Err(_) => unreachable!(),
    }
}
