//! A heap is saved and loaded.

ghost use Rattle.std.specs.Prelude.{◌≡◌, ◌≢◌, ◌⊎◌, Some, None};
ghost use Rattle.tlsf_heap.specs.declared.image.rule.Rule.{Rule as BrokenRule};
ghost use Rattle.tlsf_heap.specs.Images.Rules.{first_broken};
ghost use Rattle.tlsf_heap.specs.declared.refusal.Refusal.TheVariants.{OutOfMemory};
ghost use Rattle.tlsf_heap.specs.Counted.{IsUnchanged};
ghost use Rattle.tlsf_c.specs.Kept.{StandsWhere};
ghost use Rattle.tlsf_c.specs.Saving.{SavesInto, IsLoaded, broken_number};
ghost use Rattle.tlsf_c.specs.Status.{number};

use crate::creation::put;
use crate::handle::Handle;
use crate::made::Made;
use crate::status::{NO_ROOM, SERVED, fault_number};
use crate::window::Window;
use std::alloc::Global;
use tlsf_heap::Heap;

/// Puts an image of the heap into `bytes`, as much of it as there is room for, and into `count` how many bytes that is. The
/// bytes behind them stay. It takes no memory.
///
/// The status is 0 where the whole image is put, and else 14.
#[unsafe(no_mangle)]
pub extern "C" fn tlsf_heap_save(handle: &mut Handle, bytes: &mut [u8], count: &mut u64) -> u32
    ensures saved { SavesInto handle.old.value.content result count.new bytes.old bytes.new }
    ensures unchanged { IsUnchanged handle.old.value handle.new.value }
    ensures stands { StandsWhere handle.old handle.new }
{
    let mut window = Window::over(bytes);
    // It never fails: that it is too small for the image is told by `fits`.
    let _all = handle.heap().save_image(&mut window);
    *count = window.end as u64;
    if window.fits { SERVED } else { NO_ROOM }
}

/// The heap that an image describes, which goes to `out`: blocks of the heap saved are live, slots included. It takes memory
/// twice, for the table of records and for the heap itself, and none where a rule is broken. At most five touches a record and eight
/// a class. What `out` held before is forgotten.
///
/// The status is 0, or 9 where memory is refused. It is 101 to 112 where the bytes are no image: the first rule
/// broken is the status less 100.
#[unsafe(no_mangle)]
pub extern "C" fn tlsf_heap_load(alloc: Global, bytes: &[u8], out: &mut Made) -> u32
    ensures broken { (rule : BrokenRule) → first_broken bytes.now ≡ Some rule → result ≡ broken_number rule }
    ensures memory { first_broken bytes.now ≡ None → (result ≡ 0) ⊎ (result ≡ number OutOfMemory) }
    ensures loaded { result ≡ 0 → IsLoaded bytes.now out.new.value }
    ensures out { result ≢ 0 → out.new ≡ out.old }
{
    match Heap::load_image(alloc, bytes) {
        Ok(heap) => put(alloc, heap, out),
        Err(fault) => fault_number(fault),
    }
}
