//! A heap is made and ended.

ghost use Rattle.std.specs.Prelude.{◌≡◌, ◌≢◌, ◌<◌, ◌⊎◌, ◌↔◌, Some, None};
ghost use Rattle.tlsf_store.specs.Records.{most_records};
ghost use Rattle.tlsf_c.specs.Creation.{IsNew, zeros};
ghost use Rattle.tlsf_c.specs.Status.{bad_count, number};
ghost use Rattle.tlsf_heap.specs.declared.refusal.Refusal.TheVariants.{OutOfMemory};

use crate::made::Made;
use crate::status::{BAD_COUNT, OUT_OF_MEMORY, SERVED};
use crate::unboxed::Unboxed;
use std::alloc::Global;
use std::mem::replace;
use tlsf_heap::{Heap, StoreError};

/// A heap of this many records, from 1 to 65,535, with no pool. It takes memory twice: for the table of records, and for
/// the heap itself. What `out` held before is forgotten.
///
/// The status is 11 where the number isn't from 1 to 65,535, 9 where memory is refused, and else 0.
#[unsafe(no_mangle)]
pub extern "C" fn tlsf_heap_create(alloc: Global, records: u32, out: &mut Made) -> u32
    ensures made { result ≡ 0 → IsNew records out.new.value }
    ensures bad_count { (result ≡ bad_count) ↔ ((records ≡ 0) ⊎ (most_records < records)) }
    ensures known { (result ≡ 0) ⊎ ((result ≡ number OutOfMemory) ⊎ (result ≡ bad_count)) }
    ensures out { result ≢ 0 → out.new ≡ out.old }
{
    match Heap::create(alloc, records) {
        Ok(heap) => put(alloc, heap, out),
        Err(StoreError::BadCount) => BAD_COUNT,
        Err(StoreError::OutOfMemory) => OUT_OF_MEMORY,
    }
}

/// Puts the heap into memory of its own, and its handle into `out`.
pub(crate) fn put(alloc: Global, heap: Heap, out: &mut Made) -> u32
    ensures made { result ≡ 0 → out.new.value ≡ Some heap }
    ensures known { (result ≡ 0) ⊎ (result ≡ number OutOfMemory) }
    ensures out { result ≢ 0 → out.new ≡ out.old }
{
    match Box::new(alloc, heap) {
        Ok(boxed) => {
            *out = Made::of(Unboxed::of(boxed));
            SERVED
        }
        Err(_) => OUT_OF_MEMORY,
    }
}

/// Ends the heap, gives its memory back, and leaves zeros. Where there are zeros already nothing is done.
#[unsafe(no_mangle)]
pub extern "C" fn tlsf_heap_destroy(alloc: Global, heap: &mut Made)
    ensures zeros { heap.new ≡ zeros }
    ensures nothing { heap.old.value ≡ None → heap.new ≡ heap.old }
{
    if let Some(unboxed) = replace(heap, Made::zeros()).into_unboxed(alloc) {
        drop(unboxed.into_box());
    }
}
