//! Figures of a heap: the records in use, and the largest request that it serves.

ghost use Rattle.std.specs.Prelude.{◌≡◌};
ghost use Rattle.tlsf_heap.specs.Content.{used_records};
ghost use Rattle.tlsf_heap.specs.Counted.{Reads};
ghost use Rattle.tlsf_heap.specs.Readings.{IsLargestRequest};
ghost use Rattle.tlsf_c.specs.Kept.{StandsWhere};

use crate::handle::Handle;

/// How many records are in use: one for each block, live or free. At most one touch.
#[unsafe(no_mangle)]
pub extern "C" fn tlsf_heap_records_used(handle: &mut Handle) -> u32
    ensures value { result ≡ used_records handle.old.value.content }
    ensures stands { StandsWhere handle.old handle.new }
    ensures read { Reads 1 handle.old.value handle.new.value }
{
    handle.heap().records_used()
}

/// The most bytes for which `tlsf_heap_malloc` finds a block now, and 0 where no block is free: it never answers `NoFit`
/// for as many or fewer, and does for more. At most two touches.
#[unsafe(no_mangle)]
pub extern "C" fn tlsf_heap_largest_request(handle: &mut Handle) -> u32
    ensures largest { IsLargestRequest result handle.old.value.content }
    ensures stands { StandsWhere handle.old handle.new }
    ensures read { Reads 2 handle.old.value handle.new.value }
{
    handle.heap().largest_request()
}
