//! A heap checks its table.

ghost use Rattle.std.specs.Prelude.{◌≡◌, ◌+◌, ◌<◌, true};
ghost use Rattle.tlsf_heap.specs.Counted.{IsUnchanged};
ghost use Rattle.tlsf_c.specs.Kept.{StandsWhere};

use crate::handle::Handle;

/// Whether the table of records is that of a heap, as `Heap::check` finds it: it always is, and the answer is `true`. There
/// are more touches than records.
#[unsafe(no_mangle)]
pub extern "C" fn tlsf_heap_check(handle: &mut Handle) -> bool
    ensures whole { result ≡ true }
    ensures unchanged { IsUnchanged handle.old.value handle.new.value }
    ensures each_read { handle.old.value.touches + handle.old.value.content.records < handle.new.value.touches }
    ensures stands { StandsWhere handle.old handle.new }
{
    handle.heap().check()
}
