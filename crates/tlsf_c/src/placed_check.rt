//! A heap with addresses checks itself, and what a program holds of it.

ghost use Rattle.std.specs.Prelude.{◌≡◌, ◌+◌, ◌*◌, ◌<◌, ◌≤◌, ◌↔◌, Contains, map, true, IsTrue};
ghost use Rattle.tlsf_heap.specs.Content.{blocks_of};
ghost use Rattle.tlsf_heap.specs.Counted.{IsUnchanged, range_of};
ghost use Rattle.tlsf_heap.specs.Implied.{live_blocks};
ghost use Rattle.tlsf_heap.specs.Room.{live_bytes};
ghost use Rattle.tlsf_c.specs.Fronts.{front};
ghost use Rattle.tlsf_c.specs.Kept.{Keeps};

use crate::front::FRONT;
use crate::live_count::count_live;
use crate::placed_heap::PlacedHeap;
use crate::placed_loading::has_range;

/// Whether the table of records is that of a heap, as it always is, and the program's figures are right: as many blocks
/// are live, with as many bytes behind their fronts. There are more touches than records.
#[unsafe(no_mangle)]
pub extern "C" fn tlsf_placed_check(heap: &mut PlacedHeap, blocks: u64, bytes: u64) -> bool
    ensures live { (result ≡ true) ↔ ((blocks ≡ live_blocks heap.old.handle.value.content) × (bytes + front * blocks ≡ live_bytes (blocks_of heap.old.handle.value.content.pools))) }
    ensures unchanged { IsUnchanged heap.old.handle.value heap.new.handle.value }
    ensures each_read { heap.old.handle.value.touches + heap.old.handle.value.content.records < heap.new.handle.value.touches }
    ensures kept { Keeps heap.old heap.new }
    ensures figures { heap.new.figures ≡ heap.old.figures }
{
    let inner = heap.handle.heap();
    inner.keeps_good();
    if !inner.check() {
        return false;
    }
    let live = count_live(inner);
    live.blocks == blocks && live.bytes - FRONT * live.blocks == bytes
}

/// Whether the heap has a pool of this place and size, in bytes.
#[unsafe(no_mangle)]
pub extern "C" fn tlsf_placed_has_pool(heap: &mut PlacedHeap, place: u32, bytes: u64) -> bool
    ensures exact { IsTrue result ↔ (Contains (map range_of heap.old.handle.value.content.pools) (place, bytes)) }
    ensures unchanged { IsUnchanged heap.old.handle.value heap.new.handle.value }
    ensures kept { Keeps heap.old heap.new }
    ensures figures { heap.new.figures ≡ heap.old.figures }
{
    let ranges = heap.handle.heap().pools();
    has_range(ranges.as_slice(), u64::from(place), bytes)
}
