//! Aligned blocks of a heap with addresses.

ghost use Rattle.std.specs.Prelude.{◌≡◌, ◌↔◌, ℕ, ◌+◌, ◌*◌, ◌/◌, ◌%◌, ◌<◌, All, map, max, true, Ok, Err, IfOk, IfErr, OnOk, OnErr, IsTrue};
ghost use Rattle.tlsf_heap.specs.declared.refusal.Refusal.TheVariants.{BadAlign};
ghost use Rattle.tlsf_heap.specs.Counted.{IsUnchanged, range_of};
ghost use Rattle.tlsf_heap.specs.Memalign.{is_alignment, memalign};
ghost use Rattle.tlsf_heap.specs.Pointer.{block_size_ptr};
ghost use Rattle.tlsf_heap.specs.Room.{HasRoomAligned};
ghost use Rattle.tlsf_heap.specs.Served.{IsServed};
ghost use Rattle.tlsf_c.specs.Fronts.{front};
ghost use Rattle.tlsf_heap.specs.Touches.{AtMost, memalign_touches};
ghost use Rattle.tlsf_c.specs.Kept.{Keeps};
ghost use Rattle.tlsf_c.specs.LiveFigures.{IsLiveChange};
ghost use Rattle.tlsf_c.specs.Lying.{LiesIn};
ghost use Rattle.tlsf_c.specs.PlacedPools.{IsAlike};
ghost use Rattle.tlsf_c.specs.PlacedHeaps.{IsLiveAt, IsGivenAt, IsRefusedAt, memalign_with_front};
ghost use Rattle.tlsf_c.specs.Status.{number};

use crate::front::{FRONT, MOST, UNIT};
use crate::placed_block::PlacedBlock;
use crate::placed_blocks::place_block;
use crate::placed_heap::PlacedHeap;
use crate::placed_pool::PlacedPool;
use tlsf_heap::{Heap, Ptr, Refusal, is_alignment};

/// Whether addresses are multiples of the alignment where places are, in each pool.
fn are_alike(pools: &[PlacedPool; 8], align: u64) -> bool
    requires { is_alignment align ≡ true }
    ensures { IsTrue result ↔ (All (IsAlike align) pools.now) }
{
    let mask = align - 1;
    for pool in pools {
        if pool.reach != 0 && pool.first & mask != u64::from(pool.place) & mask {
            return false;
        }
    }
    true
}

/// `Heap::memalign`, and what is known of the block: it lies in a pool, and has the bytes rounded up.
fn allocate_aligned(heap: &mut Heap, align: u64, bytes: u64) -> Result<Ptr, Refusal>
    ensures ok { IfOk result (λ ptr. IsServed (λ slot. memalign slot align bytes) ptr heap.old.content heap.new.content) }
    ensures in_units { IfOk result (λ ptr. ptr.place % 16 ≡ 0) }
    ensures multiple { IfOk result (λ ptr. ptr.place % align ≡ 0) }
    ensures lies { IfOk result (λ ptr. LiesIn ptr.place ((bytes + 15) / 16 * 16) (map range_of heap.old.content.pools)) }
    ensures size { IfOk result (λ ptr. block_size_ptr ptr heap.new.content ≡ Ok ((bytes + 15) / 16 * 16)) }
    ensures live { OnOk result (IsLiveChange 0 0 1 ((bytes + 15) / 16 * 16) heap.old.content heap.new.content) }
    ensures ranges { OnOk result (map range_of heap.new.content.pools ≡ map range_of heap.old.content.pools) }
    ensures refused { IfErr result (λ refusal. (slot : ℕ) → memalign slot align bytes heap.old.content ≡ Err refusal) }
    ensures unchanged { OnErr result (IsUnchanged heap.old heap.new) }
    ensures room { OnErr result (is_alignment align ≡ true → HasRoomAligned align bytes heap.old.content → ⊥) }
    ensures bound { AtMost memalign_touches heap.old.touches heap.new.touches }
{
    heap.keeps_good();
    let given = heap.memalign(align, bytes);
    heap.keeps_good();
    given
}

/// A live block of at least `bytes` bytes, as by `tlsf_placed_malloc`, whose address is a multiple of `align`. At most 35 touches.
///
/// Where the heap refuses the address is 0. Then the word is the number of `BadAlign`, `ZeroSize`, `NoFit` or `TableFull`. It is
/// that of `BadAlign` also where addresses aren't multiples of `align` as places are, in some pool. Else it refuses no block of some
/// bytes for which, with the front, it has room.
#[unsafe(no_mangle)]
pub extern "C" fn tlsf_placed_memalign(heap: &mut PlacedHeap, align: u64, bytes: u64) -> PlacedBlock
    ensures given { 0 < result.address → IsGivenAt (λ slot. memalign_with_front align slot bytes) bytes result.address heap.old.pools heap.old.handle.value.content heap.new.handle.value.content }
    ensures live { 0 < result.address → IsLiveAt result.address result.word heap.old.pools heap.new.handle.value.content }
    ensures multiple { result.address % align ≡ 0 }
    ensures refused { result.address ≡ 0 → All (IsAlike align) heap.old.pools → IsRefusedAt (λ slot. memalign_with_front align slot bytes) result.word heap.old.handle.value heap.new.handle.value }
    ensures unlike { (All (IsAlike align) heap.old.pools → ⊥) → (result.address ≡ 0) × (result.word ≡ number BadAlign) }
    ensures unchanged { result.address ≡ 0 → IsUnchanged heap.old.handle.value heap.new.handle.value }
    ensures room { 0 < bytes → is_alignment align ≡ true → All (IsAlike align) heap.old.pools → HasRoomAligned align (bytes + front) heap.old.handle.value.content → 0 < result.address }
    ensures kept { Keeps heap.old heap.new }
    ensures most { heap.new.figures.most_bytes ≡ max heap.old.figures.most_bytes heap.new.figures.bytes }
    ensures bound { AtMost memalign_touches heap.old.handle.value.touches heap.new.handle.value.touches }
{
    if !is_alignment(align) || !are_alike(&heap.pools, align) {
        return PlacedBlock::refused(Refusal::BadAlign);
    }
    if bytes == 0 {
        return PlacedBlock::refused(Refusal::ZeroSize);
    }
    if bytes > MOST {
        return PlacedBlock::refused(Refusal::NoFit);
    }
    match allocate_aligned(heap.handle.heap(), align, bytes + FRONT) {
        Ok(ptr) => {
            let size = (bytes + FRONT + (UNIT - 1)) / UNIT * UNIT;
            heap.figures.given(size - FRONT);
            place_block(&heap.pools, ptr, size)
        }
        Err(refusal) => PlacedBlock::refused(refusal),
    }
}
