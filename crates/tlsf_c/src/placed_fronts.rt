//! Fronts of blocks whose pool moved.

ghost use Rattle.std.specs.Prelude.{◌≡◌, ℕ, ◌+◌, ◌^◌, ◌<◌, ◌↔◌, true};
ghost use Rattle.tlsf_heap.specs.Counted.{Reads};
ghost use Rattle.tlsf_heap.specs.Touches.{block_size_touches};
ghost use Rattle.tlsf_c.specs.Fronts.{told_slot, told_size};
ghost use Rattle.tlsf_c.specs.Kept.{Keeps};
ghost use Rattle.tlsf_c.specs.PlacedFronts.{IsFrontOf};

use crate::front::FRONT;
use crate::placed_blocks::find;
use crate::placed_heap::PlacedHeap;
use crate::placed_row::PlacedRow;

/// The word in front of a block in a pool whose first address was `from`, once it is `to`.
fn moved_word(word: u64, from: u64, to: u64) -> u64
    ensures slot { (behind : ℕ) → from + behind < 2 ^ 64 → to + behind < 2 ^ 64 → told_slot result (to + behind) ≡ told_slot word (from + behind) }
    ensures size { (behind : ℕ) → from + behind < 2 ^ 64 → to + behind < 2 ^ 64 → told_size result (to + behind) ≡ told_size word (from + behind) }
{
    word.wrapping_sub(from).wrapping_add(to)
}

/// The row is of a pool that began at the address `from`, and begins at `to`. `word` is what stood in front of the row's address,
/// and gets what stands there now. The answer is whether that is the word of a live block with the row's bytes. At most one touch.
#[unsafe(no_mangle)]
pub extern "C" fn tlsf_placed_moved_front(
    heap: &mut PlacedHeap,
    row: &PlacedRow,
    from: u64,
    to: u64,
    word: &mut u64,
) -> bool
    ensures whole { (result ≡ true) ↔ IsFrontOf row.now word.new heap.old.pools heap.old.handle.value.content }
    ensures slot { (behind : ℕ) → from + behind < 2 ^ 64 → to + behind < 2 ^ 64 → told_slot word.new (to + behind) ≡ told_slot word.old (from + behind) }
    ensures size { (behind : ℕ) → from + behind < 2 ^ 64 → to + behind < 2 ^ 64 → told_size word.new (to + behind) ≡ told_size word.old (from + behind) }
    ensures kept { Keeps heap.old heap.new }
    ensures figures { heap.new.figures ≡ heap.old.figures }
    ensures read { Reads block_size_touches heap.old.handle.value heap.new.handle.value }
{
    *word = moved_word(*word, from, to);
    let Some(block) = find(heap, row.address, *word) else {
        return false;
    };
    block.size == u64::from(row.bytes) + FRONT
}
