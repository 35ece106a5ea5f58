//! Laws of the definitions and of the exports, each the contract of a function that does nothing, or makes one call.

ghost use Rattle.std.specs.Prelude.{◌≡◌, ◌≢◌, ℕ, ◌+◌, ◌*◌, ◌<◌, ◌≤◌, List, [], All, AllPairs, map, Some, Ok};
ghost use Rattle.tlsf_heap.specs.declared.refusal.Refusal.{Refusal};
ghost use Rattle.tlsf_class.specs.Classes.{unit};
ghost use Rattle.tlsf_heap.specs.declared.image.rule.Rule.{Rule};
ghost use Rattle.tlsf_heap.specs.Content.{Content};
ghost use Rattle.tlsf_heap.specs.Counted.{range_of};
ghost use Rattle.tlsf_heap.specs.Good.{IsGood};
ghost use Rattle.tlsf_heap.specs.Implied.{live_blocks};
ghost use Rattle.tlsf_heap.specs.OneSize.{HasRecords};
ghost use Rattle.tlsf_heap.specs.Pools.{created, add_pool};
ghost use Rattle.tlsf_heap.specs.Sizing.{class_size, sure_pool, sure_records};
ghost use Rattle.tlsf_c.specs.Status.{bad_count, number};
ghost use Rattle.tlsf_c.specs.Saving.{broken_number, no_room};
ghost use Rattle.tlsf_c.specs.Fronts.{front, told_size};
ghost use Rattle.tlsf_c.specs.HeapPlaces.{HasHeapRoom, ArePlacesOf};
ghost use Rattle.tlsf_c.specs.PlacedHeaps.{IsLiveAt};
ghost use Rattle.tlsf_c.specs.Held.{AreOwn, AreHeld, held_after, AllKeepToNumbers, AllKeepToOneSize, AreNoRefusals};
ghost use Rattle.tlsf_c.specs.PlacedPools.{IsPlaced, AreApart, AreEntriesOf};
ghost use Rattle.tlsf_c.specs.PlacedRuns.{Call, ask, ask_aligned, give_back, Told, CallStep, CallRun, realloc_call, CallsStayWithin, CallsStayOfSize, AreServedCalls};
ghost use Rattle.tlsf_c.specs.PoolPlaces.{bytes_in};
ghost use Rattle.tlsf_c.specs.SureMemory.{HasSureBytes};
ghost use Rattle.tlsf_c.specs.declared.heap_places.HeapPlaces.{HeapPlaces};
ghost use Rattle.tlsf_c.specs.declared.placed_pool.PlacedPool.{PlacedPool};

use crate::placed_aligned::tlsf_placed_memalign;
use crate::placed_block::PlacedBlock;
use crate::placed_blocks::{tlsf_placed_free, tlsf_placed_malloc};
use crate::placed_heap::PlacedHeap;
use crate::placed_sizes::tlsf_placed_realloc;
use tlsf_heap::laws::smaller_asks_less;

/// A C program can tell any two statuses apart.
pub fn statuses_differ()
    ensures refusals { (one other : Refusal) → number one ≡ number other → one ≡ other }
    ensures rules { (one other : Rule) → broken_number one ≡ broken_number other → one ≡ other }
    ensures kinds { (refusal : Refusal) (rule : Rule) → number refusal ≢ broken_number rule }
    ensures served { (refusal : Refusal) → number refusal ≢ 0 }
    ensures others { (refusal : Refusal) → (number refusal ≢ bad_count) × (number refusal ≢ no_room) }
{}

/// Of two blocks that are live at addresses, the first ends at or before the front of the second. So neither overlaps the
/// other, nor its front.
pub fn live_blocks_are_apart(heap: &mut PlacedHeap)
    ensures apart { (one other word other_word : ℕ) → IsLiveAt one word heap.old.pools heap.old.handle.value.content → IsLiveAt other other_word heap.old.pools heap.old.handle.value.content → one < other → one + told_size word one ≤ other }
{
    heap.handle.heap().keeps_good();
}

/// A heap with addresses that has one pool of the sure bytes refuses no call for a block, in whatever order blocks are asked for,
/// resized and given back. Fronts count in the bytes of the pool. Each call asks for at most `largest` bytes, at an alignment of
/// at most 16. It finds at most `blocks` live blocks, which have at most `bytes` bytes, each asked for and rounded up to 16.
pub fn sure_bytes_are_enough()
    ensures { (blocks bytes largest size least records base pool : ℕ) (pools : List PlacedPool) (calls : List Call) (tolds : List Told) (old new : Content ℕ) (run : CallRun pools calls tolds old new)
        → All IsPlaced pools → class_size 1 (largest + front) ≡ Some size → sure_pool blocks (bytes + blocks * unit) (Some size) ≡ Some least → least ≤ pool → sure_records blocks ≤ records → add_pool base pool (created records) ≡ Ok old
        → CallsStayWithin blocks bytes largest pools calls tolds old new run → AreServedCalls pools calls tolds old new run }
{
    smaller_asks_less();
}

/// A program that calls a heap with addresses, and resizes and gives back only what it holds, holds live blocks alone. It holds what
/// it was given and didn't give back, and none when the first call comes. Each block has the bytes that were asked for, and ends
/// before the front of the next one.
pub fn held_blocks_are_live()
    ensures { (pools : List PlacedPool) (calls : List Call) (tolds : List Told) (old new : Content ℕ) (run : CallRun pools calls tolds old new)
        → AllPairs AreApart pools → ∥ AreEntriesOf (map range_of old.pools) pools ∥₁ → IsGood old → live_blocks old ≡ 0 → AreOwn calls tolds [] → AreHeld pools new (held_after calls tolds []) }
{}

/// A heap with addresses that has one pool of the sure bytes refuses no call of a program that keeps to its numbers. It asks for at
/// most `largest` bytes, at an alignment of at most 16. When it asks it holds at most `blocks` blocks, for which it asked for at
/// most `bytes` bytes, each rounded up to 16. It resizes and gives back only what it holds.
pub fn numbers_asked_are_enough()
    ensures { (blocks bytes largest size least records base pool : ℕ) (pools : List PlacedPool) (calls : List Call) (tolds : List Told) (old new : Content ℕ) (run : CallRun pools calls tolds old new)
        → All IsPlaced pools → AllPairs AreApart pools → ∥ AreEntriesOf (map range_of old.pools) pools ∥₁ → class_size 1 (largest + front) ≡ Some size → sure_pool blocks (bytes + blocks * unit) (Some size) ≡ Some least → least ≤ pool
        → sure_records blocks ≤ records → add_pool base pool (created records) ≡ Ok old → AreOwn calls tolds [] → AllKeepToNumbers blocks bytes largest calls tolds [] → AreNoRefusals calls tolds }
{
    smaller_asks_less();
}

/// A heap that is made in memory of the sure bytes has room there for its control part, its table and one pool. Of a program that
/// keeps to its numbers it refuses no call.
pub fn sure_memory_is_enough()
    ensures room { (memory total part blocks bytes largest last : ℕ) → HasSureBytes memory total part blocks bytes largest → memory + total ≤ last → HasHeapRoom memory total part (sure_records blocks) last }
    ensures refuses_none { (memory total part blocks bytes largest base : ℕ) (places : HeapPlaces) (pools : List PlacedPool) (calls : List Call) (tolds : List Told) (old new : Content ℕ) (run : CallRun pools calls tolds old new)
        → HasSureBytes memory total part blocks bytes largest → ArePlacesOf memory total part (sure_records blocks) places → add_pool base (bytes_in places.pool places.bytes) (created (sure_records blocks)) ≡ Ok old
        → All IsPlaced pools → AllPairs AreApart pools → ∥ AreEntriesOf (map range_of old.pools) pools ∥₁ → AreOwn calls tolds [] → AllKeepToNumbers blocks bytes largest calls tolds [] → AreNoRefusals calls tolds }
{
    numbers_asked_are_enough();
}

/// A heap with addresses whose blocks, with their fronts, all have one size, the lowest of a class, and that has one pool of the
/// bytes of as many blocks, refuses no call for a block while fewer are live: in whatever order they are asked for and given back.
pub fn blocks_of_one_size_are_enough()
    ensures { (blocks size records base pool : ℕ) (pools : List PlacedPool) (calls : List Call) (tolds : List Told) (old new : Content ℕ) (run : CallRun pools calls tolds old new)
        → All IsPlaced pools → add_pool base pool (created records) ≡ Ok old → class_size 1 size ≡ Some size → blocks * size ≤ pool → HasRecords blocks size pool records
        → CallsStayOfSize blocks size pools calls tolds old new run → AreServedCalls pools calls tolds old new run }
{}

/// A heap of blocks of one size, with one pool of the bytes of as many, refuses no call of a program that asks for such blocks
/// alone, and holds fewer when it asks for one more. It resizes and gives back only what it holds.
pub fn blocks_asked_of_one_size_are_enough()
    ensures { (blocks size records base pool : ℕ) (pools : List PlacedPool) (calls : List Call) (tolds : List Told) (old new : Content ℕ) (run : CallRun pools calls tolds old new)
        → All IsPlaced pools → AllPairs AreApart pools → ∥ AreEntriesOf (map range_of old.pools) pools ∥₁ → add_pool base pool (created records) ≡ Ok old → class_size 1 size ≡ Some size → blocks * size ≤ pool
        → HasRecords blocks size pool records → AreOwn calls tolds [] → AllKeepToOneSize blocks size calls tolds [] → AreNoRefusals calls tolds }
{}

/// `tlsf_placed_malloc` is a call of the runs that these laws are about.
pub fn malloc_is_a_call(heap: &mut PlacedHeap, bytes: u64) -> PlacedBlock
    ensures { CallStep heap.old.pools (ask bytes) (record { address = result.address; word = result.word }) heap.old.handle.value heap.new.handle.value }
{
    tlsf_placed_malloc(heap, bytes)
}

/// `tlsf_placed_memalign` is a call of the runs that these laws are about.
pub fn memalign_is_a_call(heap: &mut PlacedHeap, align: u64, bytes: u64) -> PlacedBlock
    ensures { CallStep heap.old.pools (ask_aligned align bytes) (record { address = result.address; word = result.word }) heap.old.handle.value heap.new.handle.value }
{
    tlsf_placed_memalign(heap, align, bytes)
}

/// `tlsf_placed_realloc` is one of the calls of these runs: which one, `realloc_call` says.
pub fn realloc_is_a_call(
    heap: &mut PlacedHeap,
    address: u64,
    bytes: u64,
    word: &mut u64,
    copied: &mut u64,
) -> u64
    ensures { CallStep heap.old.pools (realloc_call address word.old bytes) (record { address = result; word = word.new }) heap.old.handle.value heap.new.handle.value }
{
    tlsf_placed_realloc(heap, address, bytes, word, copied)
}

/// `tlsf_placed_free` is a call of the runs that these laws are about.
pub fn free_is_a_call(heap: &mut PlacedHeap, address: u64, word: u64) -> u32
    ensures { CallStep heap.old.pools (give_back address word) (record { address = 0; word = result }) heap.old.handle.value heap.new.handle.value }
{
    tlsf_placed_free(heap, address, word)
}
