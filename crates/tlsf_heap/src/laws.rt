//! Laws of the definitions, each the contract of a function that does nothing.

ghost use Rattle.std.specs.Prelude.{◌≡◌, ◌≢◌, ℕ, ◌+◌, ◌-◌, ◌*◌, ◌%◌, ◌<◌, ◌≤◌, List, Option, Some, Ok, Err, IsOk, All, true};
ghost use Rattle.tlsf_class.specs.Classes.{unit};
ghost use Rattle.tlsf_heap.specs.declared.request.Request.{Request};
ghost use Rattle.tlsf_heap.specs.declared.answer.Answer.{Answer};
ghost use Rattle.tlsf_heap.specs.declared.refusal.Refusal.{Refusal};
ghost use Rattle.tlsf_heap.specs.declared.refusal.Refusal.TheVariants.{BadAlign, BadPointer, NoFit};
ghost use Rattle.tlsf_heap.specs.Content.{Content, used_records};
ghost use Rattle.tlsf_heap.specs.Pools.{created, add_pool};
ghost use Rattle.tlsf_heap.specs.Good.{IsGood};
ghost use Rattle.tlsf_heap.specs.Malloc.{malloc};
ghost use Rattle.tlsf_heap.specs.Memalign.{is_alignment, memalign, size_asked};
ghost use Rattle.tlsf_heap.specs.Pointer.{Pointer, realloc_ptr};
ghost use Rattle.tlsf_heap.specs.Room.{HasRoom, HasRoomAligned};
ghost use Rattle.tlsf_heap.specs.Run.{Run};
ghost use Rattle.tlsf_heap.specs.Sizing.{class_size, most_refusing, sure_pool, sure_records};
ghost use Rattle.tlsf_heap.specs.Within.{AsksAtMost, IsLargeEnough, IsNotFull, StaysWithin, TakesWithin};
ghost use Rattle.tlsf_heap.specs.Least.{IsRefusedWithin};
ghost use Rattle.tlsf_heap.specs.OneSize.{HasRecords, StaysOfSize};
ghost use Rattle.tlsf_heap.specs.Implied.{live_blocks};
ghost use Rattle.tlsf_heap.specs.LastAsked.{AreAsAsked, last_asked};

use crate::Heaped;

/// No request of a run is refused for want of a block or of a record, where the run stays within bounds and the heap
/// that it starts on is large enough for these: whatever was asked before, and in whatever order. The pools stay as
/// they are, and there may be several.
pub fn runs_within_find_room<H: Heaped>()
    ensures { (blocks bytes size : ℕ) (requests : List Request) (answers : List Answer) (old new : Content ℕ) (before after : ℕ) (run : Run H.lacks requests answers old new before after)
        → IsGood old → IsLargeEnough blocks bytes size old → StaysWithin blocks bytes size H.lacks requests answers old new before after run → All IsNotFull answers }
{}

/// A heap that was just created and given one pool is large enough for bounds where the pool's bytes and the number of
/// records are.
pub fn one_pool_is_large_enough()
    ensures { (blocks bytes size records base pool : ℕ) (content : Content ℕ) → add_pool base pool (created records) ≡ Ok content
        → most_refusing 1 blocks bytes size < pool → sure_records blocks ≤ records → IsGood content × IsLargeEnough blocks bytes size content }
{}

/// On a heap that was just created and given one pool, of the sure pool's bytes or more, no request of a run that stays within
/// the bounds is refused for want of a block or of a record: whatever was asked before, and in whatever order.
pub fn sure_pool_is_enough<H: Heaped>()
    ensures { (blocks bytes size least records base pool : ℕ) (requests : List Request) (answers : List Answer) (old new : Content ℕ) (before after : ℕ) (run : Run H.lacks requests answers old new before after)
        → sure_pool blocks bytes (Some size) ≡ Some least → least ≤ pool → sure_records blocks ≤ records → add_pool base pool (created records) ≡ Ok old
        → StaysWithin blocks bytes size H.lacks requests answers old new before after run → All IsNotFull answers }
{}

/// The sure pool can't be smaller. On a heap that was just created and given one pool of a unit less, some run within the
/// bounds is refused for want of a block. The size is above a unit, and the bytes are whole units.
///
/// `larger`: the size is the lowest of any class. The bytes are at least those of one block of the size and of a unit for each
/// other block. They are at most those of all blocks at the size.
///
/// `smaller`: the bytes are fewer, but at least a unit for each block. The size is a power of two, and the pool begins a unit
/// behind a multiple of it.
///
/// The law says nothing of other bytes, nor of several pools.
pub fn sure_pool_is_least<H: Heaped>()
    ensures larger { (blocks bytes size records base pool : ℕ) (old : Content ℕ) → class_size 1 size ≡ Some size → unit < size
        → bytes % unit ≡ 0 → (blocks - 1) * unit + size ≤ bytes → bytes ≤ blocks * size
        → sure_pool blocks bytes (Some size) ≡ Some (pool + unit) → sure_records blocks ≤ records → add_pool base pool (created records) ≡ Ok old
        → IsRefusedWithin blocks bytes size H.lacks old }
    ensures smaller { (blocks bytes size records base pool : ℕ) (old : Content ℕ) → is_alignment size ≡ true → unit < size → base % size ≡ unit
        → 0 < blocks → bytes % unit ≡ 0 → blocks * unit ≤ bytes → bytes ≤ (blocks - 1) * unit + size
        → sure_pool blocks bytes (Some size) ≡ Some (pool + unit) → sure_records blocks ≤ records → add_pool base pool (created records) ≡ Ok old
        → IsRefusedWithin blocks bytes size H.lacks old }
{}

/// A request for which there is room is served by any heap, unless the heap lacks memory: the definitions give no refusal, but for
/// a bad alignment or a pointer of no live block.
pub fn room_is_served()
    ensures malloc { (slot n : ℕ) (content : Content ℕ) (refusal : Refusal) → IsGood content → HasRoom n content → malloc slot n content ≢ Err refusal }
    ensures memalign { (slot align n : ℕ) (content : Content ℕ) (refusal : Refusal) → IsGood content → HasRoomAligned align n content → memalign slot align n content ≡ Err refusal → refusal ≡ BadAlign }
    ensures realloc { (slot n : ℕ) (ptr : Option Pointer) (content : Content ℕ) (refusal : Refusal) → IsGood content → HasRoom n content → realloc_ptr ptr n slot content ≡ Err refusal → refusal ≡ BadPointer }
{}

/// What is within bounds, on a heap large enough for them, has room.
pub fn within_has_room()
    ensures plain { (blocks bytes size n : ℕ) (content : Content ℕ) → IsLargeEnough blocks bytes size content → TakesWithin blocks bytes size (λ m. m) n content → HasRoom n content }
    ensures aligned { (blocks bytes size align n : ℕ) (content : Content ℕ) → IsLargeEnough blocks bytes size content → TakesWithin blocks bytes size (size_asked align) n content → HasRoomAligned align n content }
{}

/// A request for no more bytes, at no greater alignment, asks for no larger class.
pub fn smaller_asks_less()
    ensures { (most_align most size align n : ℕ) → class_size most_align most ≡ Some size → is_alignment align ≡ true → align ≤ most_align → n ≢ 0 → n ≤ most → AsksAtMost size (size_asked align) n }
{}

/// Where a record is left, malloc of some bytes is served unless no block fits.
pub fn a_record_left_serves()
    ensures { (slot n : ℕ) (content : Content ℕ) → n ≢ 0 → used_records content < content.records → malloc slot n content ≢ Err NoFit → IsOk (malloc slot n content) }
{}

/// Blocks of one size alone, the lowest of a class, waste nothing. A heap was just created and given one pool, of at least as
/// many bytes as `blocks` such blocks have. It has records for as many such blocks as have the bytes of the pool, or two for
/// each of the `blocks`. Then no request of a run that holds at most `blocks` of them at once is refused for want of a block
/// or of a record, in whatever order they are asked for and given back.
pub fn blocks_of_one_size_find_room<H: Heaped>()
    ensures { (blocks size records base pool : ℕ) (requests : List Request) (answers : List Answer) (old new : Content ℕ) (before after : ℕ) (run : Run H.lacks requests answers old new before after)
        → add_pool base pool (created records) ≡ Ok old → class_size 1 size ≡ Some size → blocks * size ≤ pool → HasRecords blocks size pool records → StaysOfSize blocks size H.lacks requests answers old new before after run → All IsNotFull answers }
{}

/// A live block has the size of what was last asked for, rounded up, where a run stays within the bounds and the heap that it
/// starts on, with no block live, is large enough for these. So a program that knows what it asked for knows how many bytes its
/// live blocks have.
pub fn live_blocks_are_as_asked<H: Heaped>()
    ensures { (blocks bytes size : ℕ) (requests : List Request) (answers : List Answer) (old new : Content ℕ) (before after : ℕ) (run : Run H.lacks requests answers old new before after)
        → IsGood old → IsLargeEnough blocks bytes size old → live_blocks old ≡ 0 → StaysWithin blocks bytes size H.lacks requests answers old new before after run → AreAsAsked (last_asked requests answers) new }
{}
