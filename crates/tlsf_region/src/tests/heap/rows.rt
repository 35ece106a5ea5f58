//! Rows of any heap, through runs of requests.

mod blocks;
mod pools;

use blocks::BLOCKS;
use pools::POOLS;
use std::alloc::Global;
use tlsf_heap::*;

/// What is asked of a heap.
#[derive(Clone, Copy)]
enum Ask {
    /// A pool from a place on, of this many bytes.
    Pool(u64, u64),
    /// That the pool from a place on is gone.
    RemovePool(u64),
    /// A block of this many bytes.
    Malloc(u64),
    /// A block at a multiple of an alignment, of this many bytes.
    Memalign(u64, u64),
    /// The block that was given last at this place becomes free, live or not.
    Free(u32),
    /// The block that was given last at this place gets this many bytes.
    Realloc(u32, u64),
    /// A new block of this many bytes, by realloc.
    ReallocNone(u64),
    /// The size of the block that was given last at this place.
    Size(u32),
}

/// What an answer shows but for the slot, which a heap chooses.
#[derive(Clone, Copy, PartialEq, Eq)]
enum Seen {
    Done,
    /// A new pointer, of a block at this place.
    At(u32),
    /// The pointer that was asked with.
    Kept,
    /// No pointer: the block is freed.
    Gone,
    Bytes(u32),
    Refused(Refusal),
    Other,
}

impl Seen {
    fn of(request: Request, answer: Option<&Answer>) -> Seen {
        match answer {
            Some(Answer::Done) => Seen::Done,
            Some(Answer::Given(ptr)) => Seen::At(ptr.place()),
            Some(Answer::Moved(Some(ptr))) => Seen::moved(request, *ptr),
            Some(Answer::Moved(None)) => Seen::Gone,
            Some(Answer::Size(bytes)) => Seen::Bytes(*bytes),
            Some(Answer::Refused(refusal)) => Seen::Refused(*refusal),
            None => Seen::Other,
        }
    }

    fn moved(request: Request, ptr: Ptr) -> Seen {
        match request {
            Request::Realloc(Some(old), _) => {
                if old == ptr {
                    Seen::Kept
                } else {
                    Seen::At(ptr.place())
                }
            }
            _ => Seen::At(ptr.place()),
        }
    }
}

/// A block of a pool: its place, its size, and whether it is live.
pub(crate) type Block = (u32, u32, bool);

/// A heap of this many records, and what is asked of it with what it answers. Its pools in the end are in order of
/// base, each with its rows.
#[derive(Clone, Copy)]
struct Case {
    name: &'static str,
    records: u32,
    steps: &'static [(Ask, Seen)],
    pools: &'static [(u64, &'static [Block])],
}

/// The pointer that was given last at a place.
fn given_at(given: &Vec<Ptr>, place: u32) -> Ptr {
    let mut last = Ptr::new(place, u16::MAX);
    for ptr in given {
        if ptr.place() == place {
            last = *ptr;
        }
    }
    last
}

/// The request, where these pointers were given.
fn request(ask: &Ask, given: &Vec<Ptr>) -> Request {
    match ask {
        Ask::Pool(base, bytes) => Request::AddPool(*base, *bytes),
        Ask::RemovePool(base) => Request::RemovePool(*base),
        Ask::Malloc(n) => Request::Malloc(*n),
        Ask::Memalign(align, n) => Request::Memalign(*align, *n),
        Ask::Free(place) => Request::Free(given_at(given, *place)),
        Ask::Realloc(place, n) => Request::Realloc(Some(given_at(given, *place)), *n),
        Ask::ReallocNone(n) => Request::Realloc(None, *n),
        Ask::Size(place) => Request::BlockSize(given_at(given, *place)),
    }
}

/// Whether these are the rows of the pool at a base.
pub(crate) fn has_rows<H: Heaped>(heap: &mut H, base: u64, wanted: &[Block]) -> bool {
    let Ok(mut cursor) = heap.first(base) else {
        return false;
    };
    for (place, size, used) in wanted {
        let Some((row, next)) = heap.row(cursor) else {
            return false;
        };
        if row
            != (Row {
                place: *place,
                size: *size,
                used: *used,
            })
        {
            return false;
        }
        cursor = next;
    }
    heap.row(cursor).is_none()
}

/// Asks one thing of the heap, and keeps the pointer that it is given.
fn answered<H: Heaped>(
    alloc: Global,
    heap: &mut H,
    given: &mut Vec<Ptr>,
    ask: &Ask,
) -> Result<Seen, StoreError> {
    let answers = run(alloc, heap, &[request(ask, given)])?;
    let seen = Seen::of(request(ask, given), answers.first());
    if let Some(ptr) = pointer_in(answers.first()) {
        if given.push(ptr).is_err() {
            return Err(StoreError::OutOfMemory);
        }
    }
    Ok(seen)
}

/// The pointer that an answer gives.
fn pointer_in(answer: Option<&Answer>) -> Option<Ptr> {
    match answer {
        Some(Answer::Given(ptr)) => Some(*ptr),
        Some(Answer::Moved(ptr)) => *ptr,
        _ => None,
    }
}

/// Whether this is the pool from a base on that ends with the last of these rows.
fn is_pool(pool: (u64, u64), base: u64, rows: &[Block]) -> bool {
    let (from, bytes) = pool;
    match rows.last() {
        Some((place, size, _used)) => {
            from == base && from.checked_add(bytes) == Some(u64::from(*place) + u64::from(*size))
        }
        None => false,
    }
}

/// Whether these are the pools of a heap, in order, with their rows.
fn has_pools<H: Heaped>(heap: &mut H, wanted: &[(u64, &[Block])]) -> bool {
    let pools = heap.pools();
    for (base, rows) in wanted {
        if !has_rows(heap, *base, rows) {
            return false;
        }
    }
    pools.len() == wanted.len()
        && pools
            .iter()
            .zip(wanted.iter())
            .all(|(pool, (base, rows))| is_pool(*pool, *base, rows))
}

/// Whether a heap answers as the case says, and has its rows then.
fn holds<H: Heaped>(alloc: Global, case: &Case) -> Result<bool, StoreError> {
    let mut heap = H::create(alloc, case.records)?;
    let mut given = Vec::new(alloc);
    for (asked, wanted) in case.steps {
        if answered(alloc, &mut heap, &mut given, asked)? != *wanted {
            return Ok(false);
        }
    }
    Ok(has_pools(&mut heap, case.pools))
}

/// Whether both heaps do.
fn both_hold(alloc: Global, case: &Case) -> bool {
    holds::<Heap>(alloc, case) == Ok(true) && holds::<PlainHeap>(alloc, case) == Ok(true)
}

#[test]
fn rows_of_blocks(rt: HostRuntime) {
    for case in BLOCKS {
        let name = case.name;
        assert!(rt; both_hold(rt.alloc(), &case), "{name}");
    }
}

#[test]
fn rows_of_pools(rt: HostRuntime) {
    for case in POOLS {
        let name = case.name;
        assert!(rt; both_hold(rt.alloc(), &case), "{name}");
    }
}

/// A heap of any number of records has a pool and its blocks; of one record a pool is one block.
#[test]
fn counts_of_records(rt: HostRuntime) {
    for records in [1, 2, 3, 10, 999, 1_000, 1_001, 4_096, 8_192, 65_534, 65_535] {
        let whole = Case { records, ..WHOLE };
        assert!(rt; both_hold(rt.alloc(), &whole), "{records}");
        if records > 1 {
            let split = Case { records, ..SPLIT };
            assert!(rt; both_hold(rt.alloc(), &split), "{records}");
        }
    }
}

/// A pool that is one live block, and one that is split.
const WHOLE: Case = Case {
    name: "whole",
    records: 1,
    steps: &[
        (Ask::Pool(0, 64), Seen::Done),
        (Ask::Malloc(64), Seen::At(0)),
    ],
    pools: &[(0, &[(0, 64, true)])],
};

const SPLIT: Case = Case {
    name: "split",
    records: 2,
    steps: &[
        (Ask::Pool(0, 64), Seen::Done),
        (Ask::Malloc(8), Seen::At(0)),
    ],
    pools: &[(0, &[(0, 16, true), (16, 48, false)])],
};
