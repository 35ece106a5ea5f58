//! Long random runs over both heaps: they answer the same but for slots, and have the same rows.

use std::alloc::{AllocError, Global};
use tlsf_class::{CLASSES, Class, low};
use tlsf_heap::*;

/// A heap of this many records, where its pools begin and how many bytes they have, and how many runs are made.
#[derive(Clone, Copy)]
struct Setup {
    runs: u32,
    records: u32,
    pools: [(u64, u64); 3],
}

/// So few records that the table is often full. Two of the pools touch.
const SMALL: Setup = Setup {
    runs: 200,
    records: 24,
    pools: [(0, 8192), (8192, 2048), (16_384, 1040)],
};

/// More records than a byte has numbers.
const LARGE: Setup = Setup {
    runs: 80,
    records: 400,
    pools: [(0, 262_144), (262_144, 65_536), (327_680, 16_400)],
};

/// How many requests a run has.
const REQUESTS: u32 = 16;

/// The next number of a sequence that looks random (xorshift, Marsaglia 2003).
pub fn shifted(number: u64) -> u64 {
    let once = number ^ number << 13;
    let twice = once ^ once >> 7;
    twice ^ twice << 17
}

/// A size at, just below or just above the least of a class of blocks up to some hundred bytes.
fn size_near_class(number: u64) -> u64 {
    let class = (number % 90) as u32;
    let least = if class < CLASSES as u32 {
        low(Class::new(class))
    } else {
        0
    };
    (u64::from(least) + number / 90 % 33).saturating_sub(16)
}

/// The pointers that both heaps gave for one request, while their block is live.
#[derive(Clone, Copy)]
struct Given {
    tlsf: Ptr,
    plain: Ptr,
}

/// How often each kind of answer came, and the highest slot that each heap gave.
#[derive(Clone, Copy)]
struct Tally {
    done: u32,
    given: u32,
    moved: u32,
    freed: u32,
    sized: u32,
    no_fit: u32,
    table_full: u32,
    bad_pointer: u32,
    bad_align: u32,
    pool_in_use: u32,
    tlsf_slot: u16,
    plain_slot: u16,
}

impl Tally {
    /// The tally with this answer counted.
    fn with(&self, answer: &Answer) -> Tally {
        let mut tally = *self;
        match answer {
            Answer::Done => tally.done = self.done.saturating_add(1),
            Answer::Given(_) => tally.given = self.given.saturating_add(1),
            Answer::Moved(Some(_)) => tally.moved = self.moved.saturating_add(1),
            Answer::Moved(None) => tally.freed = self.freed.saturating_add(1),
            Answer::Size(_) => tally.sized = self.sized.saturating_add(1),
            Answer::Refused(refusal) => tally = self.with_refusal(*refusal),
        }
        tally
    }

    /// The tally with this refusal counted.
    fn with_refusal(&self, refusal: Refusal) -> Tally {
        let mut tally = *self;
        match refusal {
            Refusal::NoFit => tally.no_fit = self.no_fit.saturating_add(1),
            Refusal::TableFull => tally.table_full = self.table_full.saturating_add(1),
            Refusal::BadPointer => tally.bad_pointer = self.bad_pointer.saturating_add(1),
            Refusal::BadAlign => tally.bad_align = self.bad_align.saturating_add(1),
            Refusal::PoolInUse => tally.pool_in_use = self.pool_in_use.saturating_add(1),
            _ => {}
        }
        tally
    }

    /// The tally with the slots of what both heaps gave.
    fn with_slots(&self, given: &Given) -> Tally {
        Tally {
            tlsf_slot: self.tlsf_slot.max(given.tlsf.slot()),
            plain_slot: self.plain_slot.max(given.plain.slot()),
            ..*self
        }
    }

    /// Whether each kind came often.
    fn is_varied(self) -> bool {
        let often = self.done >= 300 && self.given >= 300 && self.moved >= 100 && self.sized >= 50;
        let refused = self.no_fit >= 100 && self.table_full >= 100 && self.bad_pointer >= 50;
        often && refused && self.freed >= 10 && self.bad_align >= 10 && self.pool_in_use >= 10
    }

    /// Whether blocks were given and freed often, and both heaps gave slots above the numbers of a byte.
    fn has_high_slots(self) -> bool {
        self.done >= 200 && self.given >= 400 && self.tlsf_slot > 255 && self.plain_slot > 255
    }
}

/// A pointer that no heap gave: no block begins at its place.
fn stale(number: u64) -> Ptr {
    let place = (number >> 8) % 8192 * 16 + 8;
    Ptr::new(place as u32, (number % 32) as u16)
}

/// A request of each heap, without a pointer of a live block; the pool named comes and goes.
fn request_of_none(number: u64, base: u64, bytes: u64) -> Request {
    let size = size_near_class(number >> 16);
    match number % 16 {
        0 => Request::RemovePool(base),
        1 => Request::AddPool(base, bytes),
        2 => Request::Memalign(number >> 8 & 255, size),
        3..=6 => Request::Memalign(1 << (number >> 8 & 7), size),
        7 => Request::Realloc(None, size),
        8 => Request::Free(stale(number)),
        _ => Request::Malloc(size),
    }
}

/// A request of one heap, with its pointer of a live block.
fn request_of(number: u64, ptr: Ptr) -> Request {
    match number % 8 {
        0 | 1 => Request::Realloc(Some(ptr), size_near_class(number >> 16)),
        2 => Request::BlockSize(ptr),
        3 if number >> 16 & 3 == 0 => Request::Realloc(Some(ptr), 0),
        _ => Request::Free(ptr),
    }
}

/// One of the blocks that are live, which is asked with next; none for a request without one.
fn taken(number: u64, live: &mut Vec<Given>) -> Option<Given> {
    let place = (number >> 8) as usize % 32;
    if number % 5 < 2 && place < live.len() {
        Some(live.remove(place))
    } else {
        None
    }
}

/// Puts a request for both heaps at the end: of a block that is live, or of none. The block isn't asked with
/// again until its answer is there. The pool comes and goes.
fn push_request(
    number: u64,
    pool: (u64, u64),
    live: &mut Vec<Given>,
    tlsf: &mut Vec<Request>,
    plain: &mut Vec<Request>,
) -> Result<(), AllocError> {
    match taken(number, live) {
        Some(given) => {
            tlsf.push(request_of(number >> 24, given.tlsf))?;
            plain.push(request_of(number >> 24, given.plain))?;
        }
        None => {
            let (base, bytes) = pool;
            tlsf.push(request_of_none(number >> 24, base, bytes))?;
            plain.push(request_of_none(number >> 24, base, bytes))?;
        }
    }
    Ok(())
}

/// The pointer of the block that is live after a request with this answer, if one is.
fn pointer_after(request: Request, answer: &Answer) -> Option<Ptr> {
    match answer {
        Answer::Given(ptr) => Some(*ptr),
        Answer::Moved(ptr) => *ptr,
        Answer::Size(_) | Answer::Refused(_) => pointer_in(request),
        Answer::Done => None,
    }
}

/// The pointer of a live block that a request has.
fn pointer_in(request: Request) -> Option<Ptr> {
    match request {
        Request::Realloc(ptr, _) => ptr,
        Request::BlockSize(ptr) => Some(ptr),
        _ => None,
    }
}

/// Whether the answers are the same, but for slots.
fn is_same(one: &Answer, other: &Answer) -> bool {
    match (one, other) {
        (Answer::Given(one), Answer::Given(other)) => one.place() == other.place(),
        (Answer::Moved(Some(one)), Answer::Moved(Some(other))) => one.place() == other.place(),
        _ => *one == *other,
    }
}

/// The requests of one run of a heap, and their answers.
#[derive(Drop)]
struct Asked {
    requests: Vec<Request>,
    answers: Vec<Answer>,
}

/// Whether both heaps answered the same, but for slots. What they gave is live from then on.
fn same_answers(
    tlsf: &Asked,
    plain: &Asked,
    live: &mut Vec<Given>,
    tally: &mut Tally,
) -> Result<bool, AllocError> {
    let ones = tlsf.requests.iter().zip(tlsf.answers.iter());
    let others = plain.requests.iter().zip(plain.answers.iter());
    for ((request, one), (same, other)) in ones.zip(others) {
        *tally = tally.with(one);
        if !is_same(one, other) {
            return Ok(false);
        }
        let after = (pointer_after(*request, one), pointer_after(*same, other));
        if let (Some(tlsf), Some(plain)) = after {
            let given = Given { tlsf, plain };
            *tally = tally.with_slots(&given);
            live.push(given)?;
        }
    }
    Ok(tlsf.answers.len() == plain.answers.len())
}

/// Whether the pool at a base has the same rows in both heaps.
fn same_rows<A: Heaped, B: Heaped>(tlsf: &mut A, plain: &mut B, base: u64, records: u32) -> bool {
    let (mut one, mut other) = match (tlsf.first(base), plain.first(base)) {
        (Ok(one), Ok(other)) => (one, other),
        (Err(one), Err(other)) => return one == other,
        _ => return false,
    };
    for _row in 0..=records {
        match (tlsf.row(one), plain.row(other)) {
            (Some((row, next)), Some((same, behind))) => {
                if row != same {
                    return false;
                }
                one = next;
                other = behind;
            }
            (None, None) => return true,
            _ => return false,
        }
    }
    false
}

/// Whether all pools have the same rows in both heaps.
fn same_pools(setup: Setup, tlsf: &mut Heap, plain: &mut PlainHeap) -> bool {
    for (base, _bytes) in setup.pools {
        if !same_rows(tlsf, plain, base, setup.records) {
            return false;
        }
    }
    true
}

/// The requests of one run for both heaps, and the number after them.
fn requests(
    alloc: Global,
    setup: Setup,
    from: u64,
    live: &mut Vec<Given>,
) -> Result<(Vec<Request>, Vec<Request>, u64), AllocError> {
    let mut number = from;
    let mut tlsf = Vec::new(alloc);
    let mut plain = Vec::new(alloc);
    for _request in 0..REQUESTS {
        number = shifted(number);
        push_request(number, setup.pools[2], live, &mut tlsf, &mut plain)?;
    }
    Ok((tlsf, plain, number))
}

/// Makes one run over both heaps. Whether they answered the same, and the number after the run.
fn same_run(
    alloc: Global,
    setup: Setup,
    from: u64,
    live: &mut Vec<Given>,
    tally: &mut Tally,
    tlsf: &mut Heap,
    plain: &mut PlainHeap,
) -> Result<(bool, u64), AllocError> {
    let (asked, same_asked, number) = requests(alloc, setup, from, live)?;
    let Ok(answers) = run(alloc, tlsf, asked.as_slice()) else {
        return Err(AllocError);
    };
    let Ok(others) = run(alloc, plain, same_asked.as_slice()) else {
        return Err(AllocError);
    };
    let tlsf_asked = Asked {
        requests: asked,
        answers,
    };
    let plain_asked = Asked {
        requests: same_asked,
        answers: others,
    };
    let same = same_answers(&tlsf_asked, &plain_asked, live, tally)?;
    Ok((same && same_pools(setup, tlsf, plain), number))
}

/// Both heaps of a setup, if they take its pools.
fn both_heaps(alloc: Global, setup: Setup) -> Result<(Heap, PlainHeap), AllocError> {
    let Ok(mut tlsf) = Heap::create(alloc, setup.records) else {
        return Err(AllocError);
    };
    let Ok(mut plain) = PlainHeap::create(alloc, setup.records) else {
        return Err(AllocError);
    };
    for (base, bytes) in setup.pools {
        if tlsf.add_pool(base, bytes) != Ok(()) || plain.add_pool(base, bytes) != Ok(()) {
            return Err(AllocError);
        }
    }
    Ok((tlsf, plain))
}

/// Makes all runs over both heaps, from a fixed number. The tally, where all of them were the same.
fn same_runs(alloc: Global, setup: Setup) -> Result<Option<Tally>, AllocError> {
    let (mut tlsf, mut plain) = both_heaps(alloc, setup)?;
    let mut live = Vec::new(alloc);
    let mut tally = Tally {
        done: 0,
        given: 0,
        moved: 0,
        freed: 0,
        sized: 0,
        no_fit: 0,
        table_full: 0,
        bad_pointer: 0,
        bad_align: 0,
        pool_in_use: 0,
        tlsf_slot: 0,
        plain_slot: 0,
    };
    let mut number = 88_172_645_463_325_252;
    for _run in 0..setup.runs {
        let (same, next) = same_run(
            alloc, setup, number, &mut live, &mut tally, &mut tlsf, &mut plain,
        )?;
        if !same {
            return Ok(None);
        }
        number = next;
    }
    Ok(Some(tally))
}

#[test]
fn random_runs_over_both(rt: HostRuntime) {
    let tally = same_runs(rt.alloc(), SMALL).expect(&rt, "memory");
    assert!(rt; tally.is_some_and(|tally| tally.is_varied()));
}

#[test]
fn random_runs_to_high_slots(rt: HostRuntime) {
    let tally = same_runs(rt.alloc(), LARGE).expect(&rt, "memory");
    assert!(rt; tally.is_some_and(|tally| tally.has_high_slots()));
}
