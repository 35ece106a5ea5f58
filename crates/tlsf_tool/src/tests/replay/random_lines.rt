//! Random lines over both heaps: what is held is compared after each, with a list of all addresses.

use super::*;
use crate::tests::expect_eq;
use mtrace_log::{Addr, Event};

/// A table of eight records: full now and then, so that each spot of the index is taken and left.
const SETTINGS: Settings = Settings {
    pool: 4096,
    pools: 1,
    records: 8,
};

/// The addresses: 0x10 and its multiples.
const ADDRESSES: usize = 24;

/// Random numbers, as xorshift gives them.
#[derive(Drop)]
pub struct Random {
    pub state: u64,
}

impl Random {
    /// A number below the bound.
    pub fn below(&mut self, bound: u64) -> u64 {
        self.state ^= self.state.wrapping_shl(13);
        self.state ^= self.state.wrapping_shr(7);
        self.state ^= self.state.wrapping_shl(17);
        self.state.checked_rem(bound).unwrap_or(0)
    }
}

/// Compares what is held with the lines that asked for it, one for each address, 0 where it isn't held.
fn expect_lines<H: Heaped>(rt: &impl Abort, replay: &Replay<H>, lines: &[u64; ADDRESSES]) {
    let mut held = replay.held();
    let mut address: u64 = 0;
    for line in lines {
        address = address.saturating_add(16);
        if *line > 0 {
            match held.next() {
                Some(entry) => {
                    expect_eq(rt, entry.addr.value(), address);
                    expect_eq(rt, entry.line, *line);
                }
                None => panic!(rt; "{address} is not held"),
            }
        }
    }
    assert!(rt; held.next().is_none(), "too many are held");
}

/// Feeds this many random lines, half of them free an address and half ask for one.
fn random_lines<H: Heaped>(rt: &impl Abort, alloc: Global, seed: u64, count: u64) {
    let Ok(mut fed) = Fed::<H>::create(alloc, SETTINGS) else {
        panic!(rt; "no memory");
    };
    let mut random = Random { state: seed };
    let mut lines = [0; ADDRESSES];
    for number in 1..count.saturating_add(1) {
        let at = random.below(ADDRESSES as u64);
        let Some(addr) = Addr::new(at.saturating_add(1).saturating_mul(16)) else {
            panic!(rt; "no address");
        };
        let size = random.below(64);
        let frees = random.below(2) == 0;
        let event = if frees {
            Event::Free { at: None, addr }
        } else {
            Event::Alloc {
                at: None,
                addr: Some(addr),
                size,
            }
        };
        let Ok(diagnostics) = fed.feed_event(rt, Ok(event)) else {
            panic!(rt; "no memory");
        };
        if let Some(line) = lines.get_mut(at as usize) {
            assert!(rt; !frees || diagnostics.is_empty() == (*line > 0), "{number}");
            if diagnostics.is_empty() {
                *line = if frees { 0 } else { number };
            }
        }
        expect_lines(rt, &fed.replay, &lines);
    }
}

#[test]
fn random_lines_over_both_heaps(rt: HostRuntime) {
    for seed in 1..9 {
        random_lines::<Heap>(&rt, rt.alloc(), seed, 200);
        random_lines::<PlainHeap>(&rt, rt.alloc(), seed, 40);
    }
}
