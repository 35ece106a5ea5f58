//! Images of a heap: what stands where in their bytes, the twelve rules that tell whether bytes are one, and how one is written.

ghost use Rattle.std.specs.Prelude.{◌≡◌, ◌+◌, ◌%◌, ◌<◌, ◌≤◌, IfErr, IfOk, None, Some, length};
ghost use Rattle.tlsf_class.specs.Classes.{unit};
ghost use Rattle.tlsf_heap.specs.Images.Image.{sections_in, record_start, record_in};
ghost use Rattle.tlsf_heap.specs.Images.Rules.{first_broken, IsReadable};

mod bitmaps;
mod bytes;
mod chains;
mod has_sections;
mod header;
mod links;
mod lists;
mod pools;
mod rule;
mod rules;
mod store_sections;
mod whole;
mod writing;

use bytes::{four_at, two_at};
pub use has_sections::HasSections;
use header::{
    COUNT_AT, HEAD_BYTES, HEADS_AT, POOLS_AT, RECORD_BYTES, RECORDS_AT, has_length, has_magic,
    has_pools, has_states, has_unused_pools, pool_in,
};
pub use rule::Rule;
use rules::first_behind_pools;
pub use rules::first_broken;
use std::marker::Model;
use tlsf_class::{Class, UNIT};
use tlsf_store::{Pool, Record, Slot, State, link_of};
pub use whole::is_whole;
pub use writing::put_image;

/// Bytes of which the rules up to that of states hold: header, pools, heads and records can be read.
#[derive(Drop)]
pub struct Image<'a> {
    bytes: &'a [u8],
}

impl<'a> Model for Image<'a> {
    ghost use Rattle.std.specs.Prelude.{List, ℕ};
    ghost use Rattle.tlsf_heap.specs.Images.Rules.{IsReadable};

    ghost Value = { List ℕ };

    ghost view = { λ image. image.bytes.now };

    ghost invariant = { λ image. IsReadable image.bytes.now };
}

impl<'a> Image<'a> {
    /// The image that these bytes are.
    ///
    /// # Errors
    ///
    /// The first rule that the bytes break. It takes no memory; its time is linear in the bytes.
    pub fn read(bytes: &'a [u8]) -> Result<Image<'a>, Rule>
        ensures broken { IfErr result (λ rule. first_broken bytes.now ≡ Some rule) }
        ensures whole { IfOk result (λ image. first_broken bytes.now ≡ None) }
        ensures bytes { IfOk result (λ image. image ≡ bytes.now) }
    {
        if !has_magic(bytes) {
            return Err(Rule::Magic);
        }
        if !has_length(bytes) {
            return Err(Rule::Length);
        }
        if !has_pools(bytes) {
            return Err(Rule::Pools);
        }
        if !has_unused_pools(bytes) {
            return Err(Rule::UnusedPools);
        }
        if !has_states(bytes) {
            return Err(Rule::States);
        }
        let mut image = Image { bytes };
        match first_behind_pools(&mut image) {
            Some(rule) => Err(rule),
            None => Ok(Image { bytes }),
        }
    }
}

/// A vacant record.
pub(crate) const VACANT: Record = Record {
    place: 0,
    size: 0,
    state: State::Vacant,
    prev: None,
    next: None,
    prev_free: None,
    next_free: None,
};

/// The record of a slot.
fn record_in(bytes: &[u8], slot: Slot) -> Record
    requires { record_start slot + 16 ≤ length bytes.now }
    ensures value { result ≡ record_in bytes.now slot }
    ensures whole { result.size % unit ≡ 0 }
{
    let at = RECORDS_AT + RECORD_BYTES * usize::from(slot.0);
    let word = four_at(bytes, at + 4);
    if word % UNIT == 0 {
        return VACANT;
    }
    Record {
        place: four_at(bytes, at),
        size: word - word % UNIT,
        state: if word % UNIT == 1 {
            State::Free
        } else {
            State::Live
        },
        prev: link_of(two_at(bytes, at + 8)),
        next: link_of(two_at(bytes, at + 10)),
        prev_free: link_of(two_at(bytes, at + 12)),
        next_free: link_of(two_at(bytes, at + 14)),
    }
}

impl<'a> HasSections for Image<'a> {
    ghost use Rattle.std.specs.Prelude.{◌≡◌, ◌<◌, ◌≤◌, length};
    ghost use Rattle.tlsf_store.specs.Cells.{empty_cells};
    ghost use Rattle.tlsf_heap.specs.Images.Image.{sections_in};

    ghost sections = { λ image. sections_in image };

    ghost cells = { λ image. empty_cells 0 };

    ghost touches = { λ image. 0 };

    fn count(&self) -> u32 {
        u32::from(two_at(self.bytes, COUNT_AT))
    }

    fn record(&mut self, slot: Slot) -> Record {
        record_in(self.bytes, slot)
    }

    fn head(&mut self, class: Class) -> Option<Slot> {
        link_of(two_at(self.bytes, HEADS_AT + HEAD_BYTES * class.number() as usize))
    }

    fn pool(&mut self, number: u32) -> Option<Pool> {
        if number >= u32::from(two_at(self.bytes, POOLS_AT)) {
            return None;
        }
        Some(pool_in(self.bytes, number as usize))
    }
}
