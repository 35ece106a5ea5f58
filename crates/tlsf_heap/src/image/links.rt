//! The links of heads and records.

ghost use Rattle.std.specs.Prelude.{◌≡◌, ◌<◌, length};
ghost use Rattle.std.specs.List.{list_all};
ghost use Rattle.tlsf_store.specs.Records.{most_records};
ghost use Rattle.tlsf_heap.specs.Images.Rules.{is_below, has_record_links};
ghost use Rattle.tlsf_heap.specs.Images.Findings.{blocks_and, links_found, Finds};

use super::HasSections;
use tlsf_class::{CLASSES, Class};
use tlsf_store::{Record, Slot, State};

/// How many blocks there are, and how many of them are free.
#[derive(Clone, Copy)]
pub(crate) struct Blocks {
    pub(crate) all: u32,
    pub(crate) free: u32,
}

impl Blocks {
    /// The blocks and one record more.
    fn and(self, block: &Record) -> Blocks
        requires all { self.all < most_records }
        requires free { self.free < most_records }
        ensures { result ≡ blocks_and block.now self }
    {
        match block.state {
            State::Vacant => self,
            State::Live => Blocks {
                all: self.all + 1,
                free: self.free,
            },
            State::Free => Blocks {
                all: self.all + 1,
                free: self.free + 1,
            },
        }
    }
}

/// Whether the link is none, or of one of this many records.
fn is_below(slot: Option<Slot>, count: u32) -> bool
    ensures { result ≡ is_below count slot }
{
    match slot {
        Some(slot) => u32::from(slot.0) < count,
        None => true,
    }
}

/// Whether a block has bytes and links of this many records, and a live one no links in a list.
fn has_links(block: &Record, count: u32) -> bool
    ensures { result ≡ has_record_links count block.now }
{
    let listed = match block.state {
        State::Vacant => return true,
        State::Free => is_below(block.prev_free, count) && is_below(block.next_free, count),
        State::Live => block.prev_free.is_none() && block.next_free.is_none(),
    };
    block.size > 0 && is_below(block.prev, count) && is_below(block.next, count) && listed
}

/// Whether each head is none, or one of the records.
fn has_head_links<T: HasSections>(table: &mut T) -> bool
    ensures { Finds result (list_all (is_below (length (T.sections table.old).records)) (T.sections table.old).heads) T.sections T.cells T.touches table.old table.new }
{
    let count = table.count();
    for number in 0..CLASSES {
        if !is_below(table.head(Class::new(number)), count) {
            return false;
        }
    }
    true
}

/// How many blocks the records are of, if the heads pass `has_head_links` and each record
/// `has_links`.
pub(crate) fn look_at_links<T: HasSections>(table: &mut T) -> Option<Blocks>
    ensures { Finds result (links_found (T.sections table.old)) T.sections T.cells T.touches table.old table.new }
{
    if !has_head_links(table) {
        return None;
    }
    let count = table.count();
    let mut blocks = Blocks { all: 0, free: 0 };
    for slot in 0..count {
        let block = table.record(Slot(slot as u16));
        if !has_links(&block, count) {
            return None;
        }
        blocks = blocks.and(&block);
    }
    Some(blocks)
}
