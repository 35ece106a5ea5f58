//! The chain of the vacant records, tested record by record.

ghost use Rattle.std.specs.Prelude.{◌≡◌, ◌+◌, ◌≤◌, ◌↔◌, IsTrue, length};
ghost use Rattle.tlsf_store.specs.Records.{most_records, vacant_count};
ghost use Rattle.tlsf_store.specs.Table.{IsChain, next_at, IsVacantAt};

use super::Slot;
use super::ghost_count::GhostCount;
use super::packed::PackedRecord;
use super::slots::link_of;

/// How many records are vacant. A touch each.
pub(crate) fn count_vacant(records: &[PackedRecord], touches: &mut GhostCount) -> u32
    requires few { length records.now ≤ most_records }
    ensures value { result ≡ vacant_count records.now }
    ensures touched { touches.new.count ≡ touches.old.count + length records.now }
{
    let mut vacant = 0;
    for item in records {
        touches.tick();
        if item.is_vacant() {
            vacant += 1;
        }
    }
    vacant
}

/// Whether `vacant` vacant records stand from `first` on, each linked to the next, and the last one to none. It looks only at
/// slots of these records, whatever stands in them. A touch each.
pub(crate) fn is_chain(
    records: &[PackedRecord],
    first: Option<Slot>,
    vacant: u32,
    touches: &mut GhostCount,
) -> bool
    ensures exact { IsTrue result ↔ IsChain (IsVacantAt records.now) (next_at records.now) vacant first }
    ensures touched { IsTrue result → touches.new.count ≡ touches.old.count + vacant }
{
    let mut next = first;
    for _followed in 0..vacant {
        let Some(slot) = next else {
            return false;
        };
        if slot.index() >= records.len() {
            return false;
        }
        touches.tick();
        let block = &records[slot.index()];
        if !block.is_vacant() {
            return false;
        }
        next = link_of(block.next_word());
    }
    next.is_none()
}
