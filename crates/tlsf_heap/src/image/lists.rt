//! The lists of the classes.

ghost use Rattle.std.specs.Prelude.{◌≡◌, ◌%◌, ◌<◌, ◌≤◌, IsTrue, true, length, IfSome};
ghost use Rattle.tlsf_class.specs.Classes.{unit, classes, greatest_size};
ghost use Rattle.tlsf_store.specs.Records.{most_records, is_free_state};
ghost use Rattle.tlsf_store.specs.Cells.{head_at};
ghost use Rattle.tlsf_heap.specs.Images.Rules.{has_links};
ghost use Rattle.tlsf_heap.specs.Images.Findings.{list_found, lists_with, is_behind, HasSizes, OnlyReads, Finds};

use super::HasSections;
use tlsf_class::{CLASSES, Class, class_of};
use tlsf_store::{Record, Slot};

/// Whether the record is of a free block of the class, behind the one before it in its list, if there is one.
fn is_behind(before: Option<Slot>, block: &Record, class: Class) -> bool
    requires whole { block.now.size % unit ≡ 0 }
    requires least { is_free_state block.now.state ≡ true → unit ≤ block.now.size }
    requires most { is_free_state block.now.state ≡ true → block.now.size ≤ greatest_size }
    ensures { result ≡ is_behind before class block.now }
{
    block.state.is_free() && class_of(block.size) == class && block.prev_free == before
}

/// How many blocks the list of a class has, if it ends, has free blocks of the class alone, and is linked back.
fn look_at_list<T: HasSections>(table: &mut T, class: Class) -> Option<u32>
    requires links { IsTrue (has_links (T.sections table.old)) }
    requires sizes { HasSizes (T.sections table.old) }
    ensures value { result ≡ list_found (T.sections table.old) class (head_at (T.sections table.old).heads class) }
    ensures few { IfSome result (λ blocks. blocks ≤ most_records) }
    ensures whole { length (T.sections table.old).heads ≡ classes }
    ensures read { OnlyReads T.sections T.cells T.touches table.old table.new }
{
    let count = table.count();
    let mut blocks = 0;
    let mut before = None;
    let mut next = table.head(class);
    while let Some(slot) = next {
        let block = table.record(slot);
        if blocks >= count || !is_behind(before, &block, class) {
            return None;
        }
        blocks += 1;
        before = next;
        next = block.next_free;
    }
    Some(blocks)
}

/// How many blocks the lists of all classes have, if each ends, has free blocks of its class alone, and is linked
/// back.
pub(crate) fn look_at_lists<T: HasSections>(table: &mut T) -> Option<u32>
    requires links { IsTrue (has_links (T.sections table.old)) }
    requires sizes { HasSizes (T.sections table.old) }
    ensures { Finds result (lists_with (T.sections table.old) 0 0 (T.sections table.old).heads) T.sections T.cells T.touches table.old table.new }
{
    let mut blocks = 0;
    for number in 0..CLASSES {
        blocks += look_at_list(table, Class::new(number))?;
    }
    Some(blocks)
}
