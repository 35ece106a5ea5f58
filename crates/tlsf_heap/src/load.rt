//! A store that holds what an image describes.

ghost use Rattle.std.specs.Prelude.{◌≡◌, ◌+◌, ◌*◌, ◌≤◌, length, IfOk, IfErr};
ghost use Rattle.tlsf_class.specs.Classes.{classes};
ghost use Rattle.tlsf_store.specs.declared.errors.StoreError.TheVariants.{OutOfMemory};
ghost use Rattle.tlsf_store.specs.Records.{vacant_count};
ghost use Rattle.tlsf_store.specs.Cells.{most_pools};
ghost use Rattle.tlsf_heap.specs.Inner.Loading.{CanBeStored, with_records, with_pools, HasHeadsBelow, HoldsSections};

use crate::bitmaps::set_class_bit;
use crate::image::HasSections;
use std::alloc::Global;
use tlsf_class::{CLASSES, Class};
use tlsf_store::{MOST_POOLS, Slot, State, Store, StoreError};

/// Writes the records of a table over those of a store, none of which is vacant. At most three touches each.
fn fill_records<T: HasSections>(store: &mut Store, table: &mut T)
    requires none { vacant_count store.old.cells.records ≡ 0 }
    requires count { length store.old.cells.records ≡ length (T.sections table.old).records }
    requires stored { CanBeStored (T.sections table.old) }
    ensures cells { store.new.cells ≡ with_records (T.sections table.old).records store.old.cells }
    ensures same { T.sections table.new ≡ T.sections table.old }
    ensures touches { store.new.touches ≤ store.old.touches + 3 * length (T.sections table.old).records }
{
    for number in 0..table.count() {
        let slot = Slot(number as u16);
        let block = table.record(slot);
        match block.state {
            State::Vacant => store.give_vacant(slot),
            State::Free | State::Live => store.write(slot, block),
        }
    }
}

/// Makes the heads of a table those of a store without heads, and sets their bits. At most five touches a class.
fn fill_heads<T: HasSections>(store: &mut Store, table: &mut T)
    requires empty { HasHeadsBelow (T.sections table.old).heads store.old.cells 0 store.old.cells }
    requires count { length store.old.cells.records ≡ length (T.sections table.old).records }
    requires stored { CanBeStored (T.sections table.old) }
    ensures heads { store.new.cells.heads ≡ (T.sections table.old).heads }
    ensures filled { HasHeadsBelow (T.sections table.old).heads store.old.cells classes store.new.cells }
    ensures same { T.sections table.new ≡ T.sections table.old }
    ensures touches { store.new.touches ≤ store.old.touches + 5 * classes }
{
    for number in 0..CLASSES {
        let class = Class::new(number);
        if let Some(first) = table.head(class) {
            store.set_head(class, Some(first));
            set_class_bit(store, class);
        }
    }
}

/// Makes the pools of a table those of a store. A touch a pool.
fn fill_pools<T: HasSections>(store: &mut Store, table: &mut T)
    requires pools { length store.old.cells.pools ≡ most_pools }
    requires count { length store.old.cells.records ≡ length (T.sections table.old).records }
    ensures cells { store.new.cells ≡ with_pools (T.sections table.old).pools store.old.cells }
    ensures same { T.sections table.new ≡ T.sections table.old }
    ensures touches { store.new.touches ≡ store.old.touches + most_pools }
{
    for number in 0..MOST_POOLS as u32 {
        store.set_pool(number, table.pool(number));
    }
}

/// A store that holds what a table does. It takes memory once, for its own table. At most five touches a record and a class, and
/// ten more.
pub(crate) fn stored<T: HasSections>(alloc: Global, table: &mut T) -> Result<Store, StoreError>
    requires stored { CanBeStored (T.sections table.old) }
    ensures held { IfOk result (λ store. HoldsSections (T.sections table.old) store.cells) }
    ensures bound { IfOk result (λ store. store.touches ≤ 5 * length (T.sections table.old).records + 5 * classes + 10) }
    ensures same { T.sections table.new ≡ T.sections table.old }
    ensures memory { IfErr result (λ error. error ≡ OutOfMemory) }
{
    let mut store = Store::create(alloc, table.count())?;
    while store.take_vacant().is_some() {}
    fill_records(&mut store, table);
    fill_heads(&mut store, table);
    fill_pools(&mut store, table);
    Ok(store)
}
