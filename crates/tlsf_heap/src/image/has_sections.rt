//! What the rules look at: records, heads and pools, in memory or in the bytes of an image.

ghost use Rattle.std.specs.Prelude.{◌≡◌, ℕ, ◌%◌, ◌<◌, ◌≤◌, length};
ghost use Rattle.tlsf_class.specs.Classes.{unit, classes};
ghost use Rattle.tlsf_store.specs.Records.{record_at, most_records};
ghost use Rattle.tlsf_store.specs.Cells.{Cells, head_at, pool_at, most_pools, IsPoolBelow};
ghost use Rattle.tlsf_heap.specs.Images.Image.{Sections};
ghost use Rattle.tlsf_heap.specs.Images.Findings.{OnlyReads};

use tlsf_class::Class;
use tlsf_store::{Pool, Record, Slot};

/// Records by slot, the first of the list of each class, and the pools by number.
pub trait HasSections {
    // What stands in it.
    ghost sections: { Self → Sections };

    // The cells behind it, where it is a store, bitmaps and all.
    ghost cells: { Self → Cells };

    // How often it was touched, where touches are counted.
    ghost touches: { Self → ℕ };

    /// How many records there are.
    fn count(&self) -> u32
        ensures value { result ≡ length (sections self.now).records }
        ensures some { 0 < result }
        ensures few { result ≤ most_records };

    /// The record of a slot.
    fn record(&mut self, slot: Slot) -> Record
        requires { slot < length (sections self.old).records }
        ensures value { result ≡ record_at (sections self.old).records slot }
        ensures whole { result.size % unit ≡ 0 }
        ensures read { OnlyReads sections cells touches self.old self.new };

    /// The first block of a class's list.
    fn head(&mut self, class: Class) -> Option<Slot>
        ensures value { result ≡ head_at (sections self.old).heads class }
        ensures whole { length (sections self.old).heads ≡ classes }
        ensures read { OnlyReads sections cells touches self.old self.new };

    /// The pool of a number below `MOST_POOLS`.
    fn pool(&mut self, number: u32) -> Option<Pool>
        requires { number < most_pools }
        ensures value { result ≡ pool_at (sections self.old).pools number }
        ensures below { IsPoolBelow (length (sections self.old).records) result }
        ensures whole { length (sections self.old).pools ≡ most_pools }
        ensures read { OnlyReads sections cells touches self.old self.new };
}
