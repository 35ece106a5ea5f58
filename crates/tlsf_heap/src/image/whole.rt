//! Whether a table is that of a heap.

ghost use Rattle.std.specs.Prelude.{◌≡◌, ◌+◌, ◌<◌, ◌↔◌, IsTrue, length};
ghost use Rattle.tlsf_heap.specs.Images.Described.{IsWholeTable};

use super::bitmaps::has_true_bitmaps;
use super::first_broken;
use tlsf_store::{GhostCount, TableWords};

/// Whether a table of these words, which may be any, is that of a heap. They are those of a store, each vacant record once
/// on the chain of vacant records. The bitmaps agree with the heads of the lists. The cells break no rule that an image of
/// them is tested by. Where all that holds, each record is touched. The time is linear in the records.
pub fn is_whole(words: TableWords<'_>, touches: &mut GhostCount) -> bool
    ensures exact { IsTrue result ↔ IsWholeTable words.entry }
    ensures each_read { IsTrue result → touches.old.count + length words.entry.records < touches.new.count }
{
    let Some(mut table) = words.kept(touches) else {
        return false;
    };
    let whole = has_true_bitmaps(&mut table) && first_broken(&mut table).is_none();
    touches.add(table.touches());
    whole
}
