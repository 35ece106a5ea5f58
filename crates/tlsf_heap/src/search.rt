//! The search for a free block, by the bitmaps.

ghost use Rattle.std.specs.Prelude.{◌≡◌, ◌≢◌, MatchOption, ℕ, ◌+◌, ◌*◌, ◌<◌, ◌≤◌, length, drop, option_and_then, None, Some, IfSome, IfNone};
ghost use Rattle.tlsf_class.specs.Classes.{steps, levels, classes};
ghost use Rattle.tlsf_store.specs.Cells.{head_at};
ghost use Rattle.tlsf_heap.specs.Images.Bitmaps.{AreBitmapsOf, HasNoBit, IsLowestFrom, IsLastHead, first_head};
ghost use Rattle.tlsf_heap.specs.Inner.Answers.{Leaves};

use tlsf_class::{Class, STEPS};
use tlsf_store::Store;

/// The lowest bit set in the word at or above a place.
fn lowest_from(word: u32, from: u32) -> Option<u32>
    ensures { MatchOption result (HasNoBit word from 32) (λ bit. IsLowestFrom word from bit) }
{
    if from >= u32::BITS {
        return None;
    }
    let rest = word >> from;
    if rest == 0 {
        return None;
    }
    Some(from + rest.trailing_zeros())
}

/// The first class, from this one on, whose list isn't empty. At most three touches.
pub(crate) fn search(store: &mut Store, class: Class) -> Option<Class>
    requires bitmaps { AreBitmapsOf store.old.cells.heads store.old.cells.step_words store.old.cells.level_word }
    requires count { length store.old.cells.heads ≡ classes }
    ensures value { option_and_then (λ found. head_at store.old.cells.heads found) result ≡ first_head (drop class store.old.cells.heads) }
    ensures listed { IfSome result (λ found. head_at store.old.cells.heads found ≢ None) }
    ensures left { Leaves store.old.cells 3 store.old store.new }
{
    let level = class.number() / STEPS;
    let word = store.step_word(level);
    let Some(step) = lowest_from(word, class.number() % STEPS) else {
        return search_levels(store, level + 1);
    };
    Some(Class::new(level * STEPS + step))
}

/// The first class, from this first level on, whose list isn't empty. At most two touches.
fn search_levels(store: &mut Store, from: u32) -> Option<Class>
    requires within { from ≤ levels }
    requires bitmaps { AreBitmapsOf store.old.cells.heads store.old.cells.step_words store.old.cells.level_word }
    requires count { length store.old.cells.heads ≡ classes }
    ensures value { option_and_then (λ found. head_at store.old.cells.heads found) result ≡ first_head (drop (from * steps) store.old.cells.heads) }
    ensures listed { IfSome result (λ found. head_at store.old.cells.heads found ≢ None) }
    ensures left { Leaves store.old.cells 2 store.old store.new }
{
    let word = store.level_word();
    let level = lowest_from(word, from)?;
    let step = lowest_from(store.step_word(level), 0)?;
    Some(Class::new(level * STEPS + step))
}

/// The last class whose list isn't empty. At most two touches.
pub(crate) fn last_class(store: &mut Store) -> Option<Class>
    requires bitmaps { AreBitmapsOf store.old.cells.heads store.old.cells.step_words store.old.cells.level_word }
    requires count { length store.old.cells.heads ≡ classes }
    ensures last { IfSome result (λ class. IsLastHead store.old.cells.heads class) }
    ensures none { IfNone result ((class : ℕ) → class < classes → head_at store.old.cells.heads class ≡ None) }
    ensures left { Leaves store.old.cells 2 store.old store.new }
{
    let level = store.level_word().checked_ilog2()?;
    let step = store.step_word(level).checked_ilog2()?;
    Some(Class::new(level * STEPS + step))
}
