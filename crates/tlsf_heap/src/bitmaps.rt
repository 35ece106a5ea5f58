//! The bitmaps. A class's bit is set where its list isn't empty; a first level's, where one of its
//! classes' bits is set.

ghost use Rattle.std.specs.Prelude.{◌≡◌, ◌<◌, ◌≤◌, ◌^◌};
ghost use Rattle.tlsf_class.specs.Classes.{levels};
ghost use Rattle.tlsf_heap.specs.Inner.Edits.{with_bit, without_bit, with_class_bit, without_class_bit};
ghost use Rattle.tlsf_store.specs.CountedCells.{LeavesAfter};
ghost use Rattle.tlsf_heap.specs.Inner.Answers.{Leaves};

use tlsf_class::{Class, STEPS};
use tlsf_store::Store;

/// The word with this bit set.
pub(crate) fn set_bit(word: u32, bit: u32) -> u32
    requires { bit < 32 }
    ensures value { result ≡ with_bit word bit }
    ensures below { word < 2 ^ levels → bit < levels → result < 2 ^ levels }
{
    word | 1 << bit
}

/// The word with this bit cleared.
pub(crate) fn clear_bit(word: u32, bit: u32) -> u32
    requires { bit < 32 }
    ensures value { result ≡ without_bit word bit }
    ensures below { result ≤ word }
{
    word & !(1 << bit)
}

/// Sets the bit of a class, and that of its first level. Four touches.
pub(crate) fn set_class_bit(store: &mut Store, class: Class)
    ensures { LeavesAfter (with_class_bit class store.old.cells) 4 store.old store.new }
{
    let level = class.number() / STEPS;
    let word = store.step_word(level);
    store.set_step_word(level, set_bit(word, class.number() % STEPS));
    let levels = store.level_word();
    store.set_level_word(set_bit(levels, level));
}

/// Clears the bit of a class, and that of its first level where no other class of it has one. At most
/// four touches.
pub(crate) fn clear_class_bit(store: &mut Store, class: Class)
    ensures { Leaves (without_class_bit class store.old.cells) 4 store.old store.new }
{
    let level = class.number() / STEPS;
    let word = clear_bit(store.step_word(level), class.number() % STEPS);
    store.set_step_word(level, word);
    if word == 0 {
        let levels = store.level_word();
        store.set_level_word(clear_bit(levels, level));
    }
}
