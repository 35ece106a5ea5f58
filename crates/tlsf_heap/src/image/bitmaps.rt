//! Whether the bitmaps agree with the heads of the lists.

ghost use Rattle.std.specs.Prelude.{◌≡◌, ℕ, ◌<◌, ◌/◌, ◌%◌, ◌==◌, ◌↔◌, IsTrue, slice_index};
ghost use Rattle.tlsf_class.specs.Classes.{steps, levels, classes};
ghost use Rattle.tlsf_store.specs.Cells.{head_at};
ghost use Rattle.std.specs.Int.{bit_at};
ghost use Rattle.tlsf_heap.specs.Images.Bitmaps.{AreBitmapsOf, head_bit};

use tlsf_class::{CLASSES, Class, LEVELS, STEPS};
use tlsf_store::KeptWords;

/// Whether the bit of the word is set.
fn has_bit(word: u32, bit: u32) -> bool
    requires { bit < 32 }
    ensures { result ≡ (bit_at word bit == 1) }
{
    (word >> bit) % 2 == 1
}

/// Whether the bit of each class is set exactly where its list has a first block.
fn has_class_bits(table: &mut KeptWords<'_>) -> bool
    ensures value { IsTrue result ↔ ((class : ℕ) → class < classes → bit_at (slice_index table.old.cells.step_words (class / steps)) (class % steps) ≡ head_bit (head_at table.old.cells.heads class)) }
    ensures cells { table.new.cells ≡ table.old.cells }
{
    for number in 0..CLASSES {
        let first = table.head(Class::new(number));
        let word = table.step_word(number / STEPS);
        if has_bit(word, number % STEPS) != first.is_some() {
            return false;
        }
    }
    true
}

/// Whether the bitmaps are true. A class's bit says whether its list has a block. A first level's bit says
/// whether the bit of one of its classes is set.
pub(crate) fn has_true_bitmaps(table: &mut KeptWords<'_>) -> bool
    ensures value { IsTrue result ↔ AreBitmapsOf table.old.cells.heads table.old.cells.step_words table.old.cells.level_word }
    ensures cells { table.new.cells ≡ table.old.cells }
{
    if !has_class_bits(table) {
        return false;
    }
    for level in 0..LEVELS {
        let steps = table.step_word(level);
        let levels = table.level_word();
        if has_bit(levels, level) != (steps != 0) {
            return false;
        }
    }
    true
}
