//! Lowest sizes and classes by bit counting.

ghost use Rattle.std.specs.Prelude.{◌≡◌, ◌+◌, ◌*◌, ◌%◌, ◌^◌, ◌<◌, ◌≤◌, ◌-◌, Some};
ghost use Rattle.tlsf_class.specs.Classes.{unit, steps, levels, classes, greatest_size, step_power, low, class, need};

use super::{Class, GREATEST_LOW, SMALL_END, STEP_POWER, STEPS, STEPS_POWER, UNIT};

/// The lowest size, in bytes, of the blocks of a class.
pub fn low(class: Class) -> u32
    ensures { result ≡ low class }
{
    let number = class.number();
    let level = number / STEPS;
    let step = number % STEPS;
    if level == 0 {
        UNIT * step
    } else {
        (STEPS + step) << (level + STEP_POWER)
    }
}

/// The class of a block of `size` bytes: the greatest whose lowest size is at most `size`. The size
/// is a multiple of the unit, from one unit to the greatest size of a block.
pub fn class_of(size: u32) -> Class
    requires whole { size % unit ≡ 0 }
    requires some { unit ≤ size }
    requires most { size ≤ greatest_size }
    ensures { result ≡ class size }
{
    if size < SMALL_END {
        return Class::new(size / UNIT);
    }
    let shift = step_shift(size);
    let level = shift - STEP_POWER;
    Class::new(level * STEPS + (size >> shift) - STEPS)
}

/// The least class of which every block holds `size` bytes: the least whose lowest size is at least
/// `size`, a positive multiple of the unit. `None` where there is none.
pub fn class_for(size: u32) -> Option<Class>
    requires whole { size % unit ≡ 0 }
    requires some { 0 < size }
    ensures { result ≡ need size }
{
    if size < SMALL_END {
        return Some(Class::new(size / UNIT));
    }
    if size > GREATEST_LOW {
        return None;
    }
    Some(class_of(next_low(size)))
}

/// The least lowest size at or above `size`, which is above level 0.
fn next_low(size: u32) -> u32
    requires whole { size % unit ≡ 0 }
    requires above { unit * steps ≤ size }
    requires most { size ≤ low (classes - 1) }
    ensures unit { result % unit ≡ 0 }
    ensures some { unit ≤ result }
    ensures most { result ≤ greatest_size }
    ensures needed { need size ≡ Some (class result) }
{
    let shift = step_shift(size);
    (((size - 1) >> shift) + 1) << shift
}

/// The power of two that the steps of a size's first level are, for a size above level 0.
fn step_shift(size: u32) -> u32
    requires above { unit * steps ≤ size }
    requires most { size ≤ greatest_size }
    ensures first { step_power < result }
    ensures last { result < levels + step_power }
    ensures from { steps * 2 ^ result ≤ size }
    ensures below { size < 2 * steps * 2 ^ result }
{
    u32::BITS - 1 - size.leading_zeros() - STEPS_POWER
}
