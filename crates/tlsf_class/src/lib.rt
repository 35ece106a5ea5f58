//! Size classes of a heap by Two-Level Segregated Fit (ECRTS 2004), found by bit counting. Each
//! power of two has a first level, divided into 32 equal steps. All the smallest sizes share one
//! first level, as in `tlsf.c`. Sizes are in bytes.
#![tactic(auto)]

pub mod laws;
mod rounding;
mod size_class;
mod sizes;

pub use rounding::round;
pub use size_class::Class;
pub use sizes::{class_for, class_of, low};

/// How many size classes there are.
pub const CLASSES: u32 = LEVELS * STEPS;

/// The unit is this power of two.
const UNIT_POWER: u32 = 4;

/// Every place and every size is a multiple of it, in bytes.
pub const UNIT: u32 = 1 << UNIT_POWER;

/// How many first levels there are: the last begins at `1 << 29`.
pub const LEVELS: u32 = 26 - UNIT_POWER;

/// How many steps a first level has, and the power of two that it is.
pub const STEPS: u32 = 1 << STEPS_POWER;

const STEPS_POWER: u32 = 5;

/// The sizes below it share the first level 0, in steps of one unit.
const SMALL_END: u32 = UNIT * STEPS;

/// The first level `f`, from 1 on, has steps of `1 << (f + STEP_POWER)` bytes.
const STEP_POWER: u32 = UNIT_POWER - 1;

/// The greatest size of a block, in bytes.
pub const GREATEST_SIZE: u32 = (1 << 30) - UNIT;

/// The lowest size of the last class, in bytes.
const GREATEST_LOW: u32 = (2 * STEPS - 1) << (LEVELS - 1 + STEP_POWER);
