//! The step between the sizes that a log is tried on.

ghost use Rattle.std.specs.Prelude.{◌≡◌, ◌*◌, ◌/◌, ◌%◌, ◌^◌, ◌<◌, ◌≤◌, nat_lt, false};
ghost use Rattle.tlsf_class.specs.Classes.{greatest_size};
ghost use Rattle.mtrace_replay.specs.Fit.{is_bad_step, step_of, last_number};

use crate::heap::settings::{GREATEST_POOL, UNIT};
use std::marker::Model;

/// Whether a step isn't a whole number of units from one to the greatest size.
pub(crate) fn is_bad_step(step: Option<u64>) -> bool
    ensures { result ≡ is_bad_step step }
{
    match step {
        Some(step) => step % UNIT != 0 || step < UNIT || step > GREATEST_POOL,
        None => false,
    }
}

/// A step between sizes, in bytes: a whole number of units, and at least one.
#[derive(Clone, Copy)]
pub(crate) struct Step {
    bytes: u64,
}

impl Model for Step {
    ghost use Rattle.std.specs.Prelude.{ℕ};
    ghost use Rattle.mtrace_replay.specs.Fit.{AreUnits};

    ghost Value = { ℕ };

    ghost view = { λ s. s.bytes };

    ghost invariant = { λ s. AreUnits s.bytes };

    ghost inverse = { λ n. record { bytes = n } };
}

impl Step {
    /// The step: where none is given, the least multiple of the unit from a 64th of the peak on, and at least the unit.
    pub(crate) fn of(step: Option<u64>, peak: u64) -> Step
        requires { is_bad_step step ≡ false }
        ensures { result ≡ step_of step peak }
    {
        let bytes = match step {
            Some(step) => step,
            None => UNIT * peak.div_ceil(64 * UNIT).max(1),
        };
        Step { bytes }
    }

    /// Its bytes.
    pub(crate) fn bytes(self) -> u64
        ensures value { result ≡ self }
        ensures some { UNIT ≤ result }
        ensures in_units { result % UNIT ≡ 0 }
    {
        self.bytes
    }

    /// A step twice as large.
    pub(crate) fn twice(self) -> Step
        requires { self * 2 < 2 ^ 64 }
        ensures { result ≡ self * 2 }
    {
        Step {
            bytes: self.bytes * 2,
        }
    }

    /// The last number of a range that begins with the first: twice as many steps, or as many as the greatest size has.
    pub(crate) fn last_number(self, first: u64) -> u64
        ensures value { result ≡ last_number self first }
        ensures within { result ≤ greatest_size / self }
    {
        first.saturating_mul(2).min(GREATEST_POOL / self.bytes)
    }

    /// Whether there is a range by a step twice as large, behind twice the first number of steps.
    pub(crate) fn has_range_behind(self, first: u64) -> bool
        ensures { result ≡ nat_lt first (greatest_size / (2 * self)) }
    {
        self.bytes <= GREATEST_POOL && GREATEST_POOL / (2 * self.bytes) > first
    }
}
