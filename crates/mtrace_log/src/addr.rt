ghost use Rattle.std.specs.Prelude.{◌≡◌, ◌<◌, SomeIff};
ghost use Rattle.mtrace_log.specs.Address.{address_text};

use crate::hex::{self, LONGEST_ADDRESS};
use arrayvec::ArrayVec;
use std::marker::Model;

/// An address in a log: a number of 64 bits that isn't 0.
#[derive(Clone, Copy, Debug, PartialEq, Eq, PartialOrd, Ord)]
pub struct Addr {
    number: u64,
}

impl Model for Addr {
    ghost use Rattle.std.specs.Prelude.{ℕ, ◌<◌};

    ghost Value = { ℕ };

    ghost view = { λ a. a.number };

    ghost invariant = { λ a. 0 < a.number };

    ghost inverse = { λ n. record { number = n } };
}

impl Addr {
    /// The address with this number, if it isn't 0.
    pub fn new(number: u64) -> Option<Self>
        ensures { SomeIff result (0 < number) number }
    {
        if number == 0 {
            return None;
        }
        Some(Addr { number })
    }

    /// The number.
    pub fn value(self) -> u64
        ensures value { result ≡ self }
        ensures positive { 0 < result }
    {
        self.number
    }

    /// The spelling as ADDR: `0x` and lower-case digits in base 16 without leading zeros, in bytes.
    pub fn text(self) -> ArrayVec<u8, LONGEST_ADDRESS>
        ensures { result.items ≡ address_text self }
    {
        hex::address_text(self.value())
    }
}
