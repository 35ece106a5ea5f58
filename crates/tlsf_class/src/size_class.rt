//! The number of a size class.

ghost use Rattle.std.specs.Prelude.{◌≡◌, ◌<◌};
ghost use Rattle.tlsf_class.specs.Classes.{classes};

use std::marker::Model;

/// A size class: a number below `CLASSES`.
#[derive(Clone, Copy, Debug, PartialEq, Eq, PartialOrd, Ord, Hash)]
pub struct Class {
    number: u32,
}

impl Model for Class {
    ghost use Rattle.std.specs.Prelude.{ℕ, ◌<◌};
    ghost use Rattle.tlsf_class.specs.Classes.{classes};

    ghost Value = { ℕ };

    ghost view = { λ c. c.number };

    ghost invariant = { λ c. c.number < classes };

    ghost inverse = { λ n. record { number = n } };
}

impl Class {
    /// The class of this number, which is below `CLASSES`.
    pub fn new(number: u32) -> Self
        requires { number < classes }
        ensures { result ≡ number }
    {
        Class { number }
    }

    /// The number of the class.
    pub fn number(self) -> u32
        ensures value { result ≡ self }
        ensures below { result < classes }
    {
        self.number
    }
}
