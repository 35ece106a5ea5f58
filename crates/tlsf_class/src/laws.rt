//! Laws of the definitions, as contracts of functions that do nothing.

ghost use Rattle.std.specs.Prelude.{◌≡◌, ℕ, ◌*◌, ◌≤◌};
ghost use Rattle.tlsf_class.specs.Classes.{unit, steps, greatest_size, class};
ghost use Rattle.tlsf_class.specs.Mapping.{IsHighestBit, mapped};

/// The mapping of the paper (ECRTS 2004), for sizes above the first level 0. The place of a size's
/// highest bit gives the first level of its class, and the next five bits give the step.
pub fn mapping()
    ensures { (size place : ℕ) → unit * steps ≤ size → size ≤ greatest_size → IsHighestBit place size → class size ≡ mapped place size }
{}
