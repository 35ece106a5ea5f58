//! A location as a key.

ghost use Rattle.std.specs.Prelude.{◌≡◌, [], ◌∷◌, IfOk, OnOk, OnErr};
ghost use Rattle.std.specs.Cmp.{partial_equiv_from_equiv};
ghost use Rattle.std.specs.Cmp.Lexicographic.{bytes_decides, nat_list_eq_equiv};
ghost use Rattle.std.specs.Str.{bytes_eq};
ghost use Rattle.std.proofs.Common.{ap};

use std::alloc::{AllocError, Global};
use std::hash::{Hash, Hasher};
use std::marker::Model;

/// The bytes of a location, hashed as one piece. A `Vec<u8>` hashes each byte by itself, which takes most of a line's time.
#[derive(Drop)]
pub struct LocationKey {
    bytes: Vec<u8>,
}

impl Model for LocationKey {
    ghost use Rattle.std.specs.Prelude.{ℕ, List};

    ghost Value = { List ℕ };

    ghost view = { λ k. k.bytes.items };
}

impl LocationKey {
    /// The key of no bytes.
    pub(crate) fn none(alloc: Global) -> LocationKey
        ensures { result ≡ [] }
    {
        LocationKey {
            bytes: Vec::new(alloc),
        }
    }

    /// The key of these bytes.
    ///
    /// # Errors
    ///
    /// `AllocError` where memory is refused.
    pub(crate) fn of(alloc: Global, bytes: &[u8]) -> Result<LocationKey, AllocError>
        ensures { IfOk result (λ key. key ≡ bytes.now) }
    {
        let bytes = Vec::from_slice(alloc, bytes)?;
        Ok(LocationKey { bytes })
    }

    /// The key is of these bytes. It keeps the memory that it has.
    ///
    /// # Errors
    ///
    /// `AllocError` where memory is refused: then it is of none.
    pub(crate) fn set(&mut self, bytes: &[u8]) -> Result<(), AllocError>
        ensures set { OnOk result (self.new ≡ bytes.now) }
        ensures none { OnErr result (self.new ≡ []) }
    {
        self.bytes.clear();
        self.bytes.extend_from_slice(bytes)
    }

    /// The bytes.
    pub(crate) fn as_slice(&self) -> &[u8]
        ensures { result.now ≡ self.now }
    {
        self.bytes.as_slice()
    }
}

impl PartialEq for LocationKey {
    ghost eq = { bytes_eq };

    ghost laws = { partial_equiv_from_equiv nat_list_eq_equiv };

    fn eq(&self, other: &LocationKey) -> bool {
        self.bytes == other.bytes
    }
}

impl Eq for LocationKey {
    ghost laws = { nat_list_eq_equiv };
}

impl Hash for LocationKey {
    ghost hash_input = { λ bytes. bytes ∷ [] };

    ghost respects_eq = { λ one other same. ap (λ bytes. bytes ∷ []) ((bytes_decides one other).0 same) };

    fn hash<H: Hasher>(&self, state: &mut H) {
        state.write(self.bytes.as_slice());
    }
}
