//! The locations of a log, each kept once.

ghost use Rattle.std.specs.Prelude.{◌≡◌, [], Some, slice_get, length, IfOk, nat_eq};
ghost use Rattle.std.specs.List.{IsDistinct};
ghost use Rattle.std.specs.Cmp.Lexicographic.{pointwise};
ghost use Rattle.std.specs.Option.{option_copied};
ghost use Rattle.mtrace_replay.specs.Locations.{Extends, location_of, HasLocation};

use super::location_key::LocationKey;
use indexmap::IndexSet;
use std::alloc::{AllocError, Global};
use std::hash::RandomState;
use std::marker::Model;

/// The locations that were seen, each kept once, by number: the first has number 0.
#[derive(Drop)]
pub struct Locations {
    alloc: Global,
    seen: IndexSet<LocationKey, RandomState>,
    asked: LocationKey,
}

impl Model for Locations {
    ghost use Rattle.std.specs.Prelude.{ℕ, List};

    ghost Value = { List (List ℕ) };

    ghost view = { λ p. p.seen.keys };
}

impl Locations {
    /// None yet.
    pub fn new(alloc: Global, seed: RandomState) -> Locations
        ensures { result ≡ [] }
    {
        Locations {
            alloc,
            seen: IndexSet::with_hasher(alloc, seed),
            asked: LocationKey::none(alloc),
        }
    }

    /// The number of a location, kept if it is new.
    ///
    /// # Errors
    ///
    /// `AllocError` where memory is refused, or there are 2^32 others.
    pub fn number_of(&mut self, bytes: &[u8]) -> Result<u32, AllocError>
        ensures found { IfOk result (λ number. slice_get self.new number ≡ Some bytes.now) }
        ensures others { Extends self.old self.new }
    {
        self.asked.set(bytes)?;
        if let Some(number) = self.seen.get_index_of(&self.asked) {
            let Ok(number) = u32::try_from(number) else {
                return Err(AllocError);
            };
            return Ok(number);
        }
        let kept = LocationKey::of(self.alloc, bytes)?;
        let (number, _) = self.seen.insert_full(kept)?;
        let Ok(number) = u32::try_from(number) else {
            return Err(AllocError);
        };
        Ok(number)
    }

    /// The number of the location of a line, if that has one.
    ///
    /// # Errors
    ///
    /// `AllocError` where memory is refused, or there are 2^32 others.
    pub fn number_at(&mut self, at: Option<&[u8]>) -> Result<Option<u32>, AllocError>
        ensures found { IfOk result (λ location. location_of self.new location ≡ option_copied at.entry) }
        ensures there { IfOk result (HasLocation self.new) }
        ensures others { Extends self.old self.new }
    {
        let Some(bytes) = at else {
            return Ok(None);
        };
        let number = self.number_of(bytes)?;
        Ok(Some(number))
    }

    /// Says what they keep, and does nothing: no location stands there twice.
    pub fn keep_apart(&self)
        ensures { IsDistinct (pointwise nat_eq) self.now }
    {
        let _count = self.seen.len();
    }

    /// How many there are.
    pub fn len(&self) -> usize
        ensures { result ≡ length self.now }
    {
        self.seen.len()
    }

    /// The location of this number.
    pub fn get(&self, number: usize) -> Option<&[u8]>
        ensures { option_copied result ≡ slice_get self.now number }
    {
        let key = self.seen.get_index(number)?;
        Some(key.as_slice())
    }

    /// The location of that number, if there is a number.
    pub fn at(&self, location: Option<u32>) -> Option<&[u8]>
        ensures { option_copied result ≡ location_of self.now location }
    {
        match location {
            Some(number) => self.get(number as usize),
            None => None,
        }
    }
}
