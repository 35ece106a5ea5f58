//! A pool that has an address.

ghost use Rattle.std.specs.Prelude.{◌≡◌, ◌+◌, ◌<◌, ◌↔◌, IsTrue};
ghost use Rattle.tlsf_c.specs.PlacedPools.{IsPlaced, HasPlace, HasAddress, IsAt};

/// A pool at an address. A block begins eight bytes, its front, before its address. An entry that holds no pool has no
/// reach.
#[repr(C)]
#[derive(Clone, Copy)]
pub struct PlacedPool {
    /// The address of a block that begins where the pool does.
    pub first: u64,
    /// How many bytes the pool has behind that address.
    pub reach: u64,
    /// The place where the pool begins.
    pub place: u32,
    /// The caller's: which of the heap's entries it is.
    pub number: u32,
    /// The caller's: whose pool it is.
    pub owner: u64,
}

impl PlacedPool {
    /// Whether a block's place is in the pool.
    #[inline(always)]
    pub(crate) fn has_place(&self, place: u32) -> bool
        requires { IsPlaced self.now }
        ensures { IsTrue result ↔ HasPlace self.now place }
    {
        u64::from(place.wrapping_sub(self.place)) < self.reach
    }

    /// Whether a block of the pool may have this address.
    #[inline(always)]
    pub(crate) fn has_address(&self, address: u64) -> bool
        requires { IsPlaced self.now }
        ensures { IsTrue result ↔ HasAddress self.now address }
    {
        address.wrapping_sub(self.first) < self.reach
    }

    /// The address of the block at a place.
    #[inline(always)]
    pub(crate) fn address_of(&self, place: u32) -> u64
        requires placed { IsPlaced self.now }
        requires has { HasPlace self.now place }
        ensures at { IsAt self.now place result }
        ensures some { 0 < result }
    {
        self.first + u64::from(place - self.place)
    }

    /// The place of the block at an address.
    #[inline(always)]
    pub(crate) fn place_of(&self, address: u64) -> u32
        requires placed { IsPlaced self.now }
        requires has { HasAddress self.now address }
        ensures at { IsAt self.now result address }
    {
        self.place + (address - self.first) as u32
    }
}
