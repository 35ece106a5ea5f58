//! A row of a pool that has an address.

ghost use Rattle.std.specs.Prelude.{◌≡◌};
ghost use Rattle.tlsf_c.specs.PlacedPools.{IsPlaced};
ghost use Rattle.tlsf_c.specs.PlacedRows.{IsRowOf, placed_row};

use crate::placed_pool::PlacedPool;
use tlsf_heap::Row;

/// A block of a pool: its address, the bytes that it has behind its front, and whether it is live.
#[repr(C)]
#[derive(Clone, Copy)]
pub struct PlacedRow {
    /// Its address.
    pub address: u64,
    /// Its bytes, without the eight in front of the address.
    pub bytes: u32,
    /// Whether it is live.
    pub used: bool,
}

impl PlacedRow {
    /// The row of a block of the pool.
    #[inline(always)]
    pub(crate) fn of(pool: &PlacedPool, row: Row) -> PlacedRow
        requires placed { IsPlaced pool.now }
        requires within { IsRowOf pool.now row }
        ensures { result ≡ placed_row pool.now row }
    {
        PlacedRow {
            address: pool.address_of(row.place),
            bytes: row.size - 8,
            used: row.used,
        }
    }
}
