//! Where a heap with addresses lies in the memory that is handed in.

ghost use Rattle.std.specs.Prelude.{◌≡◌, ◌+◌, ◌^◌, ◌<◌, ◌≤◌, ◌↔◌, true, false, IsTrue};
ghost use Rattle.tlsf_heap.specs.Sizing.{table_bytes};
ghost use Rattle.tlsf_c.specs.HeapPlaces.{taken, HasHeapRoom, ArePlacesOf, IsApartFrom};

/// The bytes of a table, beside those of its records.
const TABLE: u64 = 1_696;

/// The bytes of a record.
const RECORD: u64 = 16;

/// The bytes of a table with this many records.
pub(crate) fn table_bytes(records: u64) -> u64
    requires { records < 2 ^ 34 }
    ensures { result ≡ table_bytes records }
{
    TABLE + RECORD * records
}

/// Where the parts of a heap lie.
#[repr(C)]
#[derive(Clone, Copy)]
pub struct HeapPlaces {
    /// The address of the table.
    pub table: u64,
    /// The first address behind it, which is the first pool's.
    pub pool: u64,
    /// The bytes that are left for the pool.
    pub bytes: u64,
}

/// The bytes of a heap whose control part begins at `own` and has `part` bytes, with those of its table.
fn taken(own: u64, part: u32, records: u32) -> u64
    ensures { result ≡ taken own part records }
{
    let part = u64::from(part);
    let skipped = (16 - (own % 16 + part % 16) % 16) % 16;
    part + skipped + table_bytes(u64::from(records))
}

/// Where the table and the first pool of a heap lie in `bytes` bytes from the address `memory` on, behind its control part of
/// `part` bytes. They go to `out`.
///
/// The answer is whether they have room, the bytes end at the address `last` or before, and the memory begins at a multiple of 8.
#[unsafe(no_mangle)]
pub extern "C" fn tlsf_placed_places(
    memory: u64,
    bytes: u64,
    part: u32,
    records: u32,
    last: u64,
    out: &mut HeapPlaces,
) -> bool
    ensures room { (result ≡ true) ↔ HasHeapRoom memory bytes part records last }
    ensures places { result ≡ true → ArePlacesOf memory bytes part records out.new }
    ensures out { result ≡ false → out.new ≡ out.old }
{
    let taken = taken(memory, part, records);
    if memory == 0 || memory % 8 != 0 || memory > last || bytes > last - memory || taken > bytes {
        return false;
    }
    let pool = memory + taken;
    *out = HeapPlaces {
        table: pool - table_bytes(u64::from(records)),
        pool,
        bytes: bytes - taken,
    };
    true
}

/// Whether `bytes` bytes from the address `memory` on are none of the heap's whose control part begins at `own`. They begin at a
/// multiple of 8, too, and end at the address `last` or before.
#[unsafe(no_mangle)]
pub extern "C" fn tlsf_placed_is_apart(
    own: u64,
    part: u32,
    records: u32,
    memory: u64,
    bytes: u64,
    last: u64,
) -> bool
    ensures { IsTrue result ↔ IsApartFrom own part records memory bytes last }
{
    if memory == 0 || memory % 8 != 0 || memory > last || bytes > last - memory {
        return false;
    }
    let taken = taken(own, part, records);
    memory + bytes <= own || (taken <= memory && own <= memory - taken)
}
