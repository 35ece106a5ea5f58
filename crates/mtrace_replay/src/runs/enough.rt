//! How many records are always enough, and the bytes of their table.

ghost use Rattle.std.specs.Prelude.{◌≡◌, ◌^◌, ◌<◌};
ghost use Rattle.tlsf_heap.specs.Sizing.{sure_records, table_bytes};

/// The records that are always enough where at most this many blocks are live.
pub(crate) fn sure_records(blocks: u64) -> u64
    requires { blocks < 2 ^ 62 }
    ensures { result ≡ sure_records blocks }
{
    2 * blocks + 3
}

/// The bytes of the table of a heap of this many records.
pub(crate) fn table_bytes(records: u64) -> u64
    requires { records < 2 ^ 59 }
    ensures { result ≡ table_bytes records }
{
    16 * records + 1696
}
