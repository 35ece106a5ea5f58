//! Numbers in the bytes of an image.

ghost use Rattle.std.specs.Prelude.{◌≡◌, ◌+◌, ◌≤◌, length};
ghost use Rattle.tlsf_heap.specs.Images.Image.{two_at, four_at, are_zero};

/// The number of two bytes from an offset on, the lowest first.
pub(crate) fn two_at(bytes: &[u8], offset: usize) -> u16
    requires { offset + 2 ≤ length bytes.now }
    ensures { result ≡ two_at offset bytes.now }
{
    u16::from_le_bytes([bytes[offset], bytes[offset + 1]])
}

/// The number of four bytes from an offset on, the lowest first.
pub(crate) fn four_at(bytes: &[u8], offset: usize) -> u32
    requires { offset + 4 ≤ length bytes.now }
    ensures { result ≡ four_at offset bytes.now }
{
    u32::from_le_bytes([
        bytes[offset],
        bytes[offset + 1],
        bytes[offset + 2],
        bytes[offset + 3],
    ])
}

/// Whether this many bytes from an offset on are zero.
pub(crate) fn are_zero(bytes: &[u8], offset: usize, count: usize) -> bool
    requires { offset + count ≤ length bytes.now }
    ensures { result ≡ are_zero offset count bytes.now }
{
    (offset..offset + count).all(|index| bytes[index] == 0)
}
