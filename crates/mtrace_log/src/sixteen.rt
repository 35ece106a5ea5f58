//! Digits in base 16, sixteen bytes at a time.

ghost use Rattle.std.specs.Prelude.{◌≡◌, ◌≢◌, ◌<◌, ◌≤◌, length, not, map, slice_index};
ghost use Rattle.std.specs.Simd.Lanes.{Each1};
ghost use Rattle.std.specs.List.{prefix_len};
ghost use Rattle.mtrace_log.specs.Fields.{ReadsDigits};
ghost use Rattle.mtrace_log.specs.Sixteen.{offset, lane_digit, is_other, value};

use std::simd::prelude::*;

/// How far the bytes that write digits stand above these, for each lane: further above the bound.
#[inline(always)]
fn offsets(lanes: u8x16, bound: u8) -> u8x16
    ensures { result ≡ map (offset bound) lanes }
{
    lanes
        .simd_gt(u8x16::splat(bound))
        .select(u8x16::splat(b'a' - 10), u8x16::splat(b'0'))
}

/// How many lanes, from the first on, write the digits that were read of them.
#[inline(always)]
fn count_digits(lanes: u8x16, digits: u8x16) -> usize
    requires { digits ≡ map lane_digit lanes }
    ensures { result ≡ prefix_len (λ byte. not (is_other byte)) lanes }
{
    let other = (digits + offsets(digits, 9)).simd_ne(lanes).to_bitmask();
    if other == 0 {
        return 16;
    }
    other.trailing_zeros() as usize
}

/// The number that sixteen digits write.
#[inline(always)]
fn packed(digits: u8x16) -> u64
    requires { Each1 (λ digit. digit < 16) digits }
    ensures { result ≡ value digits 16 }
{
    let high: u8x8 = digits.swizzle([0, 2, 4, 6, 8, 10, 12, 14]);
    let low: u8x8 = digits.swizzle([1, 3, 5, 7, 9, 11, 13, 15]);
    u64::from_be_bytes((high * u8x8::splat(16) + low).to_array())
}

/// The number that the digits at the front write, at most 16 of them, where they don't begin with `0`, and how many these are.
#[inline(always)]
pub(crate) fn read_sixteen(bytes: &[u8]) -> (u64, usize)
    requires room { 16 ≤ length bytes.now }
    requires first { slice_index bytes.now 0 ≢ 48 }
    ensures { ReadsDigits bytes.now result.0 result.1 }
{
    let lanes = u8x16::from_slice(bytes);
    // The digit that each lane writes, where it writes one, or else any.
    let digits = (lanes - offsets(lanes, b'9')) & u8x16::splat(15);
    let count = count_digits(lanes, digits);
    if count == 0 {
        return (0, 0);
    }
    (packed(digits) >> (64 - 4 * count), count)
}
