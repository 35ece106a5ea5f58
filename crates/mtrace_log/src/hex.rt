//! Numbers in base 16.
ghost use Rattle.std.specs.Prelude.{◌≡◌, ◌≢◌, ℕ, ◌+◌, ◌<◌, ◌≤◌, ◌++◌, List, length, slice_index, MatchOption};
ghost use Rattle.arrayvec.specs.ArrayVec.{array_vec_len};
ghost use Rattle.std.specs.Char.{digit_char};
ghost use Rattle.mtrace_log.specs.Address.{hex_digits, address_text, IsAddress};
ghost use Rattle.mtrace_log.specs.Fields.{EndsField, ReadsDigits};

use crate::sixteen::read_sixteen;
use arrayvec::ArrayVec;

/// The greatest number of bytes in the spelling of an address.
pub const LONGEST_ADDRESS: usize = 18;

/// The byte that writes a digit below 16.
fn digit_byte(digit: u8) -> u8
    requires { digit < 16 }
    ensures { result ≡ digit_char digit }
{
    if digit < 10 {
        b'0' + digit
    } else {
        b'a' + (digit - 10)
    }
}

/// Appends the digits of a number, the highest first, none for 0.
fn push_digits(text: &mut ArrayVec<u8, LONGEST_ADDRESS>, number: u64)
    requires { array_vec_len text.old + length (hex_digits number) ≤ LONGEST_ADDRESS }
    ensures { text.new.items ≡ text.old.items ++ hex_digits number }
{
    if number == 0 {
        return;
    }
    push_digits(text, number / 16);
    text.push(digit_byte((number % 16) as u8));
}

/// The spelling of an address.
pub(crate) fn address_text(number: u64) -> ArrayVec<u8, LONGEST_ADDRESS>
    ensures { result.items ≡ address_text number }
{
    let mut text = ArrayVec::new();
    text.push(b'0');
    text.push(b'x');
    push_digits(&mut text, number);
    text
}

/// The digit that each byte writes, `0` to `9` or `a` to `f`, or 255.
static DIGITS: [u8; 256] = [
    255, 255, 255, 255, 255, 255, 255, 255, 255, 255, 255, 255, 255, 255, 255, 255, 255, 255, 255,
    255, 255, 255, 255, 255, 255, 255, 255, 255, 255, 255, 255, 255, 255, 255, 255, 255, 255, 255,
    255, 255, 255, 255, 255, 255, 255, 255, 255, 255, 0, 1, 2, 3, 4, 5, 6, 7, 8, 9, 255, 255, 255,
    255, 255, 255, 255, 255, 255, 255, 255, 255, 255, 255, 255, 255, 255, 255, 255, 255, 255, 255,
    255, 255, 255, 255, 255, 255, 255, 255, 255, 255, 255, 255, 255, 255, 255, 255, 255, 10, 11,
    12, 13, 14, 15, 255, 255, 255, 255, 255, 255, 255, 255, 255, 255, 255, 255, 255, 255, 255, 255,
    255, 255, 255, 255, 255, 255, 255, 255, 255, 255, 255, 255, 255, 255, 255, 255, 255, 255, 255,
    255, 255, 255, 255, 255, 255, 255, 255, 255, 255, 255, 255, 255, 255, 255, 255, 255, 255, 255,
    255, 255, 255, 255, 255, 255, 255, 255, 255, 255, 255, 255, 255, 255, 255, 255, 255, 255, 255,
    255, 255, 255, 255, 255, 255, 255, 255, 255, 255, 255, 255, 255, 255, 255, 255, 255, 255, 255,
    255, 255, 255, 255, 255, 255, 255, 255, 255, 255, 255, 255, 255, 255, 255, 255, 255, 255, 255,
    255, 255, 255, 255, 255, 255, 255, 255, 255, 255, 255, 255, 255, 255, 255, 255, 255, 255, 255,
    255, 255, 255, 255, 255, 255, 255, 255, 255, 255, 255, 255, 255, 255, 255, 255, 255, 255, 255,
    255, 255, 255, 255,
];

/// The digit that a byte writes, `0` to `9` or `a` to `f`.
fn digit_of(byte: u8) -> Option<u8>
    ensures { MatchOption result ((d : ℕ) → d < 16 → byte ≢ digit_char d) (λ d. (d < 16) × (byte ≡ digit_char d)) }
{
    let digit = DIGITS[byte as usize];
    if digit < 16 { Some(digit) } else { None }
}

/// The greatest number of digits of an address.
const MOST_DIGITS: usize = LONGEST_ADDRESS - 2;

/// The number that the digits at the front write, at most 16 of them, where they don't begin with `0`, and how many these are.
#[inline(never)]
fn read_each(bytes: &[u8]) -> (u64, usize)
    requires { slice_index bytes.now 0 ≢ 48 }
    ensures { ReadsDigits bytes.now result.0 result.1 }
{
    let most = bytes.len().min(MOST_DIGITS);
    let mut number: u64 = 0;
    for i in 0..most {
        let Some(digit) = digit_of(bytes[i]) else {
            return (number, i);
        };
        number = number * 16 + u64::from(digit);
    }
    (number, most)
}

/// The number that the digits at the front write, at most 16 of them, and what follows these; 0 where they begin with `0`.
#[inline(always)]
pub(crate) fn read_digits(bytes: &[u8]) -> (u64, &[u8])
    ensures digits { bytes.now ≡ hex_digits result.0 ++ result.1.now }
    // Where an address is spelled up to the end of a field, it is this one.
    ensures only { (n : ℕ) (rest : List ℕ) → IsAddress n → EndsField rest → bytes.now ≡ hex_digits n ++ rest
        → (n ≡ result.0) × (rest ≡ result.1.now) }
{
    if !bytes.is_empty() && bytes[0] == b'0' {
        return (0, bytes);
    }
    let (number, count) = if bytes.len() < 16 {
        read_each(bytes)
    } else {
        read_sixteen(bytes)
    };
    (number, &bytes[count..])
}
